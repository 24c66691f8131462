//! Ports that are bound to a host, and live there.

ghost use Rattle.std.specs.Prelude.{◌≡◌};
ghost use Rattle.api_types.specs.Live.{is_at as is_at_host, is_here as is_here_by_rows};

use crate::live::is_live;
use api_types::{PortRow, Rows};
use net_addr::Text;

/// Whether a port is bound to the host.
pub fn is_at(host: &Text, port: &PortRow) -> bool
    ensures { result ≡ is_at_host host.now port.now }
{
    port.host == *host
}

/// Whether a port is live on the host.
pub fn is_here(rows: &Rows, host: &Text, port: &PortRow) -> bool
    ensures { result ≡ is_here_by_rows rows.now host.now port.now }
{
    is_live(rows, port) && is_at(host, port)
}
