//! The DHCP ports of networks.

ghost use Rattle.std.specs.Prelude.{◌≡◌, ◌&&◌, IfOk, find, option_copied};
ghost use Rattle.std.specs.Option.{option_and_then};
ghost use Rattle.std.specs.HashMap.{get};
ghost use Rattle.std.specs.List.{slice_get};
ghost use Rattle.api_types.specs.Holders.{dhcp_port as dhcp_by_rows, is_live_dhcp_of};
ghost use Rattle.api_types.specs.Ident.{Ident};
ghost use Rattle.api_types.specs.Live.{is_live as live_by_rows};
ghost use Rattle.api_types.specs.Owners.{is_dhcp as dhcp_of};
ghost use Rattle.api_types.specs.Table.{ident_eq};

use api_types::{Id, PortRow, Rows, Shared};
use net_addr::OutOfMemory;
use plane_rows::is_live;
use std::alloc::Global;
use std::collections::HashMap;
use std::marker::Model;

/// Rows whose live DHCP ports are looked up by their networks. Contracts see the rows.
#[derive(Drop)]
pub(crate) struct Served<'r> {
    rows: &'r Rows,
    indices: HashMap<Id, usize>,
}

impl<'r> Model for Served<'r> {
    ghost use Rattle.std.specs.Prelude.{◌≡◌};
    ghost use Rattle.std.specs.Option.{option_and_then};
    ghost use Rattle.std.specs.HashMap.{get};
    ghost use Rattle.std.specs.List.{slice_get};
    ghost use Rattle.api_types.specs.Holders.{dhcp_port};
    ghost use Rattle.api_types.specs.Ident.{Ident};
    ghost use Rattle.api_types.specs.RowLists.{RowLists};
    ghost use Rattle.api_types.specs.Table.{ident_eq};

    ghost Value = { RowLists };

    ghost view = { λ s. s.rows.now };

    ghost invariant = { λ s. (n : Ident)
        → option_and_then (slice_get s.rows.now.ports) (get ident_eq s.indices n)
        ≡ dhcp_port s.rows.now n };
}

// Whether a port is a live DHCP port.
fn is_serving(rows: &Rows, port: &PortRow) -> bool
    ensures { result ≡ (dhcp_of port.now.owner && live_by_rows rows.now port.now) }
{
    port.is_dhcp() && is_live(rows, port)
}

// From the last to the first, so that the place of the first live DHCP port of a network stays.
fn indices_of(
    alloc: Global,
    rows: &Rows,
    ports: &[Shared<PortRow>],
) -> Result<HashMap<Id, usize>, OutOfMemory>
    ensures { IfOk result
        (λ m. (n : Ident)
        → option_and_then (slice_get ports.now) (get ident_eq m n)
        ≡ find (is_live_dhcp_of rows.now n) ports.now) }
{
    let mut indices = HashMap::new(alloc);
    let mut left = ports.len();
    while left > 0 {
        left -= 1;
        let port = ports[left].get();
        if is_serving(rows, port) {
            indices.insert(port.network, left)?;
        }
    }
    Ok(indices)
}

impl<'r> Served<'r> {
    /// These rows. Its cost grows with the ports.
    pub(crate) fn of(alloc: Global, rows: &'r Rows) -> Result<Served<'r>, OutOfMemory>
        ensures { IfOk result (λ s. s ≡ rows.now) }
    {
        Ok(Served {
            rows,
            indices: indices_of(alloc, rows, rows.ports().rows())?,
        })
    }

    /// The rows.
    pub(crate) fn rows(&self) -> &'r Rows
        ensures { result.now ≡ self.now }
    {
        self.rows
    }

    /// The live DHCP port of a network. Its cost is constant.
    pub(crate) fn dhcp_port(&self, network: Id) -> Option<&'r PortRow>
        ensures { option_copied result ≡ dhcp_by_rows self.now network }
    {
        let place = self.indices.get(&network).copied()?;
        match self.rows.ports().rows().get(place) {
            Some(port) => Some(port.get()),
            None => None,
        }
    }
}
