//! The router that a port names by its device.

ghost use Rattle.std.specs.Prelude.{◌≡◌, option_copied};
ghost use Rattle.api_types.specs.Consistent.{IsConsistent};
ghost use Rattle.api_types.specs.Holders.{router_of as router_by_rows};
ghost use Rattle.touched_rows.specs.TouchedNumbers.{router_number as number_by_rows};

use api_types::{Id, PortRow, RouterRow, Rows};
use plane_rows::named_router;
use table_edits::Numbers;

/// The router that a port names by its `device_id`. Its cost doesn't grow with the routers.
pub fn device_router<'r>(rows: &'r Rows, port: &PortRow) -> Option<&'r RouterRow>
    requires { IsConsistent rows.now }
    ensures { option_copied result ≡ router_by_rows rows.now port.now }
{
    let id = Id::read(port.device.as_str().as_bytes())?;
    let router = named_router(rows, id)?;
    if port.has_device(router.id) {
        Some(router)
    } else {
        None
    }
}

/// The number before the change of the router of which a port is.
pub(crate) fn router_number(
    rows: &Rows,
    routers: &Numbers<RouterRow>,
    port: &PortRow,
) -> Option<usize>
    requires { IsConsistent rows.now }
    ensures { result ≡ number_by_rows rows.now routers.now.rows port.now }
{
    if !port.is_router_port() {
        return None;
    }
    let router = device_router(rows, port)?;
    routers.number(router.id)
}
