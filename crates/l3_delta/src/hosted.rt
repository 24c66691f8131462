//! Whether routers stand on a host.

ghost use Rattle.std.specs.Prelude.{◌≡◌, option_copied};
ghost use Rattle.api_types.specs.RowsWith.{router_with};
ghost use Rattle.plane_types.specs.TableRows.{is_hosted as is_hosted_by_rows, is_on_host};

use api_types::{Id, RouterRow, Rows};
use net_addr::Text;
use plane_rows::named_router;

/// Whether a router stands on the host.
pub(crate) fn is_hosted(host: &Text, router: &RouterRow) -> bool
    ensures { result ≡ is_on_host host.now router.now }
{
    match &router.host {
        Some(at) => *at == *host,
        None => false,
    }
}

/// Whether a router, if there is one, stands on the host.
pub(crate) fn is_any_hosted(host: &Text, router: Option<&RouterRow>) -> bool
    ensures { result ≡ is_hosted_by_rows host.now (option_copied router.entry) }
{
    match router {
        Some(router) => is_hosted(host, router),
        None => false,
    }
}

/// Whether the router with this id stands on the host.
pub(crate) fn is_hosted_here(rows: &Rows, host: &Text, router: Id) -> bool
    ensures { result ≡ is_hosted_by_rows host.now (router_with rows.now router) }
{
    match named_router(rows, router) {
        Some(router) => is_hosted(host, router),
        None => false,
    }
}
