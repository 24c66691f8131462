//! A port of a router by its id.

ghost use Rattle.std.specs.Prelude.{◌≡◌, option_copied};
ghost use Rattle.plane_types.specs.TableStep.{tagged_leg as leg_by_port};

use api_types::Id;
use plane_types::{RouterPort, RouterTable};

/// A port of a router. Its cost grows with the router's ports.
pub(crate) fn port_of(router: &RouterTable, port: Id) -> Option<&RouterPort>
    ensures { option_copied result ≡ leg_by_port router.now port }
{
    router.ports.iter().find(|row| port == row.port)
}
