//! Two ports, and an address of each.

use api_types::PortRow;
use plane_types::Ends;

/// From which port to which, and from which address to which.
#[derive(Clone, Copy)]
pub struct Pair<'r> {
    pub from: &'r PortRow,
    pub to: &'r PortRow,
    pub ends: Ends,
}
