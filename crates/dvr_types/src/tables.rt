//! A host's tables with its copies of routers.

use crate::copies::Copies;
use net_addr::Text;
use plane_types::HostTables;

/// A host that routes by itself: its name, its tables and its copies.
#[derive(Drop)]
pub struct DvrTables {
    pub host: Text,
    pub base: HostTables,
    pub copies: Copies,
}
