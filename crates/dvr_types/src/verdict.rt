//! What becomes of an event at hosts that route by themselves.

use net_addr::Names;
use plane_types::Verdict;

/// A verdict, and the hosts that handled the event: the names of those at which it was, in order,
/// and no name twice in a row. The verdict's trail is empty.
#[derive(Drop)]
pub struct DvrVerdict {
    pub verdict: Verdict,
    pub hosts: Names,
}
