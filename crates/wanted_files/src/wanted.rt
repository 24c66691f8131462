//! Who is wanted to reach whom.

use api_types::Id;
use net_addr::{Addr, Seq, Text};
use reach_laws::ReachKind;

/// Whether packets are wanted to come.
#[derive(Clone, Copy, Debug)]
pub enum ReachWant {
    /// Each number of the range is to reach.
    Allow,
    /// No number of the range is to reach.
    Deny,
}

/// A table of the file: from which port to which, by which numbers.
#[derive(Drop)]
pub struct WantedReach {
    /// 1 to 64 letters, digits, `-` and `_`.
    pub name: Text,
    pub from: Id,
    pub to: Id,
    /// An address of the first port; None is its first one of IPv4.
    pub from_address: Option<Addr>,
    /// An address of the second port; None is its first one of IPv4.
    pub to_address: Option<Addr>,
    pub proto: ReachKind,
    /// At most `high`.
    pub low: u32,
    /// A number of the kind: at most 65,535, 0 or 255.
    pub high: u32,
    pub want: ReachWant,
}

/// The tables of the file, with names that differ.
pub type Wanted = Seq<WantedReach>;
