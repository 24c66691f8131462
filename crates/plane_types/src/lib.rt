//! Frames, keys, tracked entries, host tables, verdicts, and what a lab is asked.
//!
//! The types that cross from the rows of the Networking API to the hosts that carry its frames, and
//! in specs/ what a frame does: by the rows alone, and by the tables that hosts hold. It stands on
//! the rows of `api_types`. Definitions are over the declared types, so contracts above cite both.
//! A key is a packet's ends and ports as its protocol has them; both ends are of one version of IP,
//! by their type. Beside the types stands what rows and tables ask alike of single packets: keys,
//! flows, the parts of a filter, allowed pairs and translations. Only tables take memory, where
//! they are copied or put into order, and tracked entries, where room is made for them.
#![tactic(auto)]

mod ascending;
mod ask;
mod delta;
mod edit_laws;
mod ends;
mod entries;
mod entry;
mod event;
mod filter;
mod flow;
mod frame;
mod gap_vec;
mod key;
mod keyed;
mod keys;
mod lists;
mod look;
mod open_runs;
mod order;
mod packet;
mod pairs;
mod routing;
mod row_list;
mod run;
mod runs;
mod spare_vec;
mod steps;
mod table;
mod tables;
mod tag_map;
mod tags;
mod translation;
mod verdict;

pub use ascending::Ascending;
pub use ask::{Ask, Heard, HostState, LabAnswer, LabCall, Reply};
pub use delta::{Delta, Edit, Edits, L2Delta, L3Delta, LeaseDelta};
pub use edit_laws::{edits_are_few, edits_lead};
pub use ends::Ends;
pub use entries::{Entries, Fresh};
pub use entry::Entry;
pub use event::{Event, Place};
pub use filter::{far_of, in_range, is_protocol};
pub use flow::{Passage, is_tracked, new_flow, opposite};
pub use frame::{Frame, Key, KeyKind, KeyPart};
pub use key::{is_key, is_kind};
pub use lists::{Leases, TableLists, Tags};
pub use packet::{Packet, part_from, part_to};
pub use pairs::{has_pair_mac, is_allowed};
pub use routing::{
    Changed, Destined, Sourced, answered_to, kept_source, lower, rank_number, sourced_at, with_ends,
};
pub use spare_vec::SpareVec;
pub use steps::Steps;
pub use table::{
    BridgeKey, BridgeRow, BridgeTo, Carrier, FilterRow, FloatRow, InwardRow, LeaseRow,
    NeighbourRow, RouteRow, RouterPort, RouterTable, SetRow, TagRow, TapRow,
};
pub use tables::HostTables;
pub use tag_map::TagMap;
pub use tags::tag_of;
pub use translation::{Use, use_of_entry};
pub use verdict::{AskAnswer, DropCause, Made, Outcome, Toward, TrailItem, Verdict};
