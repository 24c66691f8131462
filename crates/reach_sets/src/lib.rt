//! Which numbers of one port another port reaches, and whether that is what is wanted.
//!
//! `reach` gives the exact sets of numbers whose first packets are delivered when nothing is
//! tracked yet; `judge` compares them with a wanted file and shows an event where they differ. Both
//! cut the numbers where a rule of the two ports begins or ends and evaluate one event a piece, by
//! `explain` of `net_meaning`; the law of `reach_laws` says that this decides. The rows have to be
//! consistent. Running out of memory is the only refusal.
#![tactic(auto)]

mod comes;
mod cuts;
mod events;
mod growth;
mod judgement;
mod pair;
mod reach_set;
mod spans;
mod wanted_pairs;

pub use events::first_event;
pub use judgement::{Judged, Judgement, judge};
pub use pair::Pair;
pub use reach_set::{ReachSet, reach};
pub use spans::{Span, Spans};
pub use wanted_pairs::{are_named, named};
