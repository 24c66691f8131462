//! What a request asks, and what it is answered, calls of the lab among them.

use crate::event::Event;
use crate::lists::TableLists;
use crate::verdict::Verdict;
use api_types::{Answer, Call, Change, PageRows, Refusal};
use net_addr::{Seq, Text};

/// What a request asks.
pub enum Ask {
    Api(Call),
    Lab(LabCall),
}

impl Drop for Ask {
    fn drop(self) {
        match self {
            Ask::Api(_) => {}
            Ask::Lab(_) => {}
        }
    }
}

/// A call of the lab, in which hosts carry frames.
#[derive(Drop)]
pub enum LabCall {
    /// What the hosts' tables make of an event.
    Frames(Event),
    /// What the rows make of an event.
    Explain(Event),
    /// A host gets the change with this number.
    Deliver { host: Text, number: u64 },
    /// A host gets the current rows.
    Resync(Text),
    /// A host forgets which change it has.
    Restart(Text),
    /// A host forgets its tracked entries.
    Forget(Text),
    /// Each host that doesn't have the current rows gets them.
    Settle,
    /// The hosts, and what they have.
    Hosts,
    /// A host's tables.
    Tables(Text),
    /// The numbers of the kept changes.
    Version,
    /// The change with this number.
    Change { number: u64 },
    /// A page of the rows, if they have this version.
    Page { version: u64, number: u64 },
}

/// How a host reacts to a change.
#[derive(Clone, Copy, PartialEq, Eq)]
pub enum Heard {
    /// It follows what the host has, which is now the change with this number.
    Applied { held: u64 },
    /// The host has it already.
    Old { held: u64 },
    /// The host lacks one before it.
    Gap { held: u64 },
    /// The host has none.
    Asleep,
}

/// A host's name, and the number of the last change that it has.
#[derive(Drop)]
pub struct HostState {
    pub name: Text,
    pub held: Option<u64>,
}

/// What the lab answers.
pub enum LabAnswer {
    Seen(Verdict),
    Told(Heard),
    Hosts(Seq<HostState>),
    Tables(TableLists),
    /// The first and the last number of the kept changes; the last is the current version.
    Version {
        first: u64,
        last: u64,
    },
    /// The change with this number.
    Change {
        number: u64,
        items: Change,
    },
    /// A page of the rows at a version, and whether it is the last one.
    Page {
        version: u64,
        number: u64,
        last: bool,
        rows: PageRows,
    },
}

impl Drop for LabAnswer {
    fn drop(self) {
        match self {
            LabAnswer::Seen(_) => {}
            LabAnswer::Told(_) => {}
            LabAnswer::Hosts(_) => {}
            LabAnswer::Tables(_) => {}
            LabAnswer::Version { first: _, last: _ } => {}
            LabAnswer::Change {
                number: _,
                items: _,
            } => {}
            LabAnswer::Page {
                version: _,
                number: _,
                last: _,
                rows: _,
            } => {}
        }
    }
}

/// What a request is answered.
pub enum Reply {
    Done(Answer),
    LabDone(LabAnswer),
    Refused(Refusal),
}

impl Drop for Reply {
    fn drop(self) {
        match self {
            Reply::Done(_) => {}
            Reply::LabDone(_) => {}
            Reply::Refused(_) => {}
        }
    }
}
