//! Calls of the Networking API, who makes them, and what a list is asked.

use crate::form::Form;
use crate::id::Id;
use crate::kind::Kind;
use net_addr::{Names, Seq, Text};

/// Who asks.
#[derive(Drop)]
pub struct Caller {
    /// The name of the project: 1 to 64 letters, digits, hyphens and underscores.
    pub project: Text,
    pub admin: bool,
}

/// A text where an id is expected. One that is no id names no row.
#[derive(Drop)]
pub struct IdText {
    pub text: Text,
    pub id: Option<Id>,
}

/// A name and the value that rows are to have under it.
#[derive(Drop)]
pub struct Filter {
    pub name: Text,
    pub value: Text,
}

/// What is asked of a list.
#[derive(Drop)]
pub struct Query {
    pub filters: Seq<Filter>,
    /// How many rows at most, 1 to 10,000.
    pub limit: Option<u32>,
    /// The row after which the list begins.
    pub marker: Option<IdText>,
    /// The members that are kept, or all where there are none.
    pub fields: Names,
}

/// By what an interface of a router is named.
#[derive(Clone, Copy, Debug, PartialEq, Eq)]
pub enum InterfaceBy {
    Subnet(Id),
    Port(Id),
}

/// A call of the Networking API.
pub enum Call {
    List {
        kind: Kind,
        query: Query,
    },
    Show {
        kind: Kind,
        name: IdText,
        fields: Names,
    },
    Create {
        form: Form,
    },
    Update {
        name: IdText,
        form: Form,
    },
    Delete {
        kind: Kind,
        name: IdText,
    },
    AddInterface {
        router: IdText,
        by: InterfaceBy,
    },
    RemoveInterface {
        router: IdText,
        by: InterfaceBy,
    },
}

impl Drop for Call {
    fn drop(self) {
        match self {
            Call::List { kind: _, query: _ } => {}
            Call::Show {
                kind: _,
                name: _,
                fields: _,
            } => {}
            Call::Create { form: _ } => {}
            Call::Update { name: _, form: _ } => {}
            Call::Delete { kind: _, name: _ } => {}
            Call::AddInterface { router: _, by: _ } => {}
            Call::RemoveInterface { router: _, by: _ } => {}
        }
    }
}
