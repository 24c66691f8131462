//! Printed values, what is shown of rows, and answers to calls.

ghost use Rattle.std.specs.Prelude.{◌≡◌};

use crate::id::Id;
use crate::kind::Kind;
use net_addr::{Addr, Mac, Prefix, Seq, Text};
use std::marker::Model;

/// The name of a member, a word of the code. Contracts see it as the list of its bytes.
#[derive(Drop)]
pub struct MemberName(&'static str);

impl Model for MemberName {
    ghost use Rattle.std.specs.Prelude.{List, ℕ};

    ghost Value = { List ℕ };

    ghost view = { λ n. n.0.now };
}

impl MemberName {
    /// The name with these characters.
    pub fn of(name: &'static str) -> MemberName
        ensures { result ≡ name.now }
    {
        MemberName(name)
    }

    /// The characters.
    pub fn as_str(&self) -> &'static str
        ensures { result.now ≡ self.now }
    {
        self.0
    }
}

/// A value to print. What has a text of its own is that text only once it is written.
#[derive(Drop)]
pub enum Printed {
    Null,
    Truth(bool),
    Number(u64),
    /// One of a few words.
    Constant(&'static str),
    Word(Text),
    Id(Id),
    Mac(Mac),
    Address(Addr),
    Prefix(Prefix),
    Items(Vec<Printed>),
    /// Members in byte order of their names.
    Object(Vec<(MemberName, Printed)>),
}

/// Named values to print, in byte order of their names.
pub type Members = Seq<(MemberName, Printed)>;

/// What a caller is shown of a row.
#[derive(Drop)]
pub struct Shown {
    pub kind: Kind,
    pub members: Members,
}

/// What a caller is shown of rows, in order of creation.
pub type ShownList = Seq<Shown>;

/// The answer to an accepted call.
#[derive(Drop)]
pub enum Answer {
    /// A row as it stands: to a show or an update.
    One(Shown),
    /// Rows of this kind: to a list.
    Many { kind: Kind, rows: ShownList },
    /// A new row.
    Created(Shown),
    /// To a deletion.
    Gone,
    /// To an interface that was added or removed.
    Interface(Shown),
}
