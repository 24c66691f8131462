//! Ids: UUIDs of version 8 with a project's ordinal and a count.

ghost use Rattle.std.specs.Prelude.{◌≡◌, ◌<◌, ◌^◌, ℕ, IfOk, IfNone, IfSome};
ghost use Rattle.api_types.specs.Ident.{Ident, ident_text, uuid_bytes, IsDrawable, Spells};

use net_addr::{Copies, OutOfMemory, Same, Text};
use std::alloc::Global;
use std::marker::Model;
use uuid::Uuid;

/// The id of a row, a UUID of version 8 and variant 10 (RFC 9562). It says for which project it
/// was drawn, by that project's ordinal, and as which of that project's ids, by a count.
#[derive(Clone, Copy, Debug, PartialEq, Eq, PartialOrd, Ord, Hash)]
pub struct Id {
    ordinal: u32,
    count: u64,
}

impl Model for Id {
    ghost use Rattle.std.specs.Prelude.{◌<◌, ◌^◌};
    ghost use Rattle.api_types.specs.Ident.{Ident};

    ghost Value = { Ident };

    ghost view = { λ i. record { ordinal = i.ordinal; count = i.count } };

    ghost invariant = { λ i. i.count < 2 ^ 62 };

    ghost inverse = { λ v. record { ordinal = v.ordinal; count = v.count } };
}

impl Id {
    /// The id with this ordinal and this count, which is below 2^62. A count of 0 names the project
    /// itself.
    pub fn make(ordinal: u32, count: u64) -> Id
        requires { count < 2 ^ 62 }
        ensures { result ≡ record { ordinal = ordinal; count = count } }
    {
        Id { ordinal, count }
    }

    /// The ordinal of the project that the id was drawn for.
    pub fn ordinal(self) -> u32
        ensures { result ≡ self.ordinal }
    {
        self.ordinal
    }

    /// As which of its project's ids it was drawn, from 1 on; 0 of a project's own id.
    pub fn count(self) -> u64
        ensures { result ≡ self.count }
    {
        self.count
    }

    /// Its sixteen bytes.
    pub fn uuid(self) -> Uuid
        ensures { result ≡ uuid_bytes self }
    {
        let high = self.ordinal as u64 * 0x1_0000_0000 + 0x8000;
        let low = 0x8000_0000_0000_0000 + self.count;
        Uuid::from_u64_pair(high, low)
    }

    /// The hyphenated form in lower case, 36 characters.
    pub fn print(self, alloc: Global) -> Result<Text, OutOfMemory>
        ensures text { IfOk result (λ t. t ≡ ident_text self) }
        ensures reads_back { IsDrawable self → IfOk result (λ t. Spells t self) }
    {
        let mut buffer = Uuid::encode_buffer();
        let text = self.uuid().hyphenated().encode_lower(&mut buffer);
        Text::of(alloc, text)
    }

    /// The id that a text spells in the hyphenated form, with letters in either case. A UUID that
    /// no ordinal and count from 1 on give is no id.
    pub fn read(text: &[u8]) -> Option<Id>
        ensures found { IfSome result (Spells text.now) }
        ensures none { IfNone result ((i : Ident) → ¬ Spells text.now i) }
    {
        if text.len() != 36 {
            return None;
        }
        let Ok(uuid) = Uuid::try_parse_ascii(text) else {
            return None;
        };
        let (high, low) = uuid.as_u64_pair();
        let id = Id {
            ordinal: (high / 0x1_0000_0000) as u32,
            count: low % 0x4000_0000_0000_0000,
        };
        if id.ordinal == 0 || id.count == 0 {
            return None;
        }
        if id.uuid() == uuid { Some(id) } else { None }
    }
}

impl Copies for Id {
    fn copy(&self, _alloc: Global) -> Result<Id, OutOfMemory> {
        Ok(*self)
    }
}

impl Same for Id {
    fn is_same(&self, other: &Id) -> bool {
        *self == *other
    }
}
