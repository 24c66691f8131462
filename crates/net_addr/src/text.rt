//! Texts and bytes, seen as lists.

ghost use Rattle.std.specs.Prelude.{◌≡◌, ◌↔◌, [], IfOk, IsTrue, string_bytes, length};

use crate::equal::{Copies, Same};
use crate::memory::OutOfMemory;
use arrayvec::ArrayString;
use std::alloc::{AllocError, Global};
use std::hash::{Hash, Hasher};
use std::marker::Model;

// Texts of at most this many bytes take no memory of their own: ids, addresses, most names.
const INLINE: usize = 40;

// Where the bytes of a text are kept.
#[derive(Debug, Drop)]
enum Place {
    Inline(ArrayString<INLINE>),
    Apart(String),
}

/// A text. Contracts see it as the list of its bytes in UTF-8. One of at most 40 bytes takes no
/// memory of its own, as a rule.
#[derive(Debug)]
pub struct Text {
    place: Place,
}

impl Model for Text {
    ghost use Rattle.std.specs.Prelude.{List, ℕ};
    ghost use Rattle.net_addr.specs.Texts.{bytes_at};

    ghost Value = { List ℕ };

    ghost view = { λ t. bytes_at t.place };
}

// One call in place of two ways at each exit of a function that owns texts.
impl Drop for Text {
    fn drop(self) {
        let Text { place: _ } = self;
    }
}

impl Text {
    /// The empty text.
    pub fn new(_alloc: Global) -> Text
        ensures { result ≡ [] }
    {
        Text {
            place: Place::Inline(ArrayString::new()),
        }
    }

    /// A text of its own with these characters. It takes memory for more than 40 bytes.
    pub fn of(alloc: Global, text: &str) -> Result<Text, OutOfMemory>
        ensures { IfOk result (λ t. t ≡ text.now) }
    {
        let place = match ArrayString::from(text) {
            Ok(short) => Place::Inline(short),
            Err(_) => Place::Apart(String::from_str(alloc, text)?),
        };
        Ok(Text { place })
    }

    /// The text of a `String`.
    pub fn from_string(text: String) -> Text
        ensures { result ≡ string_bytes text }
    {
        Text {
            place: Place::Apart(text),
        }
    }

    /// The characters.
    pub fn as_str(&self) -> &str
        ensures { result.now ≡ self.now }
    {
        match &self.place {
            Place::Inline(text) => text.as_str(),
            Place::Apart(text) => text.as_str(),
        }
    }

    /// How many bytes there are.
    pub fn len(&self) -> usize
        ensures { result ≡ length self.now }
    {
        self.as_str().len()
    }

    /// Whether there are none.
    pub fn is_empty(&self) -> bool
        ensures { IsTrue result ↔ (self.now ≡ []) }
    {
        self.as_str().is_empty()
    }
}

impl Copies for Text {
    fn copy(&self, alloc: Global) -> Result<Text, OutOfMemory> {
        Text::of(alloc, self.as_str())
    }
}

impl Same for Text {
    fn is_same(&self, other: &Text) -> bool {
        self.as_str() == other.as_str()
    }
}

impl PartialEq for Text {
    ghost use Rattle.std.specs.Str.{bytes_eq};
    ghost use Rattle.std.specs.Cmp.Rules.{comparing};
    ghost use Rattle.std.proofs.Common.{rules};

    ghost eq = { bytes_eq };

    ghost laws = { Prim.search (comparing, rules) };

    fn eq(&self, other: &Text) -> bool {
        self.as_str() == other.as_str()
    }
}

impl Eq for Text {
    ghost use Rattle.std.specs.Cmp.Rules.{comparing};
    ghost use Rattle.std.proofs.Common.{rules};

    ghost laws = { Prim.search (comparing, rules) };
}

impl Hash for Text {
    ghost use Rattle.std.specs.Cmp.Rules.{hashing};
    ghost use Rattle.std.specs.Hash as fed;
    ghost use Rattle.std.proofs.Common.{rules};

    ghost hash_input = { fed.str };

    ghost respects_eq = { Prim.search (hashing, rules) };

    fn hash<H: Hasher>(&self, state: &mut H) {
        self.as_str().hash(state);
    }
}

impl Clone for Text {
    ghost is_clone = { λ text copied. copied ≡ text };

    fn clone(&self) -> Result<Text, AllocError> {
        let place = match &self.place {
            Place::Inline(text) => Place::Inline(text.clone()?),
            Place::Apart(text) => Place::Apart(text.clone()?),
        };
        Ok(Text { place })
    }
}

/// Bytes. Contracts see them as a list.
#[derive(Debug, Drop)]
pub struct Bytes {
    inner: Vec<u8>,
}

impl Model for Bytes {
    ghost use Rattle.std.specs.Prelude.{List, ℕ};

    ghost Value = { List ℕ };

    ghost view = { λ b. b.inner.items };
}

impl Bytes {
    /// The bytes of a `Vec`.
    pub fn from_vec(inner: Vec<u8>) -> Bytes
        ensures { result ≡ inner.items }
    {
        Bytes { inner }
    }

    /// The bytes as a `Vec`.
    pub fn into_vec(self) -> Vec<u8>
        ensures { result.items ≡ self }
    {
        self.inner
    }

    /// The bytes.
    pub fn as_slice(&self) -> &[u8]
        ensures { result.now ≡ self.now }
    {
        self.inner.as_slice()
    }
}
