//! Names of hosts and physical networks.

ghost use Rattle.std.specs.Prelude.{◌≡◌, IfOk, map};
ghost use Rattle.std.specs.List.{list_all};
ghost use Rattle.net_settings.specs.Names.{is_name_byte, is_name, are_different};

use net_addr::{OutOfMemory, Text};
use std::alloc::Global;
use std::collections::BTreeSet;

/// What has a name.
pub(crate) trait Named {
    ghost use Rattle.std.specs.Prelude.{List, ℕ};

    ghost name_of: { Self → List ℕ };

    fn name(&self) -> &str
        ensures { result.now ≡ name_of self.now };
}

impl Named for Text {
    ghost name_of = { λ t. t };

    fn name(&self) -> &str {
        self.as_str()
    }
}

// A letter or a digit of ASCII, `-`, `_` or `.`.
fn is_name_byte(byte: u8) -> bool
    ensures { result ≡ is_name_byte byte }
{
    byte.is_ascii_alphanumeric() || byte == b'-' || byte == b'_' || byte == b'.'
}

fn are_name_bytes(text: &str) -> bool
    ensures { result ≡ list_all is_name_byte text.now }
{
    text.as_bytes().iter().all(|b| is_name_byte(*b))
}

/// Whether a text is a name of at most this many characters.
pub(crate) fn is_name(text: &str, most: usize) -> bool
    ensures { result ≡ is_name most text.now }
{
    if text.is_empty() || text.len() > most {
        return false;
    }
    are_name_bytes(text)
}

/// Whether all are names of at most this many characters.
pub(crate) fn are_names(texts: &[Text], most: usize) -> bool
    ensures { result ≡ list_all (is_name most) texts.now }
{
    texts.iter().all(|text| is_name(text.as_str(), most))
}

/// Whether no two have the same name. Its cost grows as n log n with their number.
pub(crate) fn are_different<T: Named>(alloc: Global, items: &[T]) -> Result<bool, OutOfMemory>
    ensures { IfOk result (λ r. r ≡ are_different (map T.name_of items.now)) }
{
    let names: BTreeSet<&str> = items.iter().map(|item| item.name()).collect(alloc)?;
    Ok(names.len() == items.len())
}
