//! Lists of texts in TOML.

ghost use Rattle.std.specs.Prelude.{◌≡◌, IfOk, map, option_map};
ghost use Rattle.toml.specs.Data.{get_member};
ghost use Rattle.toml.specs.View.{view, table_view};
ghost use Rattle.net_settings.specs.Texts.{values_of, texts_among, texts_of};

use net_addr::{Names, OutOfMemory, Text};
use std::alloc::Global;
use toml::{Table, Value};

/// The value at a key of a table.
pub(crate) fn value_at<'a>(table: &'a Table, key: &str) -> Option<&'a Value>
    ensures { option_map (λ v. view v.now) result ≡ get_member key.now (table_view table.now) }
{
    table.get(key)
}

/// The values of a list.
pub(crate) fn values_of<'a>(value: &'a Value) -> Option<&'a [Value]>
    ensures { option_map (λ s. map view s.now) result ≡ values_of (view value.now) }
{
    match value.as_array() {
        None => None,
        Some(items) => Some(items.as_slice()),
    }
}

// The texts, if all values are strings.
fn texts_among(alloc: Global, items: &[Value]) -> Result<Option<Names>, OutOfMemory>
    ensures { IfOk result (λ r. r ≡ texts_among (map view items.now)) }
{
    let mut texts = Names::new(alloc);
    for item in items {
        let Some(text) = item.as_str() else {
            return Ok(None);
        };
        texts.push(Text::of(alloc, text)?)?;
    }
    Ok(Some(texts))
}

/// The texts of a list of strings.
pub(crate) fn read_texts(alloc: Global, value: &Value) -> Result<Option<Names>, OutOfMemory>
    ensures { IfOk result (λ r. r ≡ texts_of (view value.now)) }
{
    match values_of(value) {
        None => Ok(None),
        Some(items) => texts_among(alloc, items),
    }
}
