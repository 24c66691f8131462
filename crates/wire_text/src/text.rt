//! Changes and rows as texts.
ghost use Rattle.std.specs.Prelude.{◌≡◌, IfErr, IfOk, IsUtf8, List, None, Some};
ghost use Rattle.serde_json.specs.Read.{read};
ghost use Rattle.serde_json.specs.View.{view};
ghost use Rattle.serde_json.specs.Written.{compact_text};
ghost use Rattle.api_types.specs.declared.change.Item.{Item};
ghost use Rattle.api_types.specs.declared.page.PageRow.{PageRow};
ghost use Rattle.json_trees.specs.Printed.{tree_data};
ghost use Rattle.wire_text.specs.Reading.{HasText, IsReadBack};
ghost use Rattle.wire_text.specs.Texts.{IsChangeText, IsRowsText, change_text, rows_text};
ghost use Rattle.wire_text.specs.declared.refusal.TextRefusal.TheVariants.{BadText};

use crate::refusal::TextRefusal;
use crate::value::{FromJson, ToJson};
use api_types::{Change, PageRows};
use net_addr::{Bytes, OutOfMemory};
use serde_json::Value;
use std::alloc::Global;

/// The text of a value, in UTF-8. Its cost grows with the text.
pub fn write_text<T: ToJson>(alloc: Global, value: &T) -> Result<Bytes, OutOfMemory>
    ensures text { IfOk result (λ b. b ≡ compact_text (tree_data (T.tree value.now))) }
    ensures utf8 { IfOk result IsUtf8 }
{
    let text = value.to_json(alloc)?.to_string(alloc)?;
    Ok(Bytes::from_vec(text.into_bytes()))
}

/// The value that a text spells as JSON (RFC 8259), in any spelling.
pub fn parse(alloc: Global, text: &[u8]) -> Result<Value, TextRefusal>
    ensures ok { IfOk result (λ v. IsUtf8 text.now × (read text.now ≡ Some (view v))) }
    ensures bad { IfErr result (λ e. e ≡ BadText → IsUtf8 text.now → read text.now ≡ None) }
{
    match Value::from_slice(alloc, text) {
        Ok(value) => Ok(value),
        Err(e) => {
            if e.is_memory() {
                return Err(TextRefusal::OutOfMemory);
            }
            Err(TextRefusal::BadText)
        }
    }
}

/// What has this text, which spells a value: what the value is read as, if that is written so
/// again. `BadText` exactly if nothing is written so.
pub fn read_as<T: FromJson>(alloc: Global, value: &Value, text: &[u8]) -> Result<T, TextRefusal>
    requires { read text.now ≡ Some (view value.now) }
    ensures ok { IfOk result (λ x. T.fits x × HasText (T.tree x) text.now) }
    ensures bad { IfErr result (λ e. e ≡ BadText → (x : T) → T.fits x
        → IsReadBack (T.tree x) → HasText (T.tree x) text.now → ⊥) }
{
    let found = T::from_json(alloc, value)?;
    let again = write_text(alloc, &found)?;
    if again.as_slice() != text {
        return Err(TextRefusal::BadText);
    }
    Ok(found)
}

/// What has this text.
fn read_text<T: FromJson>(alloc: Global, text: &[u8]) -> Result<T, TextRefusal>
    ensures ok { IfOk result (λ x. T.fits x × IsUtf8 text.now × HasText (T.tree x) text.now) }
    ensures bad { IfErr result (λ e. e ≡ BadText → IsUtf8 text.now → (x : T) → T.fits x
        → IsReadBack (T.tree x) → HasText (T.tree x) text.now → ⊥) }
{
    let value = parse(alloc, text)?;
    read_as(alloc, &value, text)
}

/// The text of a change. Its cost grows with the change.
pub fn write_change(alloc: Global, change: &Change) -> Result<Bytes, OutOfMemory>
    ensures text { IfOk result (λ b. b ≡ change_text change.now) }
    ensures utf8 { IfOk result IsUtf8 }
{
    write_text(alloc, change)
}

/// The change whose text this is. `BadText` exactly if no change is written so. Its cost grows with
/// the text.
pub fn read_change(alloc: Global, text: &[u8]) -> Result<Change, TextRefusal>
    ensures ok { IfOk result (λ c. IsChangeText text.now c) }
    ensures bad { IfErr result
        (λ e. e ≡ BadText → (c : List Item) → IsChangeText text.now c → ⊥) }
{
    read_text(alloc, text)
}

/// The text of rows. Its cost grows with the rows.
pub fn write_rows(alloc: Global, rows: &PageRows) -> Result<Bytes, OutOfMemory>
    ensures text { IfOk result (λ b. b ≡ rows_text rows.now) }
    ensures utf8 { IfOk result IsUtf8 }
{
    write_text(alloc, rows)
}

/// The rows whose text this is. `BadText` exactly if no rows are written so. Its cost grows with the
/// text.
pub fn read_rows(alloc: Global, text: &[u8]) -> Result<PageRows, TextRefusal>
    ensures ok { IfOk result (λ rows. IsRowsText text.now rows) }
    ensures bad { IfErr result
        (λ e. e ≡ BadText → (rows : List PageRow) → IsRowsText text.now rows → ⊥) }
{
    read_text(alloc, text)
}
