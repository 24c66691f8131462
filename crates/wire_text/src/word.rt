//! Truth values, numbers, texts, ids and addresses.
ghost use Rattle.std.specs.Prelude.{◌≡◌, ◌<◌, ◌≤◌, ◌^◌, ℕ, IfOk, IsUtf8, OnErr, Some, ⊤};
ghost use Rattle.serde_json.specs.View.{view};
ghost use Rattle.net_addr.specs.Words.{Text};
ghost use Rattle.api_types.specs.Ident.{Ident, ident_text};
ghost use Rattle.api_types.specs.Printed.{number, truth, word};
ghost use Rattle.net_addr.specs.Addresses.{IsAddr};
ghost use Rattle.json_trees.specs.Words.{address_tree, four_tree, id_tree, mac_tree, prefix_tree};
ghost use Rattle.json_trees.specs.Printed.{tree_data};
ghost use Rattle.wire_text.specs.Reading.{Reads};
ghost use Rattle.wire_text.specs.Typed.{IsIdent, IsNet};

use crate::refusal::TextRefusal;
use crate::value::{FromJson, NotNull, ToJson};
use api_types::Id;
use net_addr::{Addr, Addr4, Cidr, Mac, OutOfMemory, Prefix, Text};
use serde_json::Value;
use std::alloc::Global;
use uuid::Uuid;

impl ToJson for bool {
    ghost tree = { truth };

    fn to_json(&self, _alloc: Global) -> Result<Value, OutOfMemory> {
        Ok(Value::Bool(*self))
    }
}

impl FromJson for bool {
    ghost fits = { λ b. ⊤ };

    fn from_json(_alloc: Global, value: &Value) -> Result<bool, TextRefusal> {
        match value.as_bool() {
            Some(truth) => Ok(truth),
            None => Err(TextRefusal::BadText),
        }
    }
}

/// A whole number up to the most.
fn read_number(value: &Value, most: u64) -> Result<u64, TextRefusal>
    ensures reads { (n : ℕ) → n ≤ most → view value.now ≡ tree_data (number n) → Reads n result }
    ensures fits { IfOk result (λ n. n ≤ most) }
{
    match value.as_u64() {
        Some(number) if number <= most => Ok(number),
        _ => Err(TextRefusal::BadText),
    }
}

impl ToJson for u8 {
    ghost tree = { number };

    fn to_json(&self, _alloc: Global) -> Result<Value, OutOfMemory> {
        Ok(Value::from(*self))
    }
}

impl FromJson for u8 {
    ghost fits = { λ n. n < 2 ^ 8 };

    fn from_json(_alloc: Global, value: &Value) -> Result<u8, TextRefusal> {
        Ok(read_number(value, 0xff)? as u8)
    }
}

impl NotNull for u8 {
    ghost not_null = { λ x. tt };
}

impl ToJson for u16 {
    ghost tree = { number };

    fn to_json(&self, _alloc: Global) -> Result<Value, OutOfMemory> {
        Ok(Value::from(*self))
    }
}

impl FromJson for u16 {
    ghost fits = { λ n. n < 2 ^ 16 };

    fn from_json(_alloc: Global, value: &Value) -> Result<u16, TextRefusal> {
        Ok(read_number(value, 0xffff)? as u16)
    }
}

impl NotNull for u16 {
    ghost not_null = { λ x. tt };
}

impl ToJson for u32 {
    ghost tree = { number };

    fn to_json(&self, _alloc: Global) -> Result<Value, OutOfMemory> {
        Ok(Value::from(*self))
    }
}

impl FromJson for u32 {
    ghost fits = { λ n. n < 2 ^ 32 };

    fn from_json(_alloc: Global, value: &Value) -> Result<u32, TextRefusal> {
        Ok(read_number(value, 0xffff_ffff)? as u32)
    }
}

impl ToJson for u64 {
    ghost tree = { number };

    fn to_json(&self, _alloc: Global) -> Result<Value, OutOfMemory> {
        Ok(Value::from(*self))
    }
}

impl FromJson for u64 {
    ghost fits = { λ n. n < 2 ^ 64 };

    fn from_json(_alloc: Global, value: &Value) -> Result<u64, TextRefusal> {
        read_number(value, u64::MAX)
    }
}

impl ToJson for usize {
    ghost tree = { number };

    fn to_json(&self, _alloc: Global) -> Result<Value, OutOfMemory> {
        Ok(Value::from(*self as u64))
    }
}

impl FromJson for usize {
    ghost fits = { λ n. n < 2 ^ 64 };

    fn from_json(_alloc: Global, value: &Value) -> Result<usize, TextRefusal> {
        Ok(read_number(value, u64::MAX)? as usize)
    }
}

/// The text of a value that is one.
pub(crate) fn read_word(value: &Value) -> Result<&str, TextRefusal>
    ensures ok { IfOk result (λ s. view value.now ≡ tree_data (word s.now)) }
    ensures err { OnErr result ((t : Text) → view value.now ≡ tree_data (word t) → ⊥) }
{
    match value.as_str() {
        Some(text) => Ok(text),
        None => Err(TextRefusal::BadText),
    }
}

impl ToJson for Text {
    ghost tree = { word };

    fn to_json(&self, alloc: Global) -> Result<Value, OutOfMemory> {
        Ok(Value::try_from_str(alloc, self.as_str())?)
    }
}

impl FromJson for Text {
    ghost fits = { IsUtf8 };

    fn from_json(alloc: Global, value: &Value) -> Result<Text, TextRefusal> {
        Ok(Text::of(alloc, read_word(value)?)?)
    }
}

impl NotNull for Text {
    ghost not_null = { λ x. tt };
}

impl ToJson for Id {
    ghost tree = { id_tree };

    fn to_json(&self, alloc: Global) -> Result<Value, OutOfMemory> {
        self.print(alloc)?.to_json(alloc)
    }
}

/// The id whose text this is; also one with ordinal or count 0, which no row has. Other UUIDs give
/// an id with another text.
fn read_id(text: &[u8]) -> Option<Id>
    ensures { (i : Ident) → IsIdent i → text.now ≡ ident_text i → result ≡ Some i }
{
    let Ok(uuid) = Uuid::try_parse_ascii(text) else {
        return None;
    };
    let (high, low) = uuid.as_u64_pair();
    Some(Id::make((high / 0x1_0000_0000) as u32, low % 0x4000_0000_0000_0000))
}

impl FromJson for Id {
    ghost fits = { IsIdent };

    fn from_json(_alloc: Global, value: &Value) -> Result<Id, TextRefusal> {
        match read_id(read_word(value)?.as_bytes()) {
            Some(id) => Ok(id),
            None => Err(TextRefusal::BadText),
        }
    }
}

impl NotNull for Id {
    ghost not_null = { λ x. tt };
}

impl ToJson for Addr {
    ghost tree = { address_tree };

    fn to_json(&self, alloc: Global) -> Result<Value, OutOfMemory> {
        self.print(alloc)?.to_json(alloc)
    }
}

impl FromJson for Addr {
    ghost fits = { IsAddr };

    fn from_json(_alloc: Global, value: &Value) -> Result<Addr, TextRefusal> {
        match Addr::read(read_word(value)?.as_bytes()) {
            Ok(address) => Ok(address),
            Err(_) => Err(TextRefusal::BadText),
        }
    }
}

impl NotNull for Addr {
    ghost not_null = { λ x. tt };
}

impl ToJson for Addr4 {
    ghost tree = { four_tree };

    fn to_json(&self, alloc: Global) -> Result<Value, OutOfMemory> {
        self.print(alloc)?.to_json(alloc)
    }
}

impl FromJson for Addr4 {
    ghost fits = { λ n. n < 2 ^ 32 };

    fn from_json(_alloc: Global, value: &Value) -> Result<Addr4, TextRefusal> {
        match Addr4::read(read_word(value)?.as_bytes()) {
            Ok(address) => Ok(address),
            Err(_) => Err(TextRefusal::BadText),
        }
    }
}

impl ToJson for Mac {
    ghost tree = { mac_tree };

    fn to_json(&self, alloc: Global) -> Result<Value, OutOfMemory> {
        self.print(alloc)?.to_json(alloc)
    }
}

impl FromJson for Mac {
    ghost fits = { λ n. n < 2 ^ 48 };

    fn from_json(_alloc: Global, value: &Value) -> Result<Mac, TextRefusal> {
        match Mac::read(read_word(value)?.as_bytes()) {
            Ok(mac) => Ok(mac),
            Err(_) => Err(TextRefusal::BadText),
        }
    }
}

impl ToJson for Prefix {
    ghost tree = { prefix_tree };

    fn to_json(&self, alloc: Global) -> Result<Value, OutOfMemory> {
        self.print(alloc)?.to_json(alloc)
    }
}

impl FromJson for Prefix {
    ghost fits = { IsNet };

    fn from_json(_alloc: Global, value: &Value) -> Result<Prefix, TextRefusal> {
        match Cidr::read(read_word(value)?.as_bytes()) {
            Ok(cidr) => Ok(cidr.prefix()),
            Err(_) => Err(TextRefusal::BadText),
        }
    }
}

impl NotNull for Prefix {
    ghost not_null = { λ x. tt };
}
