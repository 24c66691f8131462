//! What has a value of JSON, and is read back from it.
ghost use Rattle.std.specs.Prelude.{◌≡◌, ◌∷◌, [], IfOk, OnOk, Some};
ghost use Rattle.serde_json.specs.Find.{get};
ghost use Rattle.serde_json.specs.View.{members_view, view};
ghost use Rattle.json_trees.specs.Printed.{members_data, tree_data};
ghost use Rattle.wire_text.specs.Reading.{Reads};

use crate::refusal::TextRefusal;
use net_addr::OutOfMemory;
use serde_json::{Map, Value};
use std::alloc::Global;

/// What has exactly one value of JSON.
pub trait ToJson {
    ghost use Rattle.api_types.specs.Printed.{Tree};

    ghost tree: { Self → Tree };

    /// The value as JSON. Its cost grows with what is written.
    fn to_json(&self, alloc: Global) -> Result<Value, OutOfMemory>
        ensures { IfOk result (λ v. view v ≡ tree_data (tree self.now)) };
}

/// What is read back from its value of JSON.
pub trait FromJson: ToJson + Drop {
    ghost fits: { Self → Type 0 };

    /// What has this value of JSON, if anything has. From another value it may give anything. Its
    /// cost grows with the value.
    fn from_json(alloc: Global, value: &Value) -> Result<Self, TextRefusal>
        ensures reads { (x : Self) → fits x → view value.now ≡ tree_data (Self.tree x) → Reads x result }
        ensures fits { IfOk result fits };
}

/// What has another value than null.
pub trait NotNull: FromJson {
    ghost use Rattle.wire_text.specs.Reading.{IsNotNull};

    ghost not_null: { (x : Self) → IsNotNull (Self.tree x) };
}

/// Adds a member to an object.
pub fn put<T: ToJson>(
    map: &mut Map<String, Value>,
    alloc: Global,
    name: &str,
    value: &T,
) -> Result<(), OutOfMemory>
    ensures { OnOk result
        (members_view map.new.entries
        ≡ members_data ((name.now, T.tree value.now) ∷ []) (members_view map.old.entries)) }
{
    let value = value.to_json(alloc)?;
    serde_json::put(map, alloc, name, value)?;
    Ok(())
}

/// What the member of an object with this name is the value of.
pub fn read_member<T: FromJson>(alloc: Global, object: &Value, name: &str) -> Result<T, TextRefusal>
    ensures reads { (x : T) → T.fits x →
        get name.now (view object.now) ≡ Some (tree_data (T.tree x)) → Reads x result }
    ensures fits { IfOk result T.fits }
{
    match object.get(name) {
        Some(value) => T::from_json(alloc, value),
        None => Err(TextRefusal::BadText),
    }
}
