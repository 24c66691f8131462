//! Lists, and what may be null.
ghost use Rattle.std.specs.Prelude.{◌≡◌, IfOk, IfSome, List, map};
ghost use Rattle.serde_json.specs.View.{view};
ghost use Rattle.api_types.specs.Lists.{Each};
ghost use Rattle.json_trees.specs.Printed.{list, or_null, tree_data};
ghost use Rattle.wire_text.specs.Reading.{Reads};

use crate::refusal::TextRefusal;
use crate::value::{FromJson, NotNull, ToJson};
use net_addr::{OutOfMemory, Seq};
use serde_json::Value;
use std::alloc::Global;

fn write_all<T: ToJson>(alloc: Global, items: &[T]) -> Result<Vec<Value>, OutOfMemory>
    ensures { IfOk result (λ v. map view v.items ≡ map (λ x. tree_data (T.tree x)) items.now) }
{
    let mut values = Vec::new(alloc);
    for item in items {
        values.push(item.to_json(alloc)?)?;
    }
    Ok(values)
}

fn read_all<T: FromJson>(alloc: Global, values: &[Value]) -> Result<Seq<T>, TextRefusal>
    ensures reads { (xs : List T) → Each T.fits xs →
        map view values.now ≡ map (λ x. tree_data (T.tree x)) xs → Reads xs result }
    ensures fits { IfOk result (Each T.fits) }
{
    let mut items = Seq::new(alloc);
    for value in values {
        items.push(T::from_json(alloc, value)?)?;
    }
    Ok(items)
}

impl<T: ToJson> ToJson for Seq<T> {
    ghost tree = { λ xs. list (map T.tree xs) };

    fn to_json(&self, alloc: Global) -> Result<Value, OutOfMemory> {
        Ok(Value::Array(write_all(alloc, self.as_slice())?))
    }
}

impl<T: FromJson> FromJson for Seq<T> {
    ghost fits = { Each T.fits };

    fn from_json(alloc: Global, value: &Value) -> Result<Seq<T>, TextRefusal> {
        match value.as_array() {
            Some(values) => read_all(alloc, values.as_slice()),
            None => Err(TextRefusal::BadText),
        }
    }
}

impl<T: ToJson> ToJson for Option<T> {
    ghost tree = { or_null T.tree };

    fn to_json(&self, alloc: Global) -> Result<Value, OutOfMemory> {
        match self {
            None => Ok(Value::Null),
            Some(value) => value.to_json(alloc),
        }
    }
}

impl<T: NotNull> FromJson for Option<T> {
    ghost fits = { λ o. IfSome o T.fits };

    fn from_json(alloc: Global, value: &Value) -> Result<Option<T>, TextRefusal> {
        if value.is_null() {
            return Ok(None);
        }
        Ok(Some(T::from_json(alloc, value)?))
    }
}
