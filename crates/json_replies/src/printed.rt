//! Printed values as JSON.
ghost use Rattle.std.specs.Prelude.{◌≡◌, IfOk, map};
ghost use Rattle.serde_json.specs.Data.{no_members};
ghost use Rattle.serde_json.specs.View.{view, members_view};
ghost use Rattle.api_types.specs.Printed.{tree_of, member_of};
ghost use Rattle.json_trees.specs.Printed.{tree_data, members_data, list, or_null};

use api_types::{MemberName, Ordered, Printed};
use net_addr::{OutOfMemory, Seq};
use plane_types::Ascending;
use serde_json::{Map, Value};
use std::alloc::Global;

/// What is printed as JSON.
pub(crate) trait Prints {
    ghost use Rattle.api_types.specs.Printed.{Tree};

    ghost tree: { Self → Tree };

    /// The value as JSON. Its cost grows with what is printed.
    fn value(&self, alloc: Global) -> Result<Value, OutOfMemory>
        ensures { IfOk result (λ v. view v ≡ tree_data (tree self.now)) };
}

#[cycle(json)]
fn value_of(alloc: Global, printed: &Printed) -> Result<Value, OutOfMemory>
    ensures { IfOk result (λ v. view v ≡ tree_data (tree_of printed.now)) }
{
    match printed {
        Printed::Null => Ok(Value::Null),
        Printed::Truth(b) => Ok(Value::Bool(*b)),
        Printed::Number(n) => Ok(Value::from(*n)),
        Printed::Constant(word) => word.value(alloc),
        Printed::Word(text) => text.value(alloc),
        Printed::Id(id) => id.value(alloc),
        Printed::Mac(mac) => mac.value(alloc),
        Printed::Address(address) => address.value(alloc),
        Printed::Prefix(prefix) => prefix.value(alloc),
        Printed::Items(items) => Ok(Value::Array(values_of(alloc, items.as_slice())?)),
        Printed::Object(members) => Ok(Value::Object(members_of(alloc, members.as_slice())?)),
    }
}

#[cycle(json)]
fn values_of(alloc: Global, items: &[Printed]) -> Result<Vec<Value>, OutOfMemory>
    ensures { IfOk result (λ v. map view v.items ≡ map (λ p. tree_data (tree_of p)) items.now) }
{
    let mut values = Vec::new(alloc);
    for item in items {
        values.push(value_of(alloc, item)?)?;
    }
    Ok(values)
}

/// The members of an object.
#[cycle(json)]
pub(crate) fn members_of(
    alloc: Global,
    members: &[(MemberName, Printed)],
) -> Result<Map<String, Value>, OutOfMemory>
    ensures { IfOk result
        (λ m. members_view m.entries ≡ members_data (map member_of members.now) no_members) }
{
    let mut map = Map::new(alloc);
    for (name, member) in members {
        let member = value_of(alloc, member)?;
        serde_json::put(&mut map, alloc, name.as_str(), member)?;
    }
    Ok(map)
}

// Values in a row.
fn values<T: Prints>(alloc: Global, items: &[T]) -> Result<Vec<Value>, OutOfMemory>
    ensures { IfOk result (λ v. map view v.items ≡ map (λ x. tree_data (T.tree x)) items.now) }
{
    let mut values = Vec::new(alloc);
    for item in items {
        values.push(item.value(alloc)?)?;
    }
    Ok(values)
}

impl<T: Prints> Prints for Seq<T> {
    ghost tree = { λ xs. list (map T.tree xs) };

    fn value(&self, alloc: Global) -> Result<Value, OutOfMemory> {
        Ok(Value::Array(values(alloc, self.as_slice())?))
    }
}

impl<T: Prints + Ordered> Prints for Ascending<T> {
    ghost tree = { λ xs. list (map T.tree xs) };

    fn value(&self, alloc: Global) -> Result<Value, OutOfMemory> {
        Ok(Value::Array(values(alloc, self.as_slice())?))
    }
}

impl<T: Prints> Prints for Option<T> {
    ghost tree = { or_null T.tree };

    fn value(&self, alloc: Global) -> Result<Value, OutOfMemory> {
        match self {
            None => Ok(Value::Null),
            Some(x) => x.value(alloc),
        }
    }
}
