//! Lists of items.
ghost use Rattle.std.specs.Prelude.{◌≡◌, IfOk, map, option_map};
ghost use Rattle.std.specs.List.{list_all};
ghost use Rattle.serde_json.specs.Find.{as_array};
ghost use Rattle.serde_json.specs.View.{view, items_view};
ghost use Rattle.net_addr.specs.Spans.{are_apart};
ghost use Rattle.json_values.specs.Values.{values_of, all_said, list_of, pairwise};
ghost use Rattle.json_values.specs.Items.{other_id, other_hop};

use crate::item::Item;
use api_types::{Hop, Id};
use net_addr::{OutOfMemory, Seq, Span};
use serde_json::Value;
use std::alloc::Global;

// What each value says, where each says something.
fn all_said<T: Item>(alloc: Global, values: &[Value]) -> Result<Option<Seq<T>>, OutOfMemory>
    ensures { IfOk result (λ o. o ≡ all_said T.says (map view values.now)) }
{
    let mut items = Seq::new(alloc);
    for value in values {
        let Some(item) = T::read(value) else {
            return Ok(None);
        };
        items.push(item)?;
    }
    Ok(Some(items))
}

// The values of an array.
fn values_of(value: &Value) -> Option<&[Value]>
    ensures { option_map (λ s. map view s.now) result
        ≡ option_map values_of (as_array (view value.now)) }
{
    match value.as_array() {
        None => None,
        Some(values) => Some(values.as_slice()),
    }
}

/// An array of at most this many items, or None where it isn't one.
pub(crate) fn list_of<T: Item>(
    alloc: Global,
    value: &Value,
    most: usize,
) -> Result<Option<Seq<T>>, OutOfMemory>
    ensures { IfOk result (λ o. o ≡ list_of most T.says (view value.now)) }
{
    let Some(values) = values_of(value) else {
        return Ok(None);
    };
    let Some(items) = all_said(alloc, values)? else {
        return Ok(None);
    };
    if items.len() <= most {
        Ok(Some(items))
    } else {
        Ok(None)
    }
}

/// An item that may be beside some others and not beside the rest.
pub(crate) trait Beside {
    ghost use Rattle.std.specs.Prelude.{Bool};

    ghost goes: { Self → Self → Bool };

    /// Whether the two may be in one list.
    fn goes_beside(&self, other: &Self) -> bool
        ensures { result ≡ goes self.now other.now };
}

impl Beside for Span {
    ghost goes = { are_apart };

    fn goes_beside(&self, other: &Span) -> bool {
        self.is_apart(*other)
    }
}

impl Beside for Id {
    ghost goes = { other_id };

    fn goes_beside(&self, other: &Id) -> bool {
        *self != *other
    }
}

impl Beside for Hop {
    ghost goes = { other_hop };

    fn goes_beside(&self, other: &Hop) -> bool {
        *self != *other
    }
}

// Whether an item may be beside each of some.
fn goes_with<T: Beside>(item: &T, others: &[T]) -> bool
    ensures { result ≡ list_all (T.goes item.now) others.now }
{
    for other in others {
        if !item.goes_beside(other) {
            return false;
        }
    }
    true
}

/// Whether each two items may be in one list. The cost grows with the square of their number.
pub(crate) fn is_pairwise<T: Beside>(items: &[T]) -> bool
    ensures { result ≡ pairwise T.goes items.now }
{
    for at in 0..items.len() {
        if !goes_with(&items[at], &items[at + 1..]) {
            return false;
        }
    }
    true
}
