//! The members of objects.
ghost use Rattle.std.specs.Prelude.{◌≡◌, map};
ghost use Rattle.serde_json.specs.Find.{as_object};
ghost use Rattle.serde_json.specs.View.{view, members_view};
ghost use Rattle.json_values.specs.Values.{is_among, has_only, is_only};
ghost use Rattle.json_values.specs.Grammars.{is_empty_object};

use serde_json::{Map, Value};

// Whether a name is one of some.
fn is_among(names: &[&str], name: &str) -> bool
    ensures { result ≡ is_among (map (λ s. s.now) names.now) name.now }
{
    for known in names {
        if name == *known {
            return true;
        }
    }
    false
}

// Whether each member has one of these names.
fn has_only(object: &Map<String, Value>, names: &[&str]) -> bool
    ensures { result ≡ has_only (map (λ s. s.now) names.now) (members_view object.now.entries) }
{
    for (name, _value) in object {
        if !is_among(names, name.as_str()) {
            return false;
        }
    }
    true
}

/// Whether a value is an object without other members than those of these names.
pub(crate) fn is_object_of(value: &Value, names: &[&str]) -> bool
    ensures { result ≡ is_only (map (λ s. s.now) names.now) (as_object (view value.now)) }
{
    match value.as_object() {
        None => false,
        Some(object) => has_only(object, names),
    }
}

/// Whether a value is an object without members.
pub(crate) fn is_empty_object(value: &Value) -> bool
    ensures { result ≡ is_empty_object (view value.now) }
{
    match value.as_object() {
        None => false,
        Some(object) => object.len() == 0,
    }
}
