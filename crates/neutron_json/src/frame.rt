//! The JSON of a body, and the frame that it has.
ghost use Rattle.std.specs.Prelude.{◌≡◌, IfOk, option_map};
ghost use Rattle.serde_json.specs.Find.{as_object};
ghost use Rattle.serde_json.specs.View.{view};
ghost use Rattle.neutron_json.specs.Bodies.{json_of, is_single, as_whole, framed};

use net_addr::OutOfMemory;
use serde_json::Value;
use std::alloc::Global;

/// The JSON that a body spells, or None where it spells none. The cost grows with the body.
pub(crate) fn json_of(alloc: Global, body: &[u8]) -> Result<Option<Value>, OutOfMemory>
    ensures { IfOk result (λ o. option_map view o ≡ json_of body.now) }
{
    match Value::from_slice(alloc, body) {
        Ok(value) => Ok(Some(value)),
        Err(e) => {
            if e.is_memory() {
                return Err(OutOfMemory);
            }
            Ok(None)
        }
    }
}

// Whether a value is an object with one member.
fn is_single(value: &Value) -> bool
    ensures { result ≡ is_single (as_object (view value.now)) }
{
    match value.as_object() {
        None => false,
        Some(object) => object.len() == 1,
    }
}

/// A value that is an object.
pub(crate) fn as_whole(value: &Value) -> Option<&Value>
    ensures { option_map (λ v. view v.now) result ≡ as_whole (view value.now) }
{
    match value.as_object() {
        None => None,
        Some(_) => Some(value),
    }
}

/// The object under the one member of an object, which has this name.
pub(crate) fn framed<'v>(value: &'v Value, name: &str) -> Option<&'v Value>
    ensures { option_map (λ v. view v.now) result ≡ framed name.now (view value.now) }
{
    if !is_single(value) {
        return None;
    }
    as_whole(value.get(name)?)
}
