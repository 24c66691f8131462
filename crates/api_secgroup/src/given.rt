//! What the attributes of a rule's body give.

ghost use Rattle.std.specs.Prelude.{◌≡◌};
ghost use Rattle.api_types.specs.Given as given_specs;

use api_types::Given;

/// The value that is given, if it is one.
pub(crate) fn value_of<T: Copy>(given: &Given<T>) -> Option<T>
    ensures { result ≡ given_specs.value_of given.now }
{
    match given {
        Given::Is(value) => Some(*value),
        _ => None,
    }
}

/// The value that is given, or this one.
pub(crate) fn value_or<T: Copy>(value: T, given: &Given<T>) -> T
    ensures { result ≡ given_specs.value_or value given.now }
{
    match given {
        Given::Is(given) => *given,
        _ => value,
    }
}
