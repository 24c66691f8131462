//! What a form gives: values, defaults, and the owner of a new row.

ghost use Rattle.std.specs.Prelude.{◌≡◌, IfOk};
ghost use Rattle.api_types.specs.Given.{owner_of};
ghost use Rattle.api_types.specs.Given as given_specs;

use api_types::{Caller, Given};
use net_addr::{Copies, OutOfMemory, Text};
use std::alloc::Global;

/// Whether an attribute stands in the body, with a value or null.
pub fn is_given<T>(given: &Given<T>) -> bool
    ensures { result ≡ given_specs.is_given given.now }
{
    match given {
        Given::Absent => false,
        Given::Null => true,
        Given::Is(_) => true,
    }
}

/// The value that is given, if one is.
pub fn value_of<T: Copy>(given: &Given<T>) -> Option<T>
    ensures { result ≡ given_specs.value_of given.now }
{
    match given {
        Given::Is(given) => Some(*given),
        _ => None,
    }
}

/// The value that is given, or this one.
pub fn value_or<T: Copy>(value: T, given: &Given<T>) -> T
    ensures { result ≡ given_specs.value_or value given.now }
{
    match given {
        Given::Is(given) => *given,
        _ => value,
    }
}

/// The text that is given, or a copy of this one.
pub fn text_or(alloc: Global, text: &Text, given: &Given<Text>) -> Result<Text, OutOfMemory>
    ensures { IfOk result (λ t. t ≡ given_specs.value_or text.now given.now) }
{
    match given {
        Given::Is(given) => given.copy(alloc),
        _ => text.copy(alloc),
    }
}

/// Whether both are given, and differ.
pub fn are_unlike(project: &Given<Text>, tenant: &Given<Text>) -> bool
    ensures { result ≡ given_specs.are_unlike project.now tenant.now }
{
    match (project, tenant) {
        (Given::Is(project), Given::Is(tenant)) => *project != *tenant,
        _ => false,
    }
}

fn is_other(caller: &Caller, given: &Given<Text>) -> bool
    ensures { result ≡ given_specs.is_other caller.now given.now }
{
    match given {
        Given::Is(name) => *name != caller.project,
        _ => false,
    }
}

/// Whether another project than the caller's is named.
pub fn is_for_other(caller: &Caller, project: &Given<Text>, tenant: &Given<Text>) -> bool
    ensures { result ≡ given_specs.is_for_other caller.now project.now tenant.now }
{
    is_other(caller, project) || is_other(caller, tenant)
}

/// The project that is to own a new row: the named one, or the caller's.
pub fn owner<'f>(caller: &'f Caller, project: &'f Given<Text>, tenant: &'f Given<Text>) -> &'f Text
    ensures { result.now ≡ owner_of caller.now project.now tenant.now }
{
    match (project, tenant) {
        (Given::Is(project), _) => project,
        (_, Given::Is(tenant)) => tenant,
        _ => &caller.project,
    }
}
