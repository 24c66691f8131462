//! The id that filters ask for.

ghost use Rattle.std.specs.Prelude.{◌≡◌, IfSome, false, find, option_copied};
ghost use Rattle.std.specs.List.{count_by};
ghost use Rattle.api_types.specs.Ident.{Ident, IsDrawable, ident_text};
ghost use Rattle.api_policy.specs.Trees.{id_word};
ghost use Rattle.api_shown.specs.Asked.{asked_under};
ghost use Rattle.api_shown.specs.Asked as asked_specs;
ghost use Rattle.api_shown.specs.Keys.{FitsId, is_under};
ghost use Rattle.api_shown.specs.Keys as keys;

use api_types::{Filter, Id};
use net_addr::Text;

// The id whose printed text the value is.
fn read_printed(value: &Text) -> Option<Id>
    ensures drawable { IfSome result IsDrawable }
    ensures text { IfSome result (λ asked. value.now ≡ ident_text asked) }
{
    let id = Id::read(value.as_str().as_bytes())?;
    if id.is_printed(value) { Some(id) } else { None }
}

fn count_under(filters: &[Filter], name: &Text) -> usize
    ensures { result ≡ count_by (is_under name.now) filters.now }
{
    filters.iter().filter(|filter| *name == filter.name).count()
}

fn find_under<'q>(filters: &'q [Filter], name: &Text) -> Option<&'q Filter>
    ensures { option_copied result ≡ find (is_under name.now) filters.now }
{
    filters.iter().find(|filter| *name == filter.name)
}

/// The id that alone the filters with this name may ask for, if there is one such filter and its
/// value is an id's printed text.
pub(crate) fn find_asked(filters: &[Filter], name: &Text) -> Option<Id>
    ensures { (i : Ident) → FitsId i → keys.may_be result i ≡ false
        → asked_specs.asks_for (asked_under filters.now name.now) (id_word i) ≡ false }
{
    if count_under(filters, name) != 1 {
        return None;
    }
    match find_under(filters, name) {
        Some(filter) => read_printed(&filter.value),
        None => None,
    }
}

/// For proofs alone: the numbers of an id fit their types.
pub(crate) fn see_fit(id: Id)
    ensures { FitsId id }
{
    let _ordinal = id.ordinal();
    let _count = id.count();
}

/// Whether the id may be the one that is asked for.
pub(crate) fn may_be(asked: Option<Id>, id: Id) -> bool
    ensures { result ≡ keys.may_be asked id }
{
    match asked {
        Some(asked) => asked == id,
        None => true,
    }
}
