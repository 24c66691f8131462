//! Whether a text is empty, as clauses have it.

ghost use Rattle.std.specs.Prelude.{◌≡◌};
ghost use Rattle.api_types.specs.Lists as lists;

use net_addr::Text;

/// Whether the text has no character.
#[tactic(auto, using(crate::proofs::EmptyLemmas::empty_by_length))]
pub fn is_empty(text: &Text) -> bool
    ensures { result ≡ lists.is_empty text.now }
{
    text.len() == 0
}
