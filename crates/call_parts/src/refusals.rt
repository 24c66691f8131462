//! Refusals whose texts take memory.
ghost use Rattle.std.specs.Prelude.{◌≡◌, IfOk};
ghost use Rattle.api_types.specs.Refusing as refusing;
ghost use Rattle.api_types.specs.Titles.{title_of};
ghost use Rattle.api_types.specs.declared.refusal.Refusal.TheVariants.{Invalid as InvalidBy};
ghost use Rattle.call_parts.specs.Answers.{IsOrMemory};
ghost use Rattle.call_parts.specs.BodyNames.{text_of};

use api_types::{Id, Kind, Refusal};
use net_addr::{Copies, OutOfMemory, Text};
use std::alloc::Global;

/// The refusal of an attribute that breaks its rule.
pub fn invalid(alloc: Global, name: &str) -> Refusal
    ensures { IsOrMemory (InvalidBy name.now) result }
{
    match Text::of(alloc, name) {
        Ok(name) => Refusal::Invalid { name },
        Err(_) => Refusal::OutOfMemory,
    }
}

fn title(alloc: Global, kind: Kind) -> Result<Text, OutOfMemory>
    ensures { IfOk result (λ t. t ≡ title_of kind) }
{
    Text::of(alloc, kind.title())
}

fn unfound(alloc: Global, kind: Kind, text: &Text) -> Result<Refusal, OutOfMemory>
    ensures { IfOk result (λ r. r ≡ refusing.not_found kind text.now) }
{
    Ok(Refusal::NotFound {
        kind: title(alloc, kind)?,
        text: text.copy(alloc)?,
    })
}

/// The refusal for want of the row that this text names.
pub fn not_found(alloc: Global, kind: Kind, text: &Text) -> Refusal
    ensures { IsOrMemory (refusing.not_found kind text.now) result }
{
    match unfound(alloc, kind, text) {
        Ok(refusal) => refusal,
        Err(_) => Refusal::OutOfMemory,
    }
}

fn id_text(alloc: Global, id: Option<Id>) -> Result<Text, OutOfMemory>
    ensures { IfOk result (λ t. t ≡ text_of id) }
{
    match id {
        Some(id) => id.print(alloc),
        None => Ok(Text::new(alloc)),
    }
}

/// The refusal for want of the row with the id that a body gives.
pub fn none_with_id(alloc: Global, kind: Kind, id: Option<Id>) -> Refusal
    ensures { IsOrMemory (refusing.not_found kind (text_of id)) result }
{
    match id_text(alloc, id) {
        Ok(text) => not_found(alloc, kind, &text),
        Err(_) => Refusal::OutOfMemory,
    }
}
