//! Numbers in paths.
ghost use Rattle.std.specs.Char.{is_ascii_digit};
ghost use Rattle.std.specs.List.{list_all};
ghost use Rattle.std.specs.Prelude.{◌≡◌, ◌⊎◌, codes};
ghost use Rattle.http_heads.specs.Numbers.{is_number};
ghost use Rattle.neutron_http.specs.declared.query.BodyRefusal.TheVariants.{BadAttribute, OutOfMemory as MemoryRefusal};
ghost use Rattle.neutron_json.specs.Asks.{change_read, first_text, page_read, second_text};
ghost use Rattle.neutron_json.specs.Bodies.{Answers};
ghost use Rattle.neutron_json.specs.PathNumbers.{path_number};

use net_addr::{OutOfMemory, Text};
use neutron_http::{BodyRefusal, Route};
use plane_types::{Ask, LabCall};
use std::alloc::Global;

fn all_digits(text: &[u8]) -> bool
    ensures { result ≡ list_all is_ascii_digit text.now }
{
    text.iter().all(|b| b.is_ascii_digit())
}

// Whether it is 1 to 20 digits.
fn is_digits(text: &[u8]) -> bool
    ensures { result ≡ is_number 20 text.now }
{
    1 <= text.len() && (text.len() <= 20 && all_digits(text))
}

// The number that 1 to 20 digits write, if it is below 2^64.
fn read_number(text: &str) -> Option<u64>
    ensures { result ≡ path_number text.now }
{
    if is_digits(text.as_bytes()) {
        text.parse::<u64>().ok()
    } else {
        None
    }
}

fn first_number(texts: &[Text]) -> Option<u64>
    ensures { result ≡ path_number (first_text texts.now) }
{
    match texts {
        [text, ..] => read_number(text.as_str()),
        [] => None,
    }
}

fn second_number(texts: &[Text]) -> Option<u64>
    ensures { result ≡ path_number (second_text texts.now) }
{
    match texts {
        [_, text, ..] => read_number(text.as_str()),
        _ => None,
    }
}

// The refusal of a number under this name.
fn bad_number(alloc: Global, name: &str) -> BodyRefusal
    ensures { (result ≡ BadAttribute name.now) ⊎ (result ≡ MemoryRefusal) }
{
    match Text::of(alloc, name) {
        Ok(name) => BodyRefusal::BadAttribute { name },
        Err(OutOfMemory) => BodyRefusal::OutOfMemory,
    }
}

/// What the path of a change asks.
pub(crate) fn ask_change(alloc: Global, route: &Route) -> Result<Ask, BodyRefusal>
    ensures { Answers result (change_read route.now.parameters) }
{
    match first_number(route.parameters.as_slice()) {
        Some(number) => Ok(Ask::Lab(LabCall::Change { number })),
        None => Err(bad_number(alloc, "number")),
    }
}

/// What the path of a page asks.
pub(crate) fn ask_page(alloc: Global, route: &Route) -> Result<Ask, BodyRefusal>
    ensures { Answers result (page_read route.now.parameters) }
{
    let texts = route.parameters.as_slice();
    let Some(version) = first_number(texts) else {
        return Err(bad_number(alloc, "version"));
    };
    match second_number(texts) {
        Some(number) => Ok(Ask::Lab(LabCall::Page { version, number })),
        None => Err(bad_number(alloc, "page")),
    }
}
