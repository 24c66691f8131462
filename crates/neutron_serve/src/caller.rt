//! Who asks.
ghost use Rattle.std.specs.Prelude.{◌≡◌, ◌⊎◌, IfOk, IfErr, IfSome, None, Some, not, true, option_map, option_copied, if◌then◌else◌};
ghost use Rattle.std.specs.List.{list_all};
ghost use Rattle.api_types.specs.Lists.{is_empty};
ghost use Rattle.json_values.specs.Grammars.{is_project_byte, is_project_name};
ghost use Rattle.neutron_serve.specs.Requests.{caller_of};

use api_types::{Caller, Refusal};
use net_addr::Text;
use std::alloc::Global;
use std::str;

fn is_project_byte(byte: u8) -> bool
    ensures { result ≡ is_project_byte byte }
{
    byte.is_ascii_alphanumeric() || (byte == b'-' || byte == b'_')
}

fn are_project_bytes(text: &[u8]) -> bool
    ensures { result ≡ list_all is_project_byte text.now }
{
    text.iter().all(|byte| is_project_byte(*byte))
}

// Whether a text is a project's name: 1 to 64 letters, digits, hyphens and underscores.
fn is_project_name(text: &[u8]) -> bool
    ensures { result ≡ is_project_name text.now }
{
    1 <= text.len() && (text.len() <= 64 && are_project_bytes(text))
}

// The text of a project's name.
#[tactic(auto, using(crate::proofs::Naming::name_utf8, crate::proofs::Naming::name_there))]
fn project_name(text: &[u8]) -> Option<&str>
    ensures named { IfSome result (λ t. not (is_empty t.now) ≡ true) }
    ensures text { option_map (λ t. t.now) result
        ≡ (if is_project_name text.now then Some text.now else None) }
{
    if !is_project_name(text) {
        return None;
    }
    match str::from_utf8(text) {
        Ok(name) => Some(name),
        Err(_) => None,
    }
}

/// The caller that the text of the project's field names, where there is exactly one field.
pub(crate) fn read_caller(
    alloc: Global,
    project: Option<&[u8]>,
    admin: bool,
) -> Result<Caller, Refusal>
    ensures named { IfOk result (λ caller. not (is_empty caller.project) ≡ true) }
    ensures ok { IfOk result
        (λ caller. caller_of (option_copied project.entry) admin ≡ Some caller) }
    ensures err { IfErr result
        (λ e. (e ≡ Refusal.OutOfMemory)
        ⊎ ((e ≡ Refusal.NoCaller) × (caller_of (option_copied project.entry) admin ≡ None))) }
{
    let Some(project) = project else {
        return Err(Refusal::NoCaller);
    };
    let Some(name) = project_name(project) else {
        return Err(Refusal::NoCaller);
    };
    Ok(Caller {
        project: Text::of(alloc, name)?,
        admin,
    })
}
