//! A request, read from the bytes that begin with it.
ghost use Rattle.std.specs.Prelude.{◌≡◌, ◌≤◌, Ok, Some, IfOk, IfErr, length, not, slice_range, true};
ghost use Rattle.api_types.specs.Lists.{is_empty};
ghost use Rattle.http_heads.specs.Fields.{is_admin, project_of};
ghost use Rattle.http_heads.specs.Heads.{Asked};
ghost use Rattle.http_session.specs.Requests.{IsRequest, BeginsWith};
ghost use Rattle.lab_world.specs.World.{IsAskInForm};
ghost use Rattle.neutron_serve.specs.Reading.{IsUnread};
ghost use Rattle.neutron_serve.specs.Requests.{caller_of, request_of};

use crate::ask::read_asked;
use crate::caller::read_caller;
use api_types::{Caller, Refusal};
use http_session::Request;
use neutron_http::{Part, Routes};
use plane_types::Ask;
use std::alloc::Global;

// The bytes of a part.
fn text(bytes: &[u8], part: Part) -> &[u8]
    requires ordered { part.start ≤ part.end }
    requires within { part.end ≤ length bytes.now }
    ensures { result.now ≡ slice_range bytes.now part.start part.end }
{
    &bytes[part.start..part.end]
}

// Who asks, by the parts of a request's head.
fn caller(alloc: Global, bytes: &[u8], request: &Request) -> Result<Caller, Refusal>
    requires { BeginsWith bytes.now request.now }
    ensures named { IfOk result (λ caller. not (is_empty caller.project) ≡ true) }
    ensures ok { (asked : Asked) → IsRequest bytes.now request.now asked
        → IfOk result
        (λ caller. caller_of (project_of asked.head) (is_admin asked.head) ≡ Some caller) }
    ensures err { (asked : Asked) → IsRequest bytes.now request.now asked
        → IfErr result (IsUnread (request_of asked)) }
{
    match request.parts.project {
        Some(part) => read_caller(alloc, Some(text(bytes, part)), request.parts.admin),
        None => read_caller(alloc, None, request.parts.admin),
    }
}

/// Who asks what.
pub(crate) fn read_request(
    alloc: Global,
    routes: &Routes,
    bytes: &[u8],
    request: &Request,
) -> Result<(Caller, Ask), Refusal>
    requires { BeginsWith bytes.now request.now }
    ensures ok { (asked : Asked) → IsRequest bytes.now request.now asked
        → IfOk result (λ r. request_of asked ≡ Ok (r.0, r.1)) }
    ensures in_form { IfOk result (λ r. IsAskInForm r.0 r.1) }
    ensures err { (asked : Asked) → IsRequest bytes.now request.now asked
        → IfErr result (IsUnread (request_of asked)) }
{
    let caller = caller(alloc, bytes, request)?;
    let parts = &request.parts;
    let ask = read_asked(
        alloc,
        routes,
        text(bytes, parts.method),
        text(bytes, parts.path),
        text(bytes, parts.query),
        text(bytes, request.body),
    )?;
    Ok((caller, ask))
}
