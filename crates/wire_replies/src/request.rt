//! Requests as bytes.
ghost use Rattle.std.specs.Prelude.{◌≡◌, IfOk, string_bytes};
ghost use Rattle.wire_replies.specs.Requests.{path_of, request_bytes};

use net_addr::{Bytes, OutOfMemory};
use std::alloc::Global;
use wire_types::WireAsk;

/// What comes after the path.
const REST: &[u8] =
    b" HTTP/1.1\r\nX-Project-Id: agent\r\nX-Roles: admin\r\nConnection: close\r\n\r\n";

/// The path of what is asked.
fn path(alloc: Global, ask: WireAsk) -> Result<String, OutOfMemory>
    ensures { IfOk result (λ s. string_bytes s ≡ path_of ask) }
{
    match ask {
        WireAsk::Version => Ok(String::from_str(alloc, "/lab/v1/version")?),
        WireAsk::Page { version, number } => {
            Ok(format!(in alloc; "/lab/v1/snapshot/{version}/{number}")?)
        }
        WireAsk::Change { number } => Ok(format!(in alloc; "/lab/v1/changes/{number}")?),
    }
}

/// The bytes of the request that asks this (RFC 9112), as an administrator of the project `agent`.
pub fn write_ask(alloc: Global, ask: WireAsk) -> Result<Bytes, OutOfMemory>
    ensures { IfOk result (λ b. b ≡ request_bytes ask) }
{
    let path = path(alloc, ask)?;
    let mut out = Vec::from_slice(alloc, b"GET ")?;
    out.extend_from_slice(path.as_bytes())?;
    out.extend_from_slice(REST)?;
    Ok(Bytes::from_vec(out))
}
