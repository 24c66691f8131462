//! Requests.

ghost use Rattle.std.specs.Prelude.{◌≡◌, ◌++◌, IfOk, OnOk, string_bytes};
ghost use Rattle.drill_gen.specs.Stream.{length_line as length_line_of, line, request as request_of};

use net_addr::OutOfMemory;
use std::alloc::Global;

fn add_line(lines: &mut Vec<u8>, text: &str) -> Result<(), OutOfMemory>
    ensures { OnOk result (lines.new.items ≡ lines.old.items ++ line text.now) }
{
    lines.extend_from_slice(text.as_bytes())?;
    lines.extend_from_slice(b"\r\n")?;
    Ok(())
}

fn length_line(alloc: Global, body: &str) -> Result<String, OutOfMemory>
    ensures { IfOk result (λ s. string_bytes s ≡ length_line_of body.now) }
{
    Ok(format!(in alloc; "Content-Length: {}", body.len())?)
}

/// A POST of an administrator of the project `drill`.
#[tactic(auto, unfolding(crate::specs::Stream::request))]
pub(crate) fn request(alloc: Global, path: &str, body: &str) -> Result<Vec<u8>, OutOfMemory>
    ensures { IfOk result (λ v. v.items ≡ request_of path.now body.now) }
{
    let mut bytes = Vec::new(alloc);
    let asked = format!(in alloc; "POST {path} HTTP/1.1")?;
    let length = length_line(alloc, body)?;
    add_line(&mut bytes, asked.as_str())?;
    add_line(&mut bytes, "X-Project-Id: drill")?;
    add_line(&mut bytes, "X-Roles: admin")?;
    add_line(&mut bytes, length.as_str())?;
    add_line(&mut bytes, "")?;
    bytes.extend_from_slice(body.as_bytes())?;
    Ok(bytes)
}
