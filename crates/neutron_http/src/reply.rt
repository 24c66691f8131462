//! A reply as bytes.
ghost use Rattle.std.specs.Prelude.{◌≡◌, ◌++◌, [], ℕ, List, IfOk, IfSome, codes, decimal, string_bytes, length, None};
ghost use Rattle.neutron_http.specs.Replies.{line_end, reply_bytes, fields_of, field_lines, body_fields, body_of, no_memory_body, allow_fields, caller_fields, close_fields, phrase_of, IsReplyCode, IsFieldValue, IsWholeReply};

use http::StatusCode;
use net_addr::{Bytes, OutOfMemory, Text};
use std::alloc::Global;

/// What a reply says beside its code and body.
#[derive(Debug, Drop)]
pub struct Extra {
    /// The methods that the path has, for a 405 alone: the value of the field `Allow`.
    pub allow: Option<Text>,
}

// The phrase of a code.
fn phrase(code: u16) -> &'static str
    requires { IsReplyCode code }
    ensures { result.now ≡ phrase_of code }
{
    match StatusCode::from_u16(code) {
        Ok(status) => status.canonical_reason().unwrap_or(""),
        Err(_) => "",
    }
}

// How to name a caller.
fn caller_text(code: u16) -> &'static str
    ensures { result.now ≡ field_lines (caller_fields code) }
{
    if code == 401 {
        "WWW-Authenticate: Keystone\r\n"
    } else {
        ""
    }
}

// That the connection ends after the reply.
fn close_text(close: bool) -> &'static str
    ensures { result.now ≡ field_lines (close_fields close) }
{
    if close { "Connection: close\r\n" } else { "" }
}

// The methods that the path has.
fn allow_text(alloc: Global, code: u16, extra: &Extra) -> Result<String, OutOfMemory>
    ensures { IfOk result (λ s. string_bytes s ≡ field_lines (allow_fields code extra.now.allow)) }
{
    match &extra.allow {
        Some(methods) if code == 405 => {
            let methods = methods.as_str();
            Ok(format!(in alloc; "Allow: {methods}\r\n")?)
        }
        _ => Ok(String::new(alloc)),
    }
}

// The type and the length of a body.
fn body_text(alloc: Global, code: u16, length: usize) -> Result<String, OutOfMemory>
    ensures { IfOk result (λ s. string_bytes s ≡ field_lines (body_fields code length)) }
{
    if code == 204 {
        return Ok(String::new(alloc));
    }
    Ok(format!(in alloc; "Content-Type: application/json\r\nContent-Length: {length}\r\n")?)
}

// The body that is sent.
fn sent_body(code: u16, body: &[u8]) -> &[u8]
    ensures { result.now ≡ body_of code body.now }
{
    if code == 204 { &[] } else { body }
}

// The pieces of a reply, one after the other.
fn assembled(
    alloc: Global,
    code: u16,
    close: bool,
    extra: &Extra,
    body: &[u8],
) -> Result<Vec<u8>, OutOfMemory>
    requires { IsReplyCode code }
    ensures { IfOk result (λ v.
        v.items ≡ codes "HTTP/1.1 " ++ decimal code ++ codes " " ++ phrase_of code ++ line_end
        ++ field_lines (body_fields code (length body.now))
        ++ field_lines (allow_fields code extra.now.allow)
        ++ field_lines (caller_fields code) ++ field_lines (close_fields close) ++ line_end
        ++ body_of code body.now) }
{
    let first = format!(in alloc; "HTTP/1.1 {code} ")?;
    let about_body = body_text(alloc, code, body.len())?;
    let about_methods = allow_text(alloc, code, extra)?;
    let mut out = Vec::new(alloc);
    out.extend_from_slice(first.as_bytes())?;
    out.extend_from_slice(phrase(code).as_bytes())?;
    out.extend_from_slice(b"\r\n")?;
    out.extend_from_slice(about_body.as_bytes())?;
    out.extend_from_slice(about_methods.as_bytes())?;
    out.extend_from_slice(caller_text(code).as_bytes())?;
    out.extend_from_slice(close_text(close).as_bytes())?;
    out.extend_from_slice(b"\r\n")?;
    out.extend_from_slice(sent_body(code, body))?;
    Ok(out)
}

/// The bytes of a reply: the status line, the fields, an empty line and the body (RFC 9112).
///
/// `code` is one of the API's reply codes. The fields are `Content-Type` and `Content-Length`,
/// which a 204 hasn't, then `Allow` for a 405 alone, `WWW-Authenticate: Keystone` for a 401 alone,
/// and `Connection: close` where `close` is true. A 204 has no body. The cost grows with the reply.
pub fn written(
    alloc: Global,
    code: u16,
    close: bool,
    extra: &Extra,
    body: &[u8],
) -> Result<Bytes, OutOfMemory>
    requires { IsReplyCode code }
    ensures bytes { IfOk result (λ b. b ≡ reply_bytes code close extra.now.allow body.now) }
    ensures whole { IfSome extra.now.allow IsFieldValue → IfOk result (λ b. IsWholeReply b code
        (fields_of code close extra.now.allow body.now) (body_of code body.now)) }
{
    Ok(Bytes::from_vec(assembled(alloc, code, close, extra, body)?))
}

const NO_MEMORY: &[u8] =
    b"HTTP/1.1 507 Insufficient Storage\r\nContent-Type: application/json\r\nContent-Length: 88\r\n\r\n{\"NeutronError\":{\"detail\":\"\",\"message\":\"Memory could not be had.\",\"type\":\"OutOfMemory\"}}";

const NO_MEMORY_CLOSE: &[u8] =
    b"HTTP/1.1 507 Insufficient Storage\r\nContent-Type: application/json\r\nContent-Length: 88\r\nConnection: close\r\n\r\n{\"NeutronError\":{\"detail\":\"\",\"message\":\"Memory could not be had.\",\"type\":\"OutOfMemory\"}}";

/// The whole reply of a request for which no memory could be had. It takes none itself.
pub fn no_memory_reply(close: bool) -> &'static [u8]
    ensures { result.now ≡ reply_bytes 507 close None no_memory_body }
{
    if close { NO_MEMORY_CLOSE } else { NO_MEMORY }
}
