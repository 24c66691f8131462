//! A server's replies, read from bytes.
ghost use Rattle.std.specs.Prelude.{◌≡◌, ◌↔◌, All, IfOk, IfSome, IsTrue, MatchOption, length, map, option_map};
ghost use Rattle.std.specs.List.{find};
ghost use Rattle.httparse.specs.Spans.{IsHeaderWithin, IsWithin, header_bytes, span_bytes};
ghost use Rattle.neutron_http.specs.Replies.{IsReplyCode};
ghost use Rattle.wire_types.specs.declared.reply.WireReply.{WireReply};
ghost use Rattle.wire_replies.specs.Readings.{IsReadAs, IsReplyWith, IsWrittenBy, field_named, is_allowed, is_text, methods_in};
ghost use Rattle.wire_replies.specs.ReplyTexts.{IsReplyText, method_lists};

use crate::body::read_body;
use httparse::Status;
use httparse::spans::{EMPTY_HEADER_SPAN, HeaderSpan, Span, parse_response};
use net_addr::{OutOfMemory, Text};
use neutron_http::{Extra, written};
use std::alloc::Global;
use wire_text::TextRefusal;
use wire_types::{BODY_LIMIT, WireReply};

/// A reply has at most five fields.
const FIELDS: usize = 8;

/// What a reply may say of which methods a path has.
const METHOD_LISTS: [&str; 15] = [
    "DELETE",
    "GET",
    "POST",
    "PUT",
    "DELETE, GET",
    "DELETE, POST",
    "DELETE, PUT",
    "GET, POST",
    "GET, PUT",
    "POST, PUT",
    "DELETE, GET, POST",
    "DELETE, GET, PUT",
    "DELETE, POST, PUT",
    "GET, POST, PUT",
    "DELETE, GET, POST, PUT",
];

/// The value of the first field with this name.
fn find_field(bytes: &[u8], fields: &[HeaderSpan], name: &[u8]) -> Option<Span>
    requires { All (IsHeaderWithin (length bytes.now)) fields.now }
    ensures is { option_map (span_bytes bytes.now) result
        ≡ field_named name.now (map (header_bytes bytes.now) fields.now) }
    ensures within { IfSome result (λ span. IsWithin (length bytes.now) span) }
{
    for field in fields {
        if field.name.of(bytes) == name {
            return Some(field.value);
        }
    }
    None
}

/// The first of these texts that a value is.
fn find_text(texts: &[&'static str], value: &[u8]) -> Option<&'static str>
    ensures { option_map (λ s. s.now) result
        ≡ find (is_text value.now) (map (λ s. s.now) texts.now) }
{
    for text in texts {
        if text.as_bytes() == value {
            return Some(*text);
        }
    }
    None
}

/// The list of methods that this is.
fn find_methods(value: &[u8]) -> Option<&'static str>
    ensures { option_map (λ s. s.now) result ≡ find (is_text value.now) method_lists }
{
    find_text(&METHOD_LISTS, value)
}

/// The methods that a reply lists.
fn read_methods(
    alloc: Global,
    bytes: &[u8],
    value: Option<Span>,
) -> Result<Option<Text>, OutOfMemory>
    requires { IfSome value (λ span. IsWithin (length bytes.now) span) }
    ensures { IfOk result (λ o. o ≡ methods_in (option_map (span_bytes bytes.now) value)) }
{
    let Some(value) = value else {
        return Ok(None);
    };
    match find_methods(value.of(bytes)) {
        Some(methods) => Ok(Some(Text::of(alloc, methods)?)),
        None => Ok(None),
    }
}

/// Whether a reply with this status may list these methods, or none.
fn may_have(code: u16, allow: &Option<Text>) -> bool
    ensures { result ≡ is_allowed code allow.now }
{
    match allow {
        Some(_) => code == 405,
        None => code != 405,
    }
}

/// Whether a server writes these bytes with this status and body.
fn is_written(
    alloc: Global,
    bytes: &[u8],
    code: u16,
    fields: &[HeaderSpan],
    body: &[u8],
) -> Result<bool, OutOfMemory>
    requires code { IsReplyCode code }
    requires within { All (IsHeaderWithin (length bytes.now)) fields.now }
    requires reads { IsReadAs bytes.now code (map (header_bytes bytes.now) fields.now) body.now }
    ensures { IfOk result (λ written. IsTrue written ↔ IsWrittenBy bytes.now code body.now) }
{
    let close = find_field(bytes, fields, b"Connection").is_some();
    let allow = read_methods(alloc, bytes, find_field(bytes, fields, b"Allow"))?;
    if !may_have(code, &allow) {
        return Ok(false);
    }
    let again = written(alloc, code, close, &Extra { allow }, body)?;
    Ok(again.as_slice() == bytes)
}

/// What a reply with this head says, and this body.
fn read_parts(
    alloc: Global,
    bytes: &[u8],
    code: u16,
    fields: &[HeaderSpan],
    body: &[u8],
) -> Result<Option<WireReply>, OutOfMemory>
    requires within { All (IsHeaderWithin (length bytes.now)) fields.now }
    requires reads { IsReadAs bytes.now code (map (header_bytes bytes.now) fields.now) body.now }
    ensures { IfOk result (λ o. MatchOption o
        ((r : WireReply) → IsReplyWith bytes.now code body.now r → ⊥)
        (IsReplyWith bytes.now code body.now)) }
{
    if body.len() > BODY_LIMIT {
        return Ok(None);
    }
    let reply = match read_body(alloc, code, body) {
        Ok(reply) => reply,
        Err(TextRefusal::BadText) => return Ok(None),
        Err(TextRefusal::OutOfMemory) => return Err(OutOfMemory),
    };
    if is_written(alloc, bytes, code, fields, body)? {
        return Ok(Some(reply));
    }
    Ok(None)
}

/// What a reply says: the bytes of one whole reply that a server writes, with a body of at most
/// 67,108,864 bytes. None exactly if a server writes no such reply. Its cost grows with the bytes.
pub fn read_reply(alloc: Global, bytes: &[u8]) -> Result<Option<WireReply>, OutOfMemory>
    ensures { IfOk result (λ o. MatchOption o
        ((r : WireReply) → IsReplyText bytes.now r → ⊥) (IsReplyText bytes.now)) }
{
    let mut fields = [EMPTY_HEADER_SPAN; FIELDS];
    match parse_response(bytes, &mut fields) {
        Ok(Status::Complete(head)) => {
            let named = &fields[..head.headers];
            read_parts(alloc, bytes, head.code, named, &bytes[head.len..])
        }
        Ok(Status::Partial) => Ok(None),
        Err(_) => Ok(None),
    }
}
