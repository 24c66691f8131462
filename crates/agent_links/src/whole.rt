//! The first whole reply among bytes that come in pieces.

ghost use Rattle.std.specs.Prelude.{◌≡◌, ◌<◌, ◌≤◌, ◌∷◌, [], All, IfNone, IfOk, IfSome, List, MatchOption, codes, length, map, take};
ghost use Rattle.httparse.specs.Spans.{IsHeaderWithin, IsWithin, header_bytes, span_bytes};
ghost use Rattle.net_addr.specs.Words.{Bytes};
ghost use Rattle.http_heads.specs.Fields.{values};
ghost use Rattle.http_heads.specs.Words.{same_word};
ghost use Rattle.keeper_core.specs.Counts.{HasCause, HasRefusalCause};
ghost use Rattle.agent_links.specs.Wholes as wholes;
ghost use Rattle.agent_links.specs.Wholes.{HasNoWhole, HasWhole, IsLengthOf, IsRead, ReadsPiece, read_limit};

use http_heads::{HEAD_LIMIT, read_number};
use httparse::Status;
use httparse::spans::{EMPTY_HEADER_SPAN, HeaderSpan, Span, parse_response};
use keeper_core::{Failed, OutsideRefusal, Source};
use net_addr::Bytes;
use std::alloc::Global;
use wire_types::BODY_LIMIT;

// The most fields of a reply's head.
const FIELD_LIMIT: usize = 64;

// How many bytes are read at once, at most.
const PIECE: usize = 4_096;

// The most bytes that are read: a head and a body.
const READ_LIMIT: usize = HEAD_LIMIT + BODY_LIMIT;

// Whether a field says how long the body is.
fn is_length(name: &[u8]) -> bool
    ensures { result ≡ same_word name.now (codes "content-length") }
{
    name.eq_ignore_ascii_case(b"content-length")
}

// A length, or 0 if it is more than a body may have.
fn within_limit(length: u64) -> usize
    ensures { result ≡ wholes.within_limit length }
{
    if length <= BODY_LIMIT as u64 {
        return length as usize;
    }
    0
}

// The length that a value gives, or 0 if it can't be read or is more than a body may have.
fn value_length(text: &[u8]) -> usize
    ensures { result ≡ wholes.value_length text.now }
{
    match read_number(text, 10) {
        Some(length) => within_limit(length),
        None => 0,
    }
}

// How many fields say how long the body is.
fn count_lengths(bytes: &[u8], fields: &[HeaderSpan]) -> usize
    requires { All (IsHeaderWithin (length bytes.now)) fields.now }
    ensures { result
        ≡ length (values (codes "content-length") (map (header_bytes bytes.now) fields.now)) }
{
    let mut found = 0;
    for field in fields {
        if is_length(field.name.of(bytes)) {
            found += 1;
        }
    }
    found
}

// The value of the first field that says how long the body is.
fn first_length(bytes: &[u8], fields: &[HeaderSpan]) -> Option<Span>
    requires { All (IsHeaderWithin (length bytes.now)) fields.now }
    ensures none { IfNone result
        (values (codes "content-length") (map (header_bytes bytes.now) fields.now) ≡ []) }
    ensures within { IfSome result (λ span. IsWithin (length bytes.now) span) }
    ensures some { IfSome result
        (λ span. (rest : List Bytes)
        × (values (codes "content-length") (map (header_bytes bytes.now) fields.now)
        ≡ span_bytes bytes.now span ∷ rest)) }
{
    for field in fields {
        if is_length(field.name.of(bytes)) {
            return Some(field.value);
        }
    }
    None
}

// The length that the one field `Content-Length` gives, or 0 if there is none, more than one, or
// one that can't be read or gives more than a body may have.
#[tactic(auto, using(crate::proofs::LengthLemmas::no_length, crate::proofs::LengthLemmas::one_length, crate::proofs::LengthLemmas::none_length))]
fn body_length(bytes: &[u8], fields: &[HeaderSpan]) -> usize
    requires { All (IsHeaderWithin (length bytes.now)) fields.now }
    ensures { result ≡ wholes.body_length (map (header_bytes bytes.now) fields.now) }
{
    if count_lengths(bytes, fields) != 1 {
        return 0;
    }
    match first_length(bytes, fields) {
        Some(span) => value_length(span.of(bytes)),
        None => 0,
    }
}

// How long the first reply is, once its head has come: its head, and as many bytes as that says.
fn reply_length(bytes: &[u8]) -> Option<usize>
    ensures { IsLengthOf bytes.now result }
{
    let mut fields = [EMPTY_HEADER_SPAN; FIELD_LIMIT];
    let front = &bytes[..bytes.len().min(HEAD_LIMIT)];
    match parse_response(front, &mut fields) {
        Ok(Status::Complete(head)) => {
            Some(head.len + body_length(front, &fields[..head.headers]))
        }
        Ok(Status::Partial) => None,
        Err(_) => None,
    }
}

// Looks again at bytes of which the first `seen` gave this length, or none.
fn look_again(found: Option<usize>, seen: usize, bytes: &[u8]) -> Option<usize>
    requires seen { seen ≤ length bytes.now }
    requires found { IsLengthOf (take seen bytes.now) found }
    ensures { IsLengthOf bytes.now result }
{
    match found {
        Some(length) => Some(length),
        None => {
            if seen < HEAD_LIMIT {
                return reply_length(bytes);
            }
            None
        }
    }
}

// Reads to the front of a buffer, at most so many bytes.
fn read_front<I: Source>(input: &mut I, buf: &mut [u8], room: usize) -> Result<usize, Failed>
    requires some { 0 < room }
    requires room { room ≤ length buf.old }
    ensures ok { IfOk result (λ n. IsRead room n buf.new (I.told input.old).left
        (I.told input.new).left) }
    ensures cause { HasCause (I.told input.old).faults (I.told input.new).faults result }
{
    input.read(&mut buf[..room])
}

// Reads a piece after the bytes that have come, and answers how many.
fn read_piece<I: Source>(input: &mut I, bytes: &mut Vec<u8>) -> Result<usize, OutsideRefusal>
    requires { length bytes.old.items < read_limit }
    ensures ok { IfOk result (λ n. ReadsPiece n bytes.old.items bytes.new.items
        (I.told input.old).left (I.told input.new).left) }
    ensures few { IfOk result (λ n. length bytes.new.items ≤ read_limit) }
    ensures cause { HasRefusalCause (I.told input.old).faults (I.told input.new).faults result }
{
    let mut piece = [0u8; PIECE];
    let room = PIECE.min(READ_LIMIT - bytes.len());
    let count = read_front(input, &mut piece, room)?;
    bytes.extend_from_slice(&piece[..count])?;
    Ok(count)
}

/// Reads until a whole reply has come, and gives its bytes; what comes after it is dropped. None
/// where the input ended before, or no reply was among the first 67,125,248 bytes. Its cost grows
/// with the bytes.
pub fn read_whole<I: Source>(alloc: Global, input: &mut I) -> Result<Option<Bytes>, OutsideRefusal>
    ensures ok { IfOk result (λ o. MatchOption o
        (HasNoWhole (I.told input.old).left (I.told input.new).left)
        (λ reply. HasWhole reply (I.told input.old).left (I.told input.new).left)) }
    ensures cause { HasRefusalCause (I.told input.old).faults (I.told input.new).faults result }
{
    let mut bytes = Vec::new(alloc);
    let mut found: Option<usize> = None;
    'pieces: while bytes.len() < READ_LIMIT {
        let before = bytes.len();
        if read_piece(input, &mut bytes)? == 0 {
            return Ok(None);
        }
        found = look_again(found, before, bytes.as_slice());
        if let Some(end) = found {
            if end <= bytes.len() {
                bytes.truncate(end);
                return Ok(Some(Bytes::from_vec(bytes)));
            }
        }
    }
    Ok(None)
}
