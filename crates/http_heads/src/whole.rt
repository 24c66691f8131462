//! What a whole head says of itself.
ghost use Rattle.std.specs.Prelude.{◌≡◌, ℕ, ◌+◌, ◌≤◌, ◌<◌, List, length, All, map, take, nat_lt, codes, ◌||◌, ◌==◌};
ghost use Rattle.std.specs.List.{position_or_len, list_any};
ghost use Rattle.httparse.specs.Grammar.{RequestHead};
ghost use Rattle.httparse.specs.Spans.{IsRequestAt, IsRequestWithin, IsWithin, span_bytes, header_bytes, IsHeaderWithin};
ghost use Rattle.http_heads.specs.Fields.{own_refusal, needs_length, refusal_of, length_told, only, values};
ghost use Rattle.http_heads.specs.Parts.{IsPartOf, IsPartOfOption, path_of, query_of, ArePartsOf, is_question_mark};
ghost use Rattle.http_heads.specs.Words.{has_word, is_space_or_tab};
ghost use Rattle.http_heads.specs.Read.{IsWholeRead};

use crate::field_list::{any_lists, body_length, count_named, only_named};
use crate::head::{HeadParts, HeadRead, Part};
use crate::values::{Blank, BodyLength};
use httparse::spans::{HeaderSpan, RequestSpans, Span};

// Whether requests of this method have a length.
fn is_with_length(method: &[u8]) -> bool
    ensures { result ≡ needs_length method.now }
{
    method == b"POST".as_slice() || method == b"PUT".as_slice()
}

// The refusal of a head, if any.
fn refusal(many: bool, needed: bool, coded: bool, told: BodyLength) -> Option<u8>
    ensures { result ≡ refusal_of many needed coded told }
{
    match told {
        BodyLength::Bad => Some(1),
        _ if many => Some(2),
        BodyLength::Given(n) if n > 65536 => Some(3),
        BodyLength::Given(_) if coded => Some(4),
        BodyLength::Missing if needed || coded => Some(4),
        _ => None,
    }
}

// The length of the body, where it is told.
fn length_or_none(told: BodyLength) -> u64
    ensures { result ≡ length_told told }
{
    match told {
        BodyLength::Given(n) => n,
        _ => 0,
    }
}

// Where the first question mark is, or the length where there is none.
fn question_mark(target: &[u8]) -> usize
    ensures within { result ≤ length target.now }
    ensures is { result ≡ position_or_len is_question_mark target.now }
{
    for at in 0..target.len() {
        if target[at] == b'?' {
            return at;
        }
    }
    target.len()
}

// The part of a span.
fn part_of(span: Span) -> Part
    ensures start { result.start ≡ span.start }
    ensures end { result.end ≡ span.end }
{
    Part {
        start: span.start,
        end: span.end,
    }
}

// The path and the query of a target.
fn cut_target(prefix: &[u8], target: Span) -> (Part, Part)
    requires { IsWithin (length prefix.now) target }
    ensures path { IsPartOf prefix.now result.0 (path_of (span_bytes prefix.now target)) }
    ensures query { IsPartOf prefix.now result.1 (query_of (span_bytes prefix.now target)) }
{
    let mark = target.start + question_mark(target.of(prefix));
    let path = Part {
        start: target.start,
        end: mark,
    };
    let query = Part {
        start: (mark + 1).min(target.end),
        end: target.end,
    };
    (path, query)
}

// Where the one field stands that names the project.
fn project_part(buffer: &[u8], fields: &[HeaderSpan]) -> Option<Part>
    requires { All (IsHeaderWithin (length buffer.now)) fields.now }
    ensures { IsPartOfOption buffer.now result
        (only (values (codes "x-project-id") (map (header_bytes buffer.now) fields.now))) }
{
    match only_named(buffer, fields, b"x-project-id") {
        Some(span) => Some(part_of(span)),
        None => None,
    }
}

// Where the parts of a head stand.
fn parts_of(buffer: &[u8], fields: &[HeaderSpan], spans: &RequestSpans) -> HeadParts
    requires within { IsRequestWithin buffer.now fields.now spans.now }
    ensures { (head : RequestHead) → IsRequestAt buffer.now fields.now spans.now head
        → ArePartsOf buffer.now head result }
{
    let fields = &fields[..spans.headers];
    let (path, query) = cut_target(buffer, spans.path);
    HeadParts {
        method: part_of(spans.method),
        path,
        query,
        project: project_part(buffer, fields),
        admin: any_lists(buffer, fields, b"x-roles", Blank::Spaces, b"admin"),
    }
}

// Whether the connection ends after the reply.
fn is_last(version: u8, buffer: &[u8], fields: &[HeaderSpan]) -> bool
    requires { All (IsHeaderWithin (length buffer.now)) fields.now }
    ensures { result
        ≡ (version == 0
        || list_any (has_word is_space_or_tab (codes "close"))
        (values (codes "connection") (map (header_bytes buffer.now) fields.now))) }
{
    version == 0
        || any_lists(
            buffer,
            fields,
            b"connection",
            Blank::SpacesAndTabs,
            b"close",
        )
}

// What a whole head says of itself.
pub(crate) fn read_whole(buffer: &[u8], fields: &[HeaderSpan], spans: RequestSpans) -> HeadRead
    requires within { IsRequestWithin buffer.now fields.now spans }
    ensures { (head : RequestHead) → IsRequestAt buffer.now fields.now spans head
        → IsWholeRead buffer.now head (own_refusal head) result }
{
    let named = &fields[..spans.headers];
    let told = body_length(buffer, named);
    let needed = is_with_length(spans.method.of(buffer));
    let coded = count_named(buffer, named, b"transfer-encoding") > 0;
    if let Some(number) = refusal(spans.headers > 64, needed, coded, told) {
        return HeadRead::Refused(number);
    }
    HeadRead::Head {
        length: length_or_none(told),
        body: spans.len,
        close: is_last(spans.version, buffer, named),
        parts: parts_of(buffer, fields, &spans),
    }
}
