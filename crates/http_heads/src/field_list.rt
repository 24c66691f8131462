//! The fields of a head, as spans in its bytes.
ghost use Rattle.std.specs.Prelude.{◌≡◌, ℕ, List, [], ◌∷◌, ◌++◌, ◌&&◌, ◌==◌, All, length, map, MatchOption, Some, None, IfSome, IfNone, codes};
ghost use Rattle.std.specs.List.{list_any};
ghost use Rattle.httparse.specs.Spans.{header_bytes, span_bytes, IsHeaderWithin, IsWithin};
ghost use Rattle.http_heads.specs.Fields.{values, only, has_field, told_length};
ghost use Rattle.http_heads.specs.Words.{has_word, blank_of};

use crate::values::{Blank, BodyLength, is_same_word, lists_word, read_length};
use httparse::spans::{HeaderSpan, Span};

// How many fields have that name, in any ASCII case.
pub(crate) fn count_named(prefix: &[u8], fields: &[HeaderSpan], name: &[u8]) -> usize
    requires { All (IsHeaderWithin (length prefix.now)) fields.now }
    ensures { result ≡ length (values name.now (map (header_bytes prefix.now) fields.now)) }
{
    let mut found = 0;
    for field in fields {
        if is_same_word(field.name.of(prefix), name) {
            found += 1;
        }
    }
    found
}

// The value of the first field that has that name.
fn first_named(prefix: &[u8], fields: &[HeaderSpan], name: &[u8]) -> Option<Span>
    requires { All (IsHeaderWithin (length prefix.now)) fields.now }
    ensures none { IfNone result (values name.now (map (header_bytes prefix.now) fields.now) ≡ []) }
    ensures within { IfSome result (λ span. IsWithin (length prefix.now) span) }
    ensures some { IfSome result
        (λ span. (rest : List (List ℕ))
        × (values name.now (map (header_bytes prefix.now) fields.now)
        ≡ span_bytes prefix.now span ∷ rest)) }
{
    for field in fields {
        if is_same_word(field.name.of(prefix), name) {
            return Some(field.value);
        }
    }
    None
}

// The value of the one field that has that name.
pub(crate) fn only_named(prefix: &[u8], fields: &[HeaderSpan], name: &[u8]) -> Option<Span>
    requires { All (IsHeaderWithin (length prefix.now)) fields.now }
    ensures none { IfNone result
        (only (values name.now (map (header_bytes prefix.now) fields.now)) ≡ None) }
    ensures some { IfSome result
        (λ span. IsWithin (length prefix.now) span
        × (only (values name.now (map (header_bytes prefix.now) fields.now))
        ≡ Some (span_bytes prefix.now span))) }
{
    if count_named(prefix, fields, name) != 1 {
        return None;
    }
    first_named(prefix, fields, name)
}

// Whether a field of that name lists the word.
pub(crate) fn any_lists(
    prefix: &[u8],
    fields: &[HeaderSpan],
    name: &[u8],
    blank: Blank,
    word: &[u8],
) -> bool
    requires { All (IsHeaderWithin (length prefix.now)) fields.now }
    ensures { result
        ≡ list_any (has_word (blank_of blank) word.now)
        (values name.now (map (header_bytes prefix.now) fields.now)) }
{
    for field in fields {
        if is_same_word(field.name.of(prefix), name)
            && lists_word(blank, field.value.of(prefix), word)
        {
            return true;
        }
    }
    false
}

// What the fields say of the body's length.
pub(crate) fn body_length(prefix: &[u8], fields: &[HeaderSpan]) -> BodyLength
    requires { All (IsHeaderWithin (length prefix.now)) fields.now }
    ensures { result ≡ told_length (map (header_bytes prefix.now) fields.now) }
{
    if count_named(prefix, fields, b"content-length") == 0 {
        return BodyLength::Missing;
    }
    match only_named(prefix, fields, b"content-length") {
        Some(span) => read_length(span.of(prefix)),
        None => BodyLength::Bad,
    }
}
