//! What one prefix of the bytes says.
ghost use Rattle.std.specs.Prelude.{◌≡◌, ℕ, ◌+◌, ◌<◌, ◌≤◌, ◌↔◌, ◌⊎◌, length, take, slice_index_or, IsTrue};
ghost use Rattle.http_heads.specs.Heads.{IsOpen, IsJudged};
ghost use Rattle.http_heads.specs.Lines.{line_feeds, behind_blank, AreEmptyLines};
ghost use Rattle.http_heads.specs.Read.{IsJudgedAs, IsJudgedAt, EndsLine};

use crate::HEAD_LIMIT;
use crate::line_count::{is_in_first_line, is_large};
use httparse::Status;
use httparse::spans::{HeaderSpan, RequestSpans, parse_request};

// What one judged prefix says.
#[derive(Clone, Copy)]
pub(crate) enum Judged {
    Open,
    Wrong,
    Large,
    Whole(RequestSpans),
}

// Judges one prefix, whose first bytes are empty lines, where none before it says anything. The
// room for fields is one more than the fields that a head may have, so it never runs out.
fn judge(prefix: &[u8], empty: usize, fields: &mut [HeaderSpan]) -> Judged
    requires empty { AreEmptyLines prefix.now empty }
    requires room { length fields.old ≡ 65 }
    requires ends { (length prefix.now ≡ 16384) ⊎ EndsLine prefix.now }
    requires short { length prefix.now ≤ 16384 }
    requires few { line_feeds (behind_blank prefix.now) ≤ 66 }
    requires first { (k : ℕ) → k < length prefix.now → IsJudged prefix.now k
        → IsOpen (take k prefix.now) }
    ensures { IsJudgedAs prefix.now fields.new result }
{
    match parse_request(prefix, fields) {
        Ok(Status::Complete(spans)) => Judged::Whole(spans),
        Ok(Status::Partial) => {
            if is_large(prefix, empty) {
                Judged::Large
            } else {
                Judged::Open
            }
        }
        Err(_) => {
            if is_in_first_line(prefix, empty) {
                Judged::Large
            } else {
                Judged::Wrong
            }
        }
    }
}

// Whether the prefix that ends after a byte is judged.
fn is_judged(buffer: &[u8], at: usize) -> bool
    requires within { at < length buffer.now }
    requires short { at < 16384 }
    ensures { IsTrue result ↔ ((at + 1 ≡ 16384) ⊎ (slice_index_or buffer.now at 0 ≡ 10)) }
{
    at + 1 == HEAD_LIMIT || buffer[at] == b'\n'
}

// Judges the prefix that ends after a byte, if it is judged.
pub(crate) fn judge_at(buffer: &[u8], empty: usize, at: usize, fields: &mut [HeaderSpan]) -> Judged
    requires empty { AreEmptyLines buffer.now empty }
    requires behind { empty ≤ at }
    requires room { length fields.old ≡ 65 }
    requires within { at < length buffer.now }
    requires short { at < 16384 }
    requires opens { (k : ℕ) → k ≤ at → IsJudged buffer.now k → IsOpen (take k buffer.now) }
    requires few { line_feeds (behind_blank (take at buffer.now)) ≤ 65 }
    ensures { IsJudgedAt buffer.now (at + 1) fields.new result }
{
    if !is_judged(buffer, at) {
        return Judged::Open;
    }
    judge(&buffer[..at + 1], empty, fields)
}
