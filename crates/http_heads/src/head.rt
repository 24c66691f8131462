//! Reading the head of a request from the bytes that have come.
ghost use Rattle.std.specs.Prelude.{◌≡◌, ℕ, ◌≤◌, ◌<◌, length, take, true};
ghost use Rattle.http_heads.specs.Heads.{Judgement, Decides, IsUndecided};
ghost use Rattle.http_heads.specs.Lines.{AreEmptyLines};
ghost use Rattle.http_heads.specs.Read.{IsHeadRead, IsReadAs, IsNumbered};

use crate::HEAD_LIMIT;
use crate::empty_lines::skip_empty_lines;
use crate::judging::{Judged, judge_at};
use crate::whole::read_whole;
use httparse::spans::EMPTY_HEADER_SPAN;

/// A part of the bytes: from `start` on, up to and without `end`.
#[derive(Clone, Copy, Debug, PartialEq, Eq)]
pub struct Part {
    pub start: usize,
    pub end: usize,
}

/// Where the parts of a head stand in the bytes, and what its fields say of the caller.
#[derive(Clone, Copy, Debug, PartialEq, Eq)]
pub struct HeadParts {
    pub method: Part,
    /// The target up to the first question mark.
    pub path: Part,
    /// What is after the first question mark, or nothing.
    pub query: Part,
    /// The value of `X-Project-Id`, where there is exactly one such field.
    pub project: Option<Part>,
    /// Whether `X-Roles` lists `admin`.
    pub admin: bool,
}

/// What the bytes say.
#[derive(Clone, Copy, Debug, PartialEq, Eq)]
pub enum HeadRead {
    /// Nothing yet: more bytes are awaited.
    More,
    /// A whole head that nothing is wrong with. Its body may still be to come.
    Head {
        /// How many bytes the body has.
        length: u64,
        /// Where the body begins.
        body: usize,
        /// Whether the connection ends after the reply.
        close: bool,
        parts: HeadParts,
    },
    /// 1: no head, or one whose `Content-Length` is no length. 2: more than 16,384 bytes or 64
    /// fields. 3: a body of more than 65,536 bytes. 4: a POST or PUT without a length, or a
    /// transfer coding.
    Refused(u8),
}

/// What the first prefix that says something says of the bytes that have come.
///
/// A prefix is judged where it ends with a line feed or has 16,384 bytes; `ended` tells that no
/// more bytes come. It allocates and copies nothing. Empty lines that come first are passed,
/// and prefixes of them aren't judged, but for one of 16,384 bytes. Behind them at most 66 prefixes
/// are judged, each read from its front: the cost is at most that many times that of the bytes.
pub fn read_head(buffer: &[u8], ended: bool) -> HeadRead
    requires { ended ≡ true → 0 < length buffer.now }
    ensures is { IsHeadRead buffer.now ended result }
    ensures only { (judgement : Judgement) → Decides buffer.now judgement
        → IsReadAs buffer.now judgement result }
    ensures number { IsNumbered result }
{
    let empty = skip_empty_lines(buffer, 0);
    resume_head(buffer, empty, empty, ended)
}

/// The same of bytes of which the first `from` decide nothing, as an earlier look at them told.
///
/// Only prefixes that end after those are judged. So a head that comes in pieces, each of which is
/// looked at as it comes, has each of its prefixes judged once, as a head that comes whole. The
/// first `empty` bytes are empty lines, as `skip_empty_lines` counts them, and `from` is no less:
/// so no prefix of empty lines is judged but one of 16,384 bytes.
pub fn resume_head(buffer: &[u8], empty: usize, from: usize, ended: bool) -> HeadRead
    requires empty { AreEmptyLines buffer.now empty }
    requires behind { empty ≤ from }
    requires some { ended ≡ true → 0 < length buffer.now }
    requires open { IsUndecided (take from buffer.now) }
    ensures is { IsHeadRead buffer.now ended result }
    ensures only { (judgement : Judgement) → Decides buffer.now judgement
        → IsReadAs buffer.now judgement result }
    ensures number { IsNumbered result }
{
    let mut fields = [EMPTY_HEADER_SPAN; 65];
    for at in from..buffer.len().min(HEAD_LIMIT) {
        match judge_at(buffer, empty, at, &mut fields) {
            Judged::Open => {}
            Judged::Wrong => return HeadRead::Refused(1),
            Judged::Large => return HeadRead::Refused(2),
            Judged::Whole(spans) => return read_whole(&buffer[..at + 1], &fields, spans),
        }
    }
    if ended {
        HeadRead::Refused(1)
    } else {
        HeadRead::More
    }
}
