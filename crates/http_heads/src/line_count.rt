//! Lines of a head that may not be whole.
ghost use Rattle.std.specs.Prelude.{◌≡◌, ◌↔◌, IsTrue};
ghost use Rattle.http_heads.specs.Heads.{IsLarge};
ghost use Rattle.http_heads.specs.Lines.{line_feeds, behind_blank, AreEmptyLines};

use crate::HEAD_LIMIT;
use crate::empty_lines::empty_front;

// Whether there are as many bytes as a head may have, or too many lines; the first bytes are empty
// lines.
pub(crate) fn is_large(prefix: &[u8], empty: usize) -> bool
    requires { AreEmptyLines prefix.now empty }
    ensures { IsTrue result ↔ IsLarge prefix.now }
{
    prefix.len() >= HEAD_LIMIT || lines(prefix, empty) > 65
}

// Whether no line feed comes after the empty lines.
pub(crate) fn is_in_first_line(prefix: &[u8], empty: usize) -> bool
    requires { AreEmptyLines prefix.now empty }
    ensures { IsTrue result ↔ (line_feeds (behind_blank prefix.now) ≡ 0) }
{
    lines(prefix, empty) == 0
}

// How many lines come after the empty ones, of which the first bytes are some.
fn lines(prefix: &[u8], empty: usize) -> usize
    requires { AreEmptyLines prefix.now empty }
    ensures { result ≡ line_feeds (behind_blank prefix.now) }
{
    count_feeds(&prefix[empty_front(prefix, empty)..])
}

// How many line feeds there are.
fn count_feeds(bytes: &[u8]) -> usize
    ensures { result ≡ line_feeds bytes.now }
{
    let mut count = 0;
    for b in bytes {
        if *b == b'\n' {
            count += 1;
        }
    }
    count
}
