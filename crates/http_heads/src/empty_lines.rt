//! The empty lines that may stand before a head (RFC 9112, section 2.2).
ghost use Rattle.std.specs.Prelude.{◌≡◌, ℕ, ◌≤◌, [], length, take, drop};
ghost use Rattle.http_heads.specs.Heads.{IsUndecided};
ghost use Rattle.http_heads.specs.Lines.{behind_blank, AreEmptyLines};

use crate::HEAD_LIMIT;

/// How many bytes at the front are whole empty lines, `\n` or `\r\n`, of the first 16,383 bytes.
///
/// They decide nothing, so a head may be looked for after them (`resume_head`). `from` is 0, or an
/// earlier answer for fewer of these bytes: those that it counts aren't looked at again.
pub fn skip_empty_lines(buffer: &[u8], from: usize) -> usize
    requires { AreEmptyLines buffer.now from }
    ensures are { AreEmptyLines buffer.now result }
    ensures all { (n : ℕ) → AreEmptyLines buffer.now n → n ≤ result }
    ensures open { IsUndecided (take result buffer.now) }
{
    empty_front(&buffer[..buffer.len().min(HEAD_LIMIT - 1)], from)
}

// Where the empty lines end, of which the first bytes are some.
pub(crate) fn empty_front(bytes: &[u8], from: usize) -> usize
    requires within { from ≤ length bytes.now }
    requires blank { behind_blank (take from bytes.now) ≡ [] }
    ensures within { result ≤ length bytes.now }
    ensures blank { behind_blank (take result bytes.now) ≡ [] }
    ensures rest { drop result bytes.now ≡ behind_blank bytes.now }
{
    let mut at = from;
    'lines: loop {
        let count = empty_line(&bytes[at..]);
        if count == 0 {
            return at;
        }
        at += count;
    }
}

// How many bytes the empty line at the front has, or 0 where there is none.
fn empty_line(bytes: &[u8]) -> usize
    ensures within { result ≤ length bytes.now }
    ensures blank { behind_blank (take result bytes.now) ≡ [] }
    ensures none { result ≡ 0 → behind_blank bytes.now ≡ bytes.now }
{
    if bytes.len() == 0 {
        return 0;
    }
    if bytes[0] == b'\n' {
        return 1;
    }
    if bytes[0] != b'\r' {
        return 0;
    }
    if bytes.len() == 1 {
        return 0;
    }
    if bytes[1] != b'\n' {
        return 0;
    }
    2
}
