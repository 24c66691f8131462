//! Words and numbers in a field's value.
ghost use Rattle.std.specs.Prelude.{◌≡◌, ◌-◌, ◌≤◌, ◌<◌, length, IsTrue};
ghost use Rattle.std.specs.List.{prefix_len, suffix_len, list_all};
ghost use Rattle.std.specs.Char.{is_ascii_digit};
ghost use Rattle.std.specs.Str.Parse.{digits_value};
ghost use Rattle.http_heads.specs.Fields.{length_by};
ghost use Rattle.http_heads.specs.Numbers.{is_number, number_in};
ghost use Rattle.http_heads.specs.Words.{same_word, cut_front, cut_back, cut_ends, has_word, blank_of};

// What may stand around an item of a list.
#[derive(Clone, Copy)]
pub(crate) enum Blank {
    Spaces,
    SpacesAndTabs,
}

// What the fields say of the body's length.
#[derive(Clone, Copy)]
pub(crate) enum BodyLength {
    Missing,
    Given(u64),
    Bad,
}

// Whether two texts are equal in any ASCII case.
pub(crate) fn is_same_word(a: &[u8], b: &[u8]) -> bool
    ensures { result ≡ same_word a.now b.now }
{
    a.eq_ignore_ascii_case(b)
}

// Whether a byte may stand around an item.
fn is_blank(blank: Blank, b: u8) -> bool
    ensures { result ≡ blank_of blank b }
{
    match blank {
        Blank::Spaces => b == b' ',
        Blank::SpacesAndTabs => b == b' ' || b == b'\t',
    }
}

// How many blanks stand at the front.
fn front_blanks(blank: Blank, bytes: &[u8]) -> usize
    ensures within { result ≤ length bytes.now }
    ensures is { result ≡ prefix_len (blank_of blank) bytes.now }
{
    for at in 0..bytes.len() {
        if !is_blank(blank, bytes[at]) {
            return at;
        }
    }
    bytes.len()
}

// Where the blanks at the back begin.
fn back_end(blank: Blank, bytes: &[u8]) -> usize
    ensures within { result ≤ length bytes.now }
    ensures is { result ≡ length bytes.now - suffix_len (blank_of blank) bytes.now }
{
    let mut end = bytes.len();
    'blanks: while end > 0 {
        if !is_blank(blank, bytes[end - 1]) {
            return end;
        }
        end -= 1;
    }
    end
}

// The bytes without blanks at their ends.
fn cut(blank: Blank, bytes: &[u8]) -> &[u8]
    ensures { result.now ≡ cut_ends (blank_of blank) bytes.now }
{
    let rest = &bytes[front_blanks(blank, bytes)..];
    &rest[..back_end(blank, rest)]
}

// Whether an item of a list with commas is the word, in any ASCII case.
pub(crate) fn lists_word(blank: Blank, text: &[u8], word: &[u8]) -> bool
    ensures { result ≡ has_word (blank_of blank) word.now text.now }
{
    text.split(|b| *b == b',')
        .any(|item| is_same_word(cut(blank, item), word))
}

// Whether each byte is a digit.
fn all_digits(text: &[u8]) -> bool
    ensures { result ≡ list_all is_ascii_digit text.now }
{
    text.iter().all(|b| b.is_ascii_digit())
}

// Whether a text is 1 to this many digits.
fn is_short_number(text: &[u8], most: usize) -> bool
    ensures { result ≡ is_number most text.now }
{
    1 <= text.len() && text.len() <= most && all_digits(text)
}

// The number that 1 to 19 digits write.
fn number(text: &[u8]) -> u64
    requires { IsTrue (is_number 19 text.now) }
    ensures { result ≡ digits_value 10 text.now }
{
    let mut n: u64 = 0;
    for b in text {
        n = n * 10 + u64::from(*b - b'0');
    }
    n
}

/// The number that a text of 1 to `most` digits and nothing else writes. `most` is at most 19.
pub fn read_number(text: &[u8], most: usize) -> Option<u64>
    requires { most ≤ 19 }
    ensures { result ≡ number_in most text.now }
{
    if is_short_number(text, most) {
        Some(number(text))
    } else {
        None
    }
}

// The length of a body as one field gives it: 1 to 10 digits.
pub(crate) fn read_length(text: &[u8]) -> BodyLength
    ensures { result ≡ length_by (number_in 10 text.now) }
{
    match read_number(text, 10) {
        Some(length) => BodyLength::Given(length),
        None => BodyLength::Bad,
    }
}
