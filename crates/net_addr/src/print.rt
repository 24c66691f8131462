//! Addresses of version 4, MACs and prefixes as texts.

ghost use Rattle.std.specs.Prelude.{◌≡◌, ◌+◌, ◌/◌, ◌%◌, ◌<◌, ◌≤◌, ◌++◌, IfOk, IsAscii, decimal, false};
ghost use Rattle.std.specs.Fmt.{digit_glyph};
ghost use Rattle.arrayvec.specs.ArrayVec.{array_vec_len};
ghost use Rattle.net_addr.specs.Spelling.{SpellsAddress, SpellsMac, addr_text, address_text, mac_text, prefix_text};

use crate::address::{Addr, Addr4, Mac, Prefix};
use crate::memory::OutOfMemory;
use crate::text::Text;
use arrayvec::ArrayVec;
use std::alloc::Global;
use std::str;

// The text of these bytes. It takes memory for more than 40 of them.
fn ascii_text(alloc: Global, bytes: &[u8]) -> Result<Text, OutOfMemory>
    requires { IsAscii bytes.now }
    ensures { IfOk result (λ t. t ≡ bytes.now) }
{
    match str::from_utf8(bytes) {
        Ok(text) => Text::of(alloc, text),
        Err(_) => unreachable!(),
    }
}

// The longest text of an address of version 4 has 15 bytes.
type Dotted = ArrayVec<u8, 15>;

// Appends a byte in decimal.
fn push_byte(text: &mut Dotted, n: u8)
    requires { array_vec_len text.old + 3 ≤ 15 }
    ensures text { text.new.items ≡ text.old.items ++ decimal n }
    ensures len { array_vec_len text.new ≤ array_vec_len text.old + 3 }
{
    if n < 10 {
        text.push(b'0' + n);
        return;
    }
    if n < 100 {
        text.push(b'0' + n / 10);
        text.push(b'0' + n % 10);
        return;
    }
    text.push(b'0' + n / 100);
    text.push(b'0' + n / 10 % 10);
    text.push(b'0' + n % 10);
}

// The hexadecimal digit in lower case.
fn hex_digit(n: u8) -> u8
    requires { n < 16 }
    ensures { result ≡ digit_glyph false n }
{
    if n < 10 { b'0' + n } else { b'a' - 10 + n }
}

fn high_digit(byte: u8) -> u8
    ensures { result ≡ digit_glyph false (byte / 16) }
{
    hex_digit(byte / 16)
}

fn low_digit(byte: u8) -> u8
    ensures { result ≡ digit_glyph false (byte % 16) }
{
    hex_digit(byte % 16)
}

impl Addr4 {
    #[tactic(auto, unfolding(crate::specs::Spelling::address_text))]
    fn dotted(self) -> Dotted
        ensures { result.items ≡ address_text self }
    {
        let [a, b, c, d] = self.0.to_be_bytes();
        let mut text = Dotted::new();
        push_byte(&mut text, a);
        text.push(b'.');
        push_byte(&mut text, b);
        text.push(b'.');
        push_byte(&mut text, c);
        text.push(b'.');
        push_byte(&mut text, d);
        text
    }

    /// The four bytes in decimal with dots between them, which `Addr4::read` reads back. It
    /// allocates nothing.
    pub fn print(self, alloc: Global) -> Result<Text, OutOfMemory>
        ensures text { IfOk result (λ t. t ≡ address_text self) }
        ensures spelled { IfOk result (λ t. SpellsAddress t self) }
    {
        let text = self.dotted();
        ascii_text(alloc, text.as_slice())
    }
}

impl Mac {
    #[tactic(auto, unfolding(crate::specs::Spelling::mac_text))]
    fn pairs(self) -> [u8; 17]
        ensures { result ≡ mac_text self }
    {
        let [_, _, a, b, c, d, e, f] = self.0.to_be_bytes();
        [
            high_digit(a),
            low_digit(a),
            b':',
            high_digit(b),
            low_digit(b),
            b':',
            high_digit(c),
            low_digit(c),
            b':',
            high_digit(d),
            low_digit(d),
            b':',
            high_digit(e),
            low_digit(e),
            b':',
            high_digit(f),
            low_digit(f),
        ]
    }

    /// The six bytes in lower-case hexadecimal digits with colons between them, which `Mac::read`
    /// reads back. It allocates nothing.
    pub fn print(self, alloc: Global) -> Result<Text, OutOfMemory>
        ensures text { IfOk result (λ t. t ≡ mac_text self) }
        ensures spelled { IfOk result (λ t. SpellsMac t self) }
    {
        let text = self.pairs();
        ascii_text(alloc, &text)
    }
}

impl Addr {
    /// The printed text of its version.
    pub fn print(&self, alloc: Global) -> Result<Text, OutOfMemory>
        ensures text { IfOk result (λ t. t ≡ addr_text self.now) }
    {
        match *self {
            Addr::V4(x) => x.print(alloc),
            Addr::V6(x) => x.print(alloc),
        }
    }
}

impl Prefix {
    /// The base, `/` and the length, which `Cidr::read` reads back.
    #[tactic(auto, unfolding(crate::specs::Spelling::prefix_text))]
    pub fn print(self, alloc: Global) -> Result<Text, OutOfMemory>
        ensures text { IfOk result (λ t. t ≡ prefix_text self) }
    {
        let base = self.base.print(alloc)?;
        let text = format!(in alloc; "{}/{}", base.as_str(), self.len)?;
        Ok(Text::from_string(text))
    }
}
