//! Addresses of version 6 as texts (RFC 5952).

ghost use Rattle.std.specs.Prelude.{◌≡◌, ◌+◌, ◌++◌, ◌≤◌, ◌∷◌, [], length, IfOk, string_bytes, codes};
ghost use Rattle.net_addr.specs.Printing6.{address6_text, groups, longest, more_text, row_text, zeros, short_text};

use crate::address::Addr6;
use crate::memory::OutOfMemory;
use crate::text::Text;
use std::alloc::Global;

// Some groups in a row.
#[derive(Clone, Copy)]
struct Run {
    at: usize,
    len: usize,
}

impl Addr6 {
    // The eight groups of 16 bits.
    #[tactic(auto, unfolding(crate::specs::Printing6::groups))]
    fn groups(self) -> [u16; 8]
        ensures { result ≡ groups self }
    {
        let n = self.0;
        [
            (n >> 112) as u16,
            ((n >> 96) % 0x1_0000) as u16,
            ((n >> 80) % 0x1_0000) as u16,
            ((n >> 64) % 0x1_0000) as u16,
            ((n >> 48) % 0x1_0000) as u16,
            ((n >> 32) % 0x1_0000) as u16,
            ((n >> 16) % 0x1_0000) as u16,
            (n % 0x1_0000) as u16,
        ]
    }

    /// The text of RFC 5952, which `Addr6::read` reads back. An IPv4 tail is never printed.
    #[tactic(auto, unfolding(crate::specs::Printing6::address6_text))]
    pub fn print(self, alloc: Global) -> Result<Text, OutOfMemory>
        ensures text { IfOk result (λ t. t ≡ address6_text self) }
    {
        let groups = self.groups();
        let run = longest_run(&groups);
        if run.len < 2 {
            return row(alloc, &groups);
        }
        let before = row(alloc, &groups[..run.at])?;
        let behind = row(alloc, &groups[run.at + run.len..])?;
        let text = format!(in alloc; "{}::{}", before.as_str(), behind.as_str())?;
        Ok(Text::from_string(text))
    }
}

// The first longest run of zeros.
fn longest_run(groups: &[u16]) -> Run
    ensures word { result.at ≡ (longest 0 groups.now).at }
    ensures size { result.len ≡ (longest 0 groups.now).len }
    ensures within { result.at + result.len ≤ length groups.now }
{
    let mut run = Run {
        at: groups.len(),
        len: 0,
    };
    let mut zeros = 0;
    let mut place = groups.len();
    while place > 0 {
        place -= 1;
        if groups[place] == 0 {
            zeros += 1;
        } else {
            zeros = 0;
        }
        if zeros >= run.len {
            run = Run {
                at: place,
                len: zeros,
            };
        }
    }
    run
}

// Groups with colons between.
fn row(alloc: Global, groups: &[u16]) -> Result<Text, OutOfMemory>
    ensures { IfOk result (λ t. t ≡ row_text groups.now) }
{
    let Some((first, others)) = groups.split_first() else {
        return Ok(Text::new(alloc));
    };
    let mut text = format!(in alloc; "{first:x}")?;
    for group in others {
        let digits = format!(in alloc; ":{group:x}")?;
        text.push_str(digits.as_str())?;
    }
    Ok(Text::from_string(text))
}
