//! The words that a program is started with.
ghost use Rattle.std.specs.Prelude.{◌≡◌};
ghost use Rattle.std.specs.IoError.{error_kind};

use net_addr::Text;
use std::alloc::Global;
use std::env::{self, Env};
use std::io::{self, ErrorKind};

/// The words after the program's name. Its error is that of a word that is no UTF-8, or out of
/// memory.
pub fn words(rt: &(impl Env + AllocGlobal), alloc: Global) -> io::Result<Vec<Text>> {
    let mut words = Vec::new(alloc);
    for word in env::args(rt)?.skip(1) {
        words.push(Text::from_string(word))?;
    }
    Ok(words)
}

/// The status where words can't be had: 1 where one is no UTF-8, as where they are no command
/// line, and 4 where memory ran out.
pub fn unread_status(error: &io::Error) -> u8
    ensures no_text { error_kind error.now ≡ ErrorKind.InvalidData → result ≡ 1 }
    ensures other { (error_kind error.now ≡ ErrorKind.InvalidData → ⊥) → result ≡ 4 }
{
    match error.kind() {
        ErrorKind::InvalidData => 1,
        _ => 4,
    }
}
