//! The base of the house: texts, bytes and lists, out of memory, what can be copied and compared,
//! and addresses of IPv4, IPv6 and Ethernet.
//!
//! It stands on the standard library and `arrayvec` alone. `Text`, `Bytes` and `Seq` own what they
//! hold, and contracts see them as lists, without their spare room. An address, a MAC, a prefix and
//! a span are seen as their numbers. Readers take exactly the texts of the standards' grammars (RFC
//! 3986, 4291 and 4632; IEEE 802) and say where another text leaves them; printers give the one text
//! that is read back. Only what returns a `Result` takes memory.
#![tactic(auto)]

mod address;
mod equal;
mod memory;
mod prefix;
mod print;
mod print6;
mod read;
mod read6;
mod seq;
mod spelling;
mod text;

pub use address::{Addr, Addr4, Addr6, Cidr, Mac, Prefix, Span};
pub use equal::{Copies, Same};
pub use memory::OutOfMemory;
pub use seq::{Names, Numbers, Prefixes, Seq, Spans};
pub use spelling::BadAddress;
pub use text::{Bytes, Text};
