//! The texts of changes and of rows, for agents behind a wire.
//!
//! A change, or a page of rows, has exactly one text: JSON (RFC 8259) without spaces, members in
//! byte order of their names, values as this server prints them. What is written is read back, and
//! no other text is read. It stands on `wire_types`, `json_trees`, whose trees it cites, and
//! `serde_json`.
#![tactic(auto)]

mod floating;
mod group;
mod item;
mod list;
mod network;
mod part;
mod policy;
mod port;
mod project;
mod refusal;
mod router;
mod subnet;
mod text;
mod value;
mod variant;
mod word;

pub use refusal::TextRefusal;
pub use text::{parse, read_as, read_change, read_rows, write_change, write_rows, write_text};
pub use value::{FromJson, NotNull, ToJson, put, read_member};
