//! The calls of a desk, as it notes them.

use net_addr::Text;

/// A call of a desk, with its name or address.
#[derive(Drop)]
pub enum DeskAsk {
    /// The settings with this name.
    Settings(Text),
    /// The store with this name, or one without a name.
    Store(Option<Text>),
    /// To listen at this address.
    Listen(Text),
    /// The next connection.
    Next,
}
