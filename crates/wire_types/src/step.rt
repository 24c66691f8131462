//! What an agent makes of a reply.

/// What became of a reply that an agent heard.
#[derive(Clone, Copy, Debug, PartialEq, Eq)]
pub enum WireStep {
    /// What is held can be followed.
    Same,
    /// A draft of this version is begun.
    Anew { version: u64 },
    /// A page was added to the draft.
    Page,
    /// This version is held now.
    Took { held: u64 },
    /// The rows moved on, and the draft was dropped.
    Restarted,
    /// The next change is no longer kept: the version is asked for.
    Asked,
    /// The reply is none that was asked for.
    Again,
    /// The bytes are no reply of a server.
    BadReply,
    /// The change doesn't fit the rows, or the new rows aren't consistent.
    BadRows,
}
