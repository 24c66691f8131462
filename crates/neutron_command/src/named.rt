//! Whose command the words name.
ghost use Rattle.std.specs.Prelude.{◌≡◌};
ghost use Rattle.neutron_command.specs.Commands as commands;

use net_addr::Text;

/// The commands beside those of the server, and the server.
#[derive(Clone, Copy, Debug, PartialEq, Eq)]
pub(crate) enum Named {
    /// Events of a store's rows, answered at hosts that route.
    Dvr,
    /// A file of who is wanted to reach whom, held against a store.
    Audit,
    /// A host's agents, which follow a server.
    Agent,
    /// All else, of which the server runs or refuses each.
    Server,
}

// Whether this is the first word.
fn is_first(command: &str, words: &[Text]) -> bool
    ensures { result ≡ commands.is_first command.now words.now }
{
    match words.first() {
        Some(word) => word.as_str() == command,
        None => false,
    }
}

impl Named {
    /// Whose command these words after the program's name are.
    pub(crate) fn of(words: &[Text]) -> Named
        ensures { result ≡ commands.named_by words.now }
    {
        if is_first("dvr", words) {
            Named::Dvr
        } else if is_first("audit", words) {
            Named::Audit
        } else if is_first("agent", words) {
            Named::Agent
        } else {
            Named::Server
        }
    }
}
