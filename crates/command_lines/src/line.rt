//! What command lines give.

ghost use Rattle.std.specs.Prelude.{◌≡◌};
ghost use Rattle.command_lines.specs.declared.line.Refusal.TheVariants.{OutOfMemory as Memory};

use net_addr::{OutOfMemory, Text};
use std::alloc::AllocError;

/// How a change reaches the agents of the hosts.
#[derive(Clone, Copy, Debug, PartialEq, Eq, Drop)]
pub enum Delivery {
    /// With the call that makes it.
    Automatic,
    /// When it is asked for.
    Manual,
}

/// What a session is opened with.
#[derive(Debug, Drop)]
pub struct Opening {
    /// The file of the settings. Without one the defaults hold.
    pub settings: Option<Text>,
    /// The file of the store. Without one it is an empty one in memory.
    pub store: Option<Text>,
    /// How changes are delivered.
    pub delivery: Delivery,
}

/// A command with what its words say.
#[derive(Debug, Drop)]
pub enum Line {
    /// One session over standard input and output.
    Session {
        opening: Opening,
    },
    /// Sessions over connections, one after the other.
    Serve {
        opening: Opening,
        /// The address at which connections are taken.
        listen: Text,
        /// How many connections are served, from 1 to 1,000,000.
        connections: u64,
    },
    /// A session over requests that are made.
    Drill {
        /// Where the draws of the requests start.
        start: u64,
        /// How many ports and frames are made, from 1 to 10,000.
        size: u32,
        /// Whether the replies are written.
        replies: bool,
    },
}

/// The command `agent` with what its words say.
#[derive(Debug, Drop)]
pub struct AgentLine {
    /// The address of the server.
    pub connect: Text,
    /// The name of the host.
    pub host: Text,
    /// How many times the server is asked, from 1 to 1,000,000.
    pub rounds: u64,
    /// The settings. No store is opened, and nothing is delivered.
    pub opening: Opening,
}

/// Why no command line was read.
#[derive(Clone, Copy, Debug, PartialEq, Eq, Drop)]
pub enum Refusal {
    /// The words are no command line.
    Wrong,
    /// There was no memory to read them.
    OutOfMemory,
}

impl From<AllocError> for Refusal {
    ghost from_gives = { λ _ e. e ≡ Memory };

    fn from(_error: AllocError) -> Refusal {
        Refusal::OutOfMemory
    }
}

impl From<OutOfMemory> for Refusal {
    ghost from_gives = { λ _ e. e ≡ Memory };

    fn from(_error: OutOfMemory) -> Refusal {
        Refusal::OutOfMemory
    }
}
