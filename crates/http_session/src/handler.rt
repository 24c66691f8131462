//! What answers requests: the trait that a session is generic over.

ghost use Rattle.std.specs.Prelude.{◌≡◌, ℕ, List, IfOk};
ghost use Rattle.api_types.specs.RowLists.{RowLists};
ghost use Rattle.http_heads.specs.Heads.{Asked, Takes};
ghost use Rattle.keeper_core.specs.Counts.{RoseBy, Tells};
ghost use Rattle.keeper_core.specs.Kept.{IsStored};
ghost use Rattle.http_session.specs.Told.{Fixed};
ghost use Rattle.http_session.specs.Requests.{IsRequest, BeginsWith};
ghost use Rattle.http_session.specs.Answers.{MovesBy, answer_faults};

use crate::bad_bytes::BadBytes;
use crate::request::Request;
use keeper_core::Keeper;
use net_addr::{Bytes, OutOfMemory};
use std::alloc::Global;

/// How one request is answered.
#[derive(Drop)]
pub enum Answer {
    /// The whole reply of a step.
    Reply(Bytes),
    /// The whole reply of a request that changed nothing, since the store failed to keep its
    /// change.
    StoreFault(Bytes),
    /// Memory could not be had, and nothing changed.
    NoMemory,
    /// The step is made, and memory for its reply ran out.
    Unwritten,
}

/// What answers requests.
pub trait Handler: Drop {
    /// What requests read and move.
    type World;

    // a request moves the world so, with this reply
    ghost steps: { Self.World → Asked → List ℕ → Self.World → Type 0 };

    // the replies that are no step's, and the requests in whose place the store may fail
    ghost fixed: { Fixed Self.World };

    // the rows that the keeper is to keep
    ghost rows: { Self.World → RowLists };

    /// A handler with what it needs at hand for all requests of a session.
    fn make(alloc: Global) -> Result<Self, OutOfMemory>;

    /// Answers the request that the bytes begin with, and keeps what it changes. Where the store
    /// fails or memory runs out, nothing changes.
    fn answer<K: Keeper>(
        &self,
        world: &mut Self::World,
        alloc: Global,
        keeper: &mut K,
        bytes: &[u8],
        request: Request,
    ) -> Answer
        requires kept { Tells (K.told keeper.old).rows (rows world.old) }
        requires begins { BeginsWith bytes.now request }
        ensures moves { (asked : Asked) (rest : List ℕ) → Takes bytes.now asked rest
            → IsRequest bytes.now request asked
            → MovesBy steps fixed world.old asked result world.new }
        ensures faults { RoseBy (answer_faults result) (K.told keeper.old).faults
            (K.told keeper.new).faults }
        ensures kept { IsStored (rows world.new) (K.told keeper.old) (K.told keeper.new) };

    /// The whole reply of a request for which memory could not be had. It takes none itself.
    fn no_memory(close: bool) -> &'static [u8]
        ensures { result.now ≡ fixed.no_memory close };

    /// The whole reply of bytes that are refused. It says that the connection ends.
    fn refusal(alloc: Global, bad: BadBytes) -> Result<Bytes, OutOfMemory>
        ensures { IfOk result (λ reply. reply ≡ fixed.refusal bad) };
}
