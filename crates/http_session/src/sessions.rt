//! Requests answered one after the other.
ghost use Rattle.std.specs.Prelude.{◌≡◌, ◌≤◌};
ghost use Rattle.keeper_core.specs.Counts.{RoseBy, Tells};
ghost use Rattle.keeper_core.specs.Kept.{IsStored};
ghost use Rattle.http_session.specs.Serves.{Serves, scene};

use crate::buffer::Buffer;
use crate::handler::Handler;
use crate::session_end::SessionEnd;
use crate::turn::{Taking, Turn, take_turn};
use keeper_core::{Keeper, Sink, Source};
use std::alloc::Global;

/// Answers the requests of the input, one after the other, and says why it ended.
///
/// At most `limit` bytes are read. The buffer of 81,920 bytes, which the longest request fills, is
/// taken first, then the handler is made, and no other memory is taken here. Bytes that are refused
/// have their reply, and a reply that closes the connection is the last one.
///
/// Each reply is flushed before more is read. `serves` says so of every source and sink: if a read
/// fails, the session ends with `ReadFault`, and then each whole request has its reply and all
/// replies are flushed. Which read fails isn't known before, and all later writes and flushes may
/// fail too, so nothing can be left for later.
///
/// A request's cost grows with its bytes and its reply, in whatever pieces either goes: each byte
/// is read once and moved once at most, empty lines before a head are passed once, and each of at
/// most 66 prefixes of the head that end after them with a line feed or at the limit is judged
/// once, at a cost of its bytes. The costs of the handler's answers come on top.
pub fn session<H: Handler, K: Keeper, I: Source, O: Sink>(
    alloc: Global,
    world: &mut H::World,
    keeper: &mut K,
    input: &mut I,
    output: &mut O,
    limit: u64,
) -> SessionEnd
    requires { Tells (K.told keeper.old).rows (H.rows world.old) }
    ensures serves { Serves H.steps H.fixed limit
        (scene world.old (K.told keeper.old) (I.told input.old) (O.told output.old))
        (scene world.new (K.told keeper.new) (I.told input.new) (O.told output.new)) result }
    ensures kept { IsStored (H.rows world.new) (K.told keeper.old) (K.told keeper.new) }
    ensures read_later { (I.told input.old).faults ≤ (I.told input.new).faults }
    ensures write_later { (O.told output.old).faults ≤ (O.told output.new).faults }
    ensures read_fault { result ≡ SessionEnd.ReadFault
        → RoseBy 1 (I.told input.old).faults (I.told input.new).faults }
    ensures write_fault { result ≡ SessionEnd.WriteFault
        → RoseBy 1 (O.told output.old).faults (O.told output.new).faults }
{
    let Ok(buffer) = Buffer::make(alloc) else {
        return SessionEnd::OutOfMemory;
    };
    let Ok(handler) = H::make(alloc) else {
        return SessionEnd::OutOfMemory;
    };
    let mut taking = Taking {
        buffer,
        taken: 0,
        limit,
    };
    'turns: loop {
        match take_turn::<H, K, I, O>(alloc, &handler, world, keeper, input, output, &mut taking) {
            Turn::Again => {}
            Turn::Ends(end) => return end,
        }
    }
}
