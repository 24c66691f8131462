//! One turn of a session.
ghost use Rattle.std.specs.Prelude.{◌≡◌, ◌≤◌, List, ℕ, true, false};
ghost use Rattle.http_heads.specs.Heads.{Asked, Takes};
ghost use Rattle.keeper_core.specs.Counts.{RoseBy, Tells};
ghost use Rattle.keeper_core.specs.Ends.{has_failed};
ghost use Rattle.keeper_core.specs.Kept.{IsStored};
ghost use Rattle.http_session.specs.Requests.{IsRequest, BeginsWith};
ghost use Rattle.http_session.specs.Serves.{scene};
ghost use Rattle.http_session.specs.Told.{stage};
ghost use Rattle.http_session.specs.Turns.{IsTurn, IsSent, IsAnswered, ends_by_read};

use crate::bad_bytes::BadBytes;
use crate::buffer::Buffer;
use crate::handler::{Answer, Handler};
use crate::reading::{Awaited, Stop, await_request};
use crate::request::Request;
use crate::sending::send;
use crate::session_end::SessionEnd;
use keeper_core::{Keeper, Sink, SinkRefusal, Source};
use std::alloc::Global;

/// The bytes that were read and not answered yet, and how many were read of those that may be.
#[derive(Drop)]
pub(crate) struct Taking {
    pub(crate) buffer: Buffer,
    pub(crate) taken: u64,
    pub(crate) limit: u64,
}

// Whether the session goes on.
#[derive(Clone, Copy)]
pub(crate) enum Turn {
    Again,
    Ends(SessionEnd),
}

// Sends a reply, and says whether the session goes on.
fn send_reply<O: Sink>(output: &mut O, reply: &[u8], close: bool) -> Turn
    ensures is { IsSent (O.told output.old) (O.told output.new) reply.now close result }
    ensures later { (O.told output.old).faults ≤ (O.told output.new).faults }
    ensures fault { result ≡ Turn.Ends SessionEnd.WriteFault
        → RoseBy 1 (O.told output.old).faults (O.told output.new).faults }
    ensures no_read { ends_by_read result ≡ false }
{
    match send(output, reply) {
        Ok(()) => {
            if close {
                Turn::Ends(SessionEnd::Done)
            } else {
                Turn::Again
            }
        }
        Err(SinkRefusal::Failed) => Turn::Ends(SessionEnd::WriteFault),
        Err(SinkRefusal::OutOfMemory) => Turn::Ends(SessionEnd::OutOfMemory),
    }
}

// Answers the request that the bytes begin with.
fn answer_request<H: Handler, K: Keeper, O: Sink>(
    alloc: Global,
    handler: &H,
    world: &mut H::World,
    keeper: &mut K,
    bytes: &[u8],
    request: Request,
    output: &mut O,
) -> Turn
    requires kept { Tells (K.told keeper.old).rows (H.rows world.old) }
    requires begins { BeginsWith bytes.now request }
    ensures is { (asked : Asked) (rest : List ℕ) → Takes bytes.now asked rest
        → IsRequest bytes.now request asked
        → IsAnswered H.steps H.fixed asked (stage world.old (K.told keeper.old).faults)
        (stage world.new (K.told keeper.new).faults) (O.told output.old) (O.told output.new)
        request.close result }
    ensures kept { IsStored (H.rows world.new) (K.told keeper.old) (K.told keeper.new) }
    ensures later { (O.told output.old).faults ≤ (O.told output.new).faults }
    ensures fault { result ≡ Turn.Ends SessionEnd.WriteFault
        → RoseBy 1 (O.told output.old).faults (O.told output.new).faults }
    ensures no_read { ends_by_read result ≡ false }
{
    let close = request.close;
    match handler.answer(world, alloc, keeper, bytes, request) {
        Answer::Reply(reply) => send_reply(output, reply.as_slice(), close),
        Answer::StoreFault(reply) => send_reply(output, reply.as_slice(), close),
        Answer::NoMemory => send_reply(output, H::no_memory(close), close),
        Answer::Unwritten => Turn::Ends(SessionEnd::OutOfMemory),
    }
}

// Sends the reply of a refusal, which closes the session.
fn send_refusal<H: Handler, O: Sink>(alloc: Global, output: &mut O, bad: BadBytes) -> Turn
    ensures is { IsSent (O.told output.old) (O.told output.new) (H.fixed.refusal bad) true
        result }
    ensures later { (O.told output.old).faults ≤ (O.told output.new).faults }
    ensures fault { result ≡ Turn.Ends SessionEnd.WriteFault
        → RoseBy 1 (O.told output.old).faults (O.told output.new).faults }
    ensures no_read { ends_by_read result ≡ false }
{
    let Ok(reply) = H::refusal(alloc, bad) else {
        return Turn::Ends(SessionEnd::OutOfMemory);
    };
    send_reply(output, reply.as_slice(), true)
}

// Waits for one request and answers it.
pub(crate) fn take_turn<H: Handler, K: Keeper, I: Source, O: Sink>(
    alloc: Global,
    handler: &H,
    world: &mut H::World,
    keeper: &mut K,
    input: &mut I,
    output: &mut O,
    taking: &mut Taking,
) -> Turn
    requires kept { Tells (K.told keeper.old).rows (H.rows world.old) }
    requires within { taking.old.taken ≤ taking.old.limit }
    ensures is { IsTurn H.steps H.fixed taking.old.limit
        (record {
          scene = scene world.old (K.told keeper.old) (I.told input.old) (O.told output.old);
          buffer = taking.old.buffer;
          taken = taking.old.taken;
        })
        (record {
          scene = scene world.new (K.told keeper.new) (I.told input.new) (O.told output.new);
          buffer = taking.new.buffer;
          taken = taking.new.taken;
        }) result }
    ensures kept { IsStored (H.rows world.new) (K.told keeper.old) (K.told keeper.new) }
    ensures limit { taking.new.limit ≡ taking.old.limit }
    ensures within { taking.new.taken ≤ taking.old.limit }
    ensures read_later { (I.told input.old).faults ≤ (I.told input.new).faults }
    ensures write_later { (O.told output.old).faults ≤ (O.told output.new).faults }
    ensures read_fault { result ≡ Turn.Ends SessionEnd.ReadFault
        → RoseBy 1 (I.told input.old).faults (I.told input.new).faults }
    ensures write_fault { result ≡ Turn.Ends SessionEnd.WriteFault
        → RoseBy 1 (O.told output.old).faults (O.told output.new).faults }
    ensures last_read { has_failed (I.told input.old) ≡ false
        → has_failed (I.told input.new) ≡ ends_by_read result }
{
    match await_request(input, &mut taking.buffer, &mut taking.taken, taking.limit) {
        Awaited::Found(request) => {
            let turn = answer_request::<H, K, O>(
                alloc,
                handler,
                world,
                keeper,
                taking.buffer.as_slice(),
                request,
                output,
            );
            taking.buffer.drop_front(request.body.end);
            turn
        }
        Awaited::Stopped(Stop::Bad(bad)) => send_refusal::<H, O>(alloc, output, bad),
        Awaited::Stopped(Stop::AtEnd) => Turn::Ends(SessionEnd::Done),
        Awaited::Stopped(Stop::NoRead) => Turn::Ends(SessionEnd::ReadFault),
        Awaited::Stopped(Stop::Spent) => Turn::Ends(SessionEnd::Budget),
    }
}
