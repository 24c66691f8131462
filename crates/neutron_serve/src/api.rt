//! The Networking API as what a session is answered with.
ghost use Rattle.std.specs.Prelude.{◌≡◌, ◌≤◌, ◌==◌, ◌&&◌, if◌then◌else◌, not, true};
ghost use Rattle.http_heads.specs.Heads.{Asked};
ghost use Rattle.http_session.specs.Requests.{IsRequest, BeginsWith};
ghost use Rattle.keeper_core.specs.Counts.{RoseBy, Tells};
ghost use Rattle.keeper_core.specs.Kept.{IsStored};
ghost use Rattle.lab_world.specs.World.{Handles, IsAskInForm, ask_outcome, is_change};
ghost use Rattle.neutron_serve.specs.Replies.{refusal_bytes};
ghost use Rattle.neutron_serve.specs.Causes.{cause_in, tells_entries};
ghost use Rattle.neutron_serve.specs.Causes as causes;
ghost use Rattle.neutron_serve.specs.Requests.{request_of};
ghost use Rattle.neutron_serve.specs.Steps.{byte_refusal, request_outcome};

use crate::reply::write;
use crate::request::read_request;
use api_types::{Caller, Refusal};
use http_session::{Answer, BadBytes, Handler, Request};
use keeper_core::Keeper;
use lab_world::World;
use net_addr::{Bytes, OutOfMemory};
use neutron_http::{Routes, no_memory_reply};
use plane_types::{Ask, LabAnswer, LabCall, Reply};
use std::alloc::Global;

// A reply, and whether all is known to be as it was.
#[derive(Drop)]
pub(crate) struct Handled {
    pub(crate) reply: Reply,
    pub(crate) same: bool,
}

// What is answered to an ask that was read.
fn handle_ask<K: Keeper>(
    world: &mut World,
    alloc: Global,
    keeper: &mut K,
    caller: &Caller,
    ask: &Ask,
) -> Handled
    requires kept { Tells (K.told keeper.old).rows world.old.history.rows }
    requires in_form { IsAskInForm caller.now ask.now }
    ensures handled { Handles (ask_outcome world.old caller.now ask.now) world.old world.new
        result.reply }
    ensures same { result.same ≡ true → world.new ≡ world.old }
    ensures store_change { result.reply ≡ Reply.Refused Refusal.StoreFault
        → is_change (ask_outcome world.old caller.now ask.now) ≡ true }
    ensures store_fault { result.reply ≡ Reply.Refused Refusal.StoreFault
        → RoseBy 1 (K.told keeper.old).faults (K.told keeper.new).faults }
    ensures later { (K.told keeper.old).faults ≤ (K.told keeper.new).faults }
    ensures kept { IsStored world.new.history.rows (K.told keeper.old) (K.told keeper.new) }
{
    let before = world.version();
    let reply = world.handle(alloc, keeper, caller, ask);
    let same = is_still(world, before, ask, &reply);
    Handled { reply, same }
}

// What a request that the bytes begin with is answered.
pub(crate) fn reply_to<K: Keeper>(
    routes: &Routes,
    world: &mut World,
    alloc: Global,
    keeper: &mut K,
    bytes: &[u8],
    request: &Request,
) -> Handled
    requires kept { Tells (K.told keeper.old).rows world.old.history.rows }
    requires begins { BeginsWith bytes.now request.now }
    ensures handled { (asked : Asked) → IsRequest bytes.now request.now asked
        → Handles (request_outcome world.old (request_of asked)) world.old world.new
        result.reply }
    ensures same { result.same ≡ true → world.new ≡ world.old }
    ensures store_change { (asked : Asked) → IsRequest bytes.now request.now asked
        → result.reply ≡ Reply.Refused Refusal.StoreFault
        → is_change (request_outcome world.old (request_of asked)) ≡ true }
    ensures store_fault { result.reply ≡ Reply.Refused Refusal.StoreFault
        → RoseBy 1 (K.told keeper.old).faults (K.told keeper.new).faults }
    ensures later { (K.told keeper.old).faults ≤ (K.told keeper.new).faults }
    ensures kept { IsStored world.new.history.rows (K.told keeper.old) (K.told keeper.new) }
{
    match read_request(alloc, routes, bytes, request) {
        Ok((caller, ask)) => handle_ask(world, alloc, keeper, &caller, &ask),
        Err(refusal) => Handled {
            reply: Reply::Refused(refusal),
            same: true,
        },
    }
}

// By what a request is answered.
#[derive(Clone, Copy)]
enum Cause {
    Step,
    StoreFault,
    NoMemory,
}

fn cause_of(reply: &Reply) -> Cause
    ensures value { result ≡ cause_in reply.now }
    ensures store_fault { result ≡ Cause.StoreFault → reply.now ≡ Reply.Refused Refusal.StoreFault }
    ensures no_memory { result ≡ Cause.NoMemory → reply.now ≡ Reply.Refused Refusal.OutOfMemory }
{
    match reply {
        Reply::Refused(Refusal::OutOfMemory) => Cause::NoMemory,
        Reply::Refused(Refusal::StoreFault) => Cause::StoreFault,
        _ => Cause::Step,
    }
}

// Whether hosts may have kept entries: the answer tells of some.
fn keeps_entries(answer: &LabAnswer) -> bool
    ensures { result ≡ tells_entries answer.now }
{
    match answer {
        LabAnswer::Seen(verdict) => !verdict.fresh.is_empty(),
        LabAnswer::Told(_) | LabAnswer::Hosts(_) | LabAnswer::Tables(_) => false,
        LabAnswer::Version { .. } | LabAnswer::Change { .. } | LabAnswer::Page { .. } => false,
    }
}

// Whether hosts may be others than before a call of the lab that is answered so.
fn moves_hosts(call: &LabCall, answer: &LabAnswer) -> bool
    ensures { result ≡ causes.moves_hosts call.now answer.now }
{
    match call {
        LabCall::Frames(_) => keeps_entries(answer),
        LabCall::Explain(_) | LabCall::Hosts | LabCall::Tables(_) => false,
        LabCall::Version | LabCall::Change { .. } | LabCall::Page { .. } => false,
        LabCall::Deliver { .. }
        | LabCall::Resync(_)
        | LabCall::Restart(_)
        | LabCall::Forget(_)
        | LabCall::Settle => true,
    }
}

// Whether hosts may be others than before an ask that is answered so.
fn may_move(ask: &Ask, reply: &Reply) -> bool
    ensures { result ≡ causes.may_move ask.now reply.now }
{
    match (ask, reply) {
        (Ask::Lab(call), Reply::LabDone(answer)) => moves_hosts(call, answer),
        _ => false,
    }
}

// Whether the world is at a version still, and its hosts can't have moved.
fn is_still(world: &World, version: u64, ask: &Ask, reply: &Reply) -> bool
    ensures { result
        ≡ (world.now.history.version == version) && not (causes.may_move ask.now reply.now) }
{
    world.version() == version && !may_move(ask, reply)
}

// A reply could not be written. Where nothing changed, the request is refused because memory ran
// out.
fn unwritten(same: bool) -> Answer
    ensures { result ≡ (if same then Answer.NoMemory else Answer.Unwritten) }
{
    if same {
        Answer::NoMemory
    } else {
        Answer::Unwritten
    }
}

// The refusal of bytes.
fn refusal_of(bad: BadBytes) -> Refusal
    ensures { result ≡ byte_refusal bad }
{
    match bad {
        BadBytes::Malformed => Refusal::Malformed,
        BadBytes::HeadLarge => Refusal::HeadLarge,
        BadBytes::BodyLarge => Refusal::BodyLarge,
        BadBytes::NoLength => Refusal::NoLength,
    }
}

/// The Networking API, over a world.
#[derive(Drop)]
pub(crate) struct Api {
    routes: Routes,
}

impl Handler for Api {
    type World = World;

    ghost use Rattle.neutron_serve.specs.Steps.{Steps, fixed_replies};

    ghost steps = { Steps };

    ghost fixed = { fixed_replies };

    ghost rows = { λ world. world.history.rows };

    fn make(alloc: Global) -> Result<Api, OutOfMemory> {
        Ok(Api {
            routes: Routes::make(alloc)?,
        })
    }

    fn answer<K: Keeper>(
        &self,
        world: &mut World,
        alloc: Global,
        keeper: &mut K,
        bytes: &[u8],
        request: Request,
    ) -> Answer {
        let Handled { reply, same } = reply_to(&self.routes, world, alloc, keeper, bytes, &request);
        match cause_of(&reply) {
            Cause::NoMemory => Answer::NoMemory,
            Cause::StoreFault => match write(alloc, request.close, &reply) {
                Ok(written) => Answer::StoreFault(written),
                Err(OutOfMemory) => Answer::NoMemory,
            },
            Cause::Step => match write(alloc, request.close, &reply) {
                Ok(written) => Answer::Reply(written),
                Err(OutOfMemory) => unwritten(same),
            },
        }
    }

    fn no_memory(close: bool) -> &'static [u8] {
        no_memory_reply(close)
    }

    fn refusal(alloc: Global, bad: BadBytes) -> Result<Bytes, OutOfMemory> {
        write(alloc, true, &Reply::Refused(refusal_of(bad)))
    }
}
