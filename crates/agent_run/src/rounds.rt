//! One round: a link is opened, the server is asked, and its reply is heard.

ghost use Rattle.std.specs.Prelude.{◌≡◌, ◌⊎◌, ◌≤◌, IfOk, MatchOption, None, OnErr, Some};
ghost use Rattle.keeper_core.specs.Counts.{IsFailure, RoseBy};
ghost use Rattle.wire_types.specs.declared.step.WireStep.{WireStep as Step};
ghost use Rattle.wire_laws.specs.WireStates.{ask_of};
ghost use Rattle.wire_replies.specs.Requests.{request_bytes};
ghost use Rattle.agent_wire.specs.HostAgents.{HearsBytes};
ghost use Rattle.agent_run.specs.Rounds as rounds;

use agent_links::{Link, LinkRefusal, read_whole};
use agent_wire::WireAgent;
use http_session::send;
use keeper_core::{OutsideRefusal, Sink, Source};
use net_addr::{Bytes, OutOfMemory, Text};
use std::alloc::Global;
use wire_replies::write_ask;
use wire_types::{WireAsk, WireStep};

// Asks over a link, and reads the first whole reply, if one comes.
fn exchange<I: Source, O: Sink>(
    alloc: Global,
    ask: WireAsk,
    input: &mut I,
    output: &mut O,
) -> Result<Option<Bytes>, OutsideRefusal>
    ensures ok { IfOk result (λ o. MatchOption o
        (rounds.IsUnanswered I.told O.told (request_bytes ask)
        (rounds.link_use (input.old, output.old) (input.new, output.new)))
        (λ reply. rounds.IsAnswered I.told O.told (request_bytes ask) reply
        (rounds.link_use (input.old, output.old) (input.new, output.new)))) }
    ensures err { OnErr result (rounds.HasFront I.told O.told (request_bytes ask)
        (rounds.link_use (input.old, output.old) (input.new, output.new))) }
    ensures later { ((I.told input.old).faults ≤ (I.told input.new).faults)
        × ((O.told output.old).faults ≤ (O.told output.new).faults) }
    ensures cause { IsFailure result
        → RoseBy 1 (I.told input.old).faults (I.told input.new).faults
        ⊎ RoseBy 1 (O.told output.old).faults (O.told output.new).faults }
{
    let request = write_ask(alloc, ask)?;
    send(output, request.as_slice())?;
    read_whole(alloc, input)
}

// A call failed, so the round is lost, or memory ran out.
fn without_reply(refusal: OutsideRefusal) -> Result<Option<Bytes>, OutOfMemory>
    ensures { IfOk result (λ came. (came ≡ None) × (refusal ≡ OutsideRefusal.Failed)) }
{
    match refusal {
        OutsideRefusal::Failed => Ok(None),
        OutsideRefusal::OutOfMemory => Err(OutOfMemory),
    }
}

// The whole reply of a round, or none where the round is lost.
fn ask_once<L: Link>(
    alloc: Global,
    ask: WireAsk,
    link: &mut L,
    address: &Text,
) -> Result<Option<Bytes>, OutOfMemory>
    ensures ok { IfOk result (rounds.AsksOnce L.In.told L.Out.told (request_bytes ask)
        address.now (L.told link.old) (L.told link.new)) }
    ensures err { OnErr result (rounds.WantsOnce L.In.told L.Out.told (request_bytes ask)
        address.now (L.told link.old) (L.told link.new)) }
{
    match link.open(alloc, address) {
        Ok((mut input, mut output)) => {
            let reply = exchange(alloc, ask, &mut input, &mut output);
            link.done(input, output);
            match reply {
                Ok(reply) => Ok(reply),
                Err(refusal) => without_reply(refusal),
            }
        }
        Err(LinkRefusal::Failed) => Ok(None),
        Err(LinkRefusal::OutOfMemory) => Err(OutOfMemory),
    }
}

// Hears a whole reply.
fn hear(
    alloc: Global,
    agent: &mut WireAgent,
    reply: &Bytes,
) -> Result<Option<WireStep>, OutOfMemory>
    ensures ok { IfOk result (λ said. (s : Step) × (said ≡ Some s)
        × HearsBytes agent.old reply.now s agent.new) }
    ensures same { OnErr result (agent.new ≡ agent.old) }
{
    let step = agent.heard(alloc, reply.as_slice())?;
    Ok(Some(step))
}

/// Asks once, and hears the reply. None where the round is lost. Out of memory, the agent is as
/// before.
pub(crate) fn run_round<L: Link>(
    alloc: Global,
    agent: &mut WireAgent,
    link: &mut L,
    address: &Text,
) -> Result<Option<WireStep>, OutOfMemory>
    ensures ok { IfOk result (λ said. rounds.RunsOnce L.In.told L.Out.told address.now agent.old
        (L.told link.old) (L.told link.new) said agent.new) }
    ensures err { OnErr result (rounds.WantsOnce L.In.told L.Out.told
        (request_bytes (ask_of agent.old.state)) address.now (L.told link.old)
        (L.told link.new)) }
    ensures same { OnErr result (agent.new ≡ agent.old) }
{
    let asked = agent.ask();
    let came = ask_once(alloc, asked, link, address)?;
    match came {
        Some(reply) => hear(alloc, agent, &reply),
        None => Ok(None),
    }
}
