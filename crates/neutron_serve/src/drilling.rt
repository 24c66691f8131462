//! A drill: a session over requests that are made, and its summary.
ghost use Rattle.std.specs.Prelude.{◌≡◌, ◌++◌, true, false, IfOk, OnErr, OnOk, string_bytes};
ghost use Rattle.keeper_core.specs.Counts.{RoseBy};
ghost use Rattle.world_laws.specs.World.{IsSynced};
ghost use Rattle.neutron_serve.specs.Drills.{IsDrillText, IsDrilled, RunsDrill, count_line, counted, fresh_drill, fresh_tally, is_delivered, is_outside, summary_text};
ghost use Rattle.neutron_serve.specs.Replies.{code_in, reply_written};
ghost use Rattle.neutron_serve.specs.Status.{is_drilling};

use crate::api::{Api, Handled, reply_to};
use crate::reply::{reply_status, write};
use crate::serving::BUDGET;
use crate::status::Status;
use api_types::{Refusal, Rows};
use drill_gen::drill;
use http_session::{Answer, BadBytes, Handler, Request, SessionEnd, send};
use keeper_core::{Keeper, Sink, SinkRefusal, SureKeeper, SureSink, SureSource};
use lab_world::World;
use net_addr::{Bytes, OutOfMemory};
use net_settings::default_settings;
use neutron_http::{Routes, no_memory_reply};
use plane_types::{LabAnswer, Outcome, Reply};
use std::alloc::Global;

// How many bytes of the made requests are read at once.
const PIECE: usize = 65_536;

/// What is counted of a drill's replies. A count stands still at its type's end.
#[derive(Clone, Copy, Debug, PartialEq, Eq)]
pub(crate) struct Tally {
    /// The replies.
    requests: u64,
    /// Those of status 201.
    created: u64,
    /// Those of status 200.
    fine: u64,
    /// Those of status 409.
    conflicts: u64,
    /// The verdicts on frames that were delivered.
    delivered: u64,
    /// Whether each request had its reply, and all hosts had heard of each change after it.
    whole: bool,
}

impl Tally {
    fn new() -> Tally
        ensures { result ≡ fresh_tally }
    {
        Tally {
            requests: 0,
            created: 0,
            fine: 0,
            conflicts: 0,
            delivered: 0,
            whole: true,
        }
    }

    fn count(&mut self, code: u16, is_delivered: bool)
        ensures { self.new ≡ counted code is_delivered self.old }
    {
        self.requests = self.requests.saturating_add(1);
        match code {
            201 => self.created = self.created.saturating_add(1),
            200 => self.fine = self.fine.saturating_add(1),
            409 => self.conflicts = self.conflicts.saturating_add(1),
            _ => {}
        }
        if is_delivered {
            self.delivered = self.delivered.saturating_add(1);
        }
    }
}

/// A world, and what is counted of the requests that it answered.
#[derive(Drop)]
pub(crate) struct Drill {
    world: World,
    tally: Tally,
}

// Whether a reply tells of a frame that was delivered.
fn has_delivered(reply: &Reply) -> bool
    ensures { result ≡ is_delivered reply.now }
{
    match reply {
        Reply::LabDone(LabAnswer::Seen(verdict)) => match &verdict.outcome {
            Outcome::Delivered { .. } => true,
            _ => false,
        },
        _ => false,
    }
}

// Whether memory ran out or the store failed.
fn is_refused_outside(reply: &Reply) -> bool
    ensures { result ≡ is_outside reply.now }
{
    match reply {
        Reply::Refused(Refusal::OutOfMemory | Refusal::StoreFault) => true,
        _ => false,
    }
}

impl Drill {
    // The bytes of a reply, which is counted. Where memory ran out, the store failed or a host
    // hasn't heard of a change, there are none and all is as it was.
    fn note(&mut self, alloc: Global, close: bool, reply: &Reply) -> Result<Bytes, OutOfMemory>
        ensures bytes { IfOk result (λ bytes. bytes ≡ reply_written close reply.now) }
        ensures tally { OnOk result
            (self.new.tally ≡ counted (code_in reply.now) (is_delivered reply.now) self.old.tally) }
        ensures whole { OnOk result (self.old.tally.whole ≡ true) }
        ensures inside { OnOk result (is_outside reply.now ≡ false) }
        ensures heard { OnOk result (IsSynced self.old.world) }
        ensures err { OnErr result (self.new.tally ≡ self.old.tally) }
        ensures world { self.new.world ≡ self.old.world }
    {
        if !self.tally.whole || is_refused_outside(reply) || !self.world.synced() {
            return Err(OutOfMemory);
        }
        let bytes = write(alloc, close, reply)?;
        let code = reply_status(alloc, reply)?;
        self.tally.count(code, has_delivered(reply));
        Ok(bytes)
    }
}

/// The Networking API over a world, whose replies are counted. A request for which
/// memory ran out or the store failed ends the session.
#[derive(Drop)]
struct Counting {
    routes: Routes,
}

impl Handler for Counting {
    type World = Drill;

    ghost use Rattle.neutron_serve.specs.Drills.{DrillSteps, drill_replies};

    ghost steps = { DrillSteps };

    ghost fixed = { drill_replies };

    ghost rows = { λ drill. drill.world.history.rows };

    fn make(alloc: Global) -> Result<Counting, OutOfMemory> {
        Ok(Counting {
            routes: Routes::make(alloc)?,
        })
    }

    fn answer<K: Keeper>(
        &self,
        drill: &mut Drill,
        alloc: Global,
        keeper: &mut K,
        bytes: &[u8],
        request: Request,
    ) -> Answer {
        let Handled { reply, same: _ } = reply_to(
            &self.routes,
            &mut drill.world,
            alloc,
            keeper,
            bytes,
            &request,
        );
        match drill.note(alloc, request.close, &reply) {
            Ok(written) => Answer::Reply(written),
            Err(OutOfMemory) => {
                drill.tally.whole = false;
                Answer::Unwritten
            }
        }
    }

    fn no_memory(close: bool) -> &'static [u8] {
        no_memory_reply(close)
    }

    fn refusal(alloc: Global, bad: BadBytes) -> Result<Bytes, OutOfMemory> {
        Api::refusal(alloc, bad)
    }
}

// The replies of a drill, what was counted of them, and the version of the rows after it.
#[derive(Drop)]
struct Drilled {
    replies: SureSink,
    tally: Tally,
    version: u64,
}

// A world without rows under the default settings, whose hosts hear of each change at once.
fn first_drill(alloc: Global) -> Result<Drill, OutOfMemory>
    ensures { IfOk result (λ drill. drill ≡ fresh_drill) }
{
    let rows = Rows::empty(alloc)?;
    let settings = default_settings(alloc)?;
    match World::open(alloc, rows, settings, false) {
        Ok(world) => Ok(Drill {
            world,
            tally: Tally::new(),
        }),
        Err(_) => Err(OutOfMemory),
    }
}

// The drill of this size whose draws start here.
fn drill_of(alloc: Global, start: u64, size: u32) -> Result<Drilled, OutOfMemory>
    ensures { IfOk result (λ d. IsDrilled start size d.replies.written d.tally d.version) }
{
    let requests = drill(alloc, start, size)?;
    let mut input = SureSource::make(requests, PIECE);
    let mut replies = SureSink::make(alloc);
    let mut keeper = SureKeeper::make(Rows::empty(alloc)?);
    let mut drill = first_drill(alloc)?;
    let end = http_session::session::<Counting, SureKeeper, SureSource, SureSink>(
        alloc,
        &mut drill,
        &mut keeper,
        &mut input,
        &mut replies,
        BUDGET,
    );
    match end {
        SessionEnd::Done if drill.tally.whole => Ok(Drilled {
            replies,
            tally: drill.tally,
            version: drill.world.version(),
        }),
        _ => Err(OutOfMemory),
    }
}

// Adds the line of a count.
fn add_count(alloc: Global, text: &mut String, name: &str, count: u64) -> Result<(), OutOfMemory>
    ensures { OnOk result
        (string_bytes text.new ≡ string_bytes text.old ++ count_line name.now count) }
{
    let line = format!(in alloc; "{name} {count}\n")?;
    text.push_str(line.as_str())?;
    Ok(())
}

fn summary(alloc: Global, tally: &Tally, version: u64) -> Result<String, OutOfMemory>
    ensures { IfOk result (λ text. string_bytes text ≡ summary_text tally.now version) }
{
    let mut text = String::new(alloc);
    add_count(alloc, &mut text, "requests", tally.requests)?;
    add_count(alloc, &mut text, "201", tally.created)?;
    add_count(alloc, &mut text, "200", tally.fine)?;
    add_count(alloc, &mut text, "409", tally.conflicts)?;
    add_count(alloc, &mut text, "delivered", tally.delivered)?;
    add_count(alloc, &mut text, "version", version)?;
    Ok(text)
}

// What a drill writes: its replies, where they are wanted, and its summary.
fn drill_bytes(alloc: Global, start: u64, size: u32, replies: bool) -> Result<Vec<u8>, OutOfMemory>
    ensures { IfOk result (λ bytes. IsDrillText start size replies bytes.items) }
{
    let drilled = drill_of(alloc, start, size)?;
    let summary = summary(alloc, &drilled.tally, drilled.version)?;
    let mut bytes = Vec::new(alloc);
    if replies {
        bytes.extend_from_slice(drilled.replies.as_slice())?;
    }
    bytes.extend_from_slice(summary.as_bytes())?;
    Ok(bytes)
}

/// Runs a drill and writes its replies, if they are wanted, and its summary. It is done if all was
/// written and flushed. If a write or a flush failed, or memory ran out, a front of it is written.
pub(crate) fn run_drill<O: Sink>(
    alloc: Global,
    start: u64,
    size: u32,
    replies: bool,
    output: &mut O,
) -> Status
    ensures runs { RunsDrill start size replies result (O.told output.old) (O.told output.new) }
    ensures write_fault { result ≡ Status.WriteFault
        → RoseBy 1 (O.told output.old).faults (O.told output.new).faults }
    ensures drilling { is_drilling result ≡ true }
{
    let Ok(bytes) = drill_bytes(alloc, start, size, replies) else {
        return Status::OutOfMemory;
    };
    match send(output, bytes.as_slice()) {
        Ok(()) => Status::Done,
        Err(SinkRefusal::Failed) => Status::WriteFault,
        Err(SinkRefusal::OutOfMemory) => Status::OutOfMemory,
    }
}
