//! What the program does.
ghost use Rattle.std.specs.Prelude.{◌≡◌, ◌≤◌, None, true};
ghost use Rattle.command_lines.specs.Lines.{line_of};
ghost use Rattle.command_lines.specs.declared.line.Line.TheVariants.{Session as TheSession};
ghost use Rattle.keeper_core.specs.Counts.{RoseBy, Tells};
ghost use Rattle.keeper_core.specs.Desk.{IsNoneOut};
ghost use Rattle.keeper_core.specs.Kept.{IsStored};
ghost use Rattle.neutron_serve.specs.Connections.{Listens, carried};
ghost use Rattle.openings.specs.Openings.{AreBadSettings, AreBroken, DeskRose};
ghost use Rattle.neutron_serve.specs.Runs as runs;
ghost use Rattle.neutron_serve.specs.Status.{is_listening, is_serving, status_code};
ghost use Rattle.neutron_serve.specs.declared.status.Status.{Status as TheStatus};

use crate::drilling::run_drill;
use crate::opening::open;
use crate::serving::{BUDGET, serve_all};
use crate::sessions::session;
use crate::status::Status;
use command_lines::{Line, Opening, Refusal, read_line};
use keeper_core::{Desk, DeskRefusal};
use lab_world::World;
use net_addr::Text;
use std::alloc::Global;

// One session over the input and the output.
fn run_session<D: Desk>(
    alloc: Global,
    opening: &Opening,
    desk: &mut D,
    input: &mut D::In,
    output: &mut D::Out,
) -> Status
    ensures runs { runs.RunsLine D.told D.In.told D.Out.told (TheSession opening.now) result
        (runs.outside desk.old input.old output.old)
        (runs.outside desk.new input.new output.new) }
    ensures read_fault { result ≡ Status.ReadFault
        → RoseBy 1 (D.In.told input.old).faults (D.In.told input.new).faults }
    ensures write_fault { result ≡ Status.WriteFault
        → RoseBy 1 (D.Out.told output.old).faults (D.Out.told output.new).faults }
    ensures bad_settings { result ≡ Status.BadSettings
        → AreBadSettings (D.told desk.old).files opening.now.settings }
    ensures broken_rows { result ≡ Status.Inconsistent
        → AreBroken opening.now (D.told desk.old) }
    ensures outside { result ≡ Status.Failed → DeskRose (D.told desk.old) (D.told desk.new) }
    ensures words { result ≡ Status.WrongWords → ⊥ }
{
    match open(alloc, desk, opening) {
        Ok((mut world, mut store)) => {
            let end = session(alloc, &mut world, &mut store, input, output, BUDGET);
            desk.close(store);
            Status::of_end(end)
        }
        Err(why) => Status::of_unopened(why),
    }
}

// Listens, and serves the connections that come.
fn listen_and_serve<D: Desk>(
    alloc: Global,
    desk: &mut D,
    world: &mut World,
    store: &mut D::Store,
    address: &Text,
    most: u64,
) -> Status
    requires kept { Tells (D.Store.told store.old).rows world.old.history.rows }
    requires none_out { IsNoneOut (D.told desk.old) }
    ensures listens { Listens D.In.told D.Out.told address.now most result
        (carried world.old (D.Store.told store.old) (D.told desk.old))
        (carried world.new (D.Store.told store.new) (D.told desk.new)) }
    ensures outside { result ≡ Status.Failed
        → RoseBy 1 (D.told desk.old).faults (D.told desk.new).faults }
    ensures serving { is_listening result ≡ true }
    ensures kept { IsStored world.new.history.rows (D.Store.told store.old)
        (D.Store.told store.new) }
    ensures later { (D.told desk.old).faults ≤ (D.told desk.new).faults }
{
    match desk.listen(alloc, address) {
        Ok(()) => serve_all(alloc, desk, world, store, most),
        Err(DeskRefusal::Failed) => Status::Failed,
        Err(DeskRefusal::OutOfMemory) => Status::OutOfMemory,
    }
}

// Sessions over connections, one after the other.
fn run_serve<D: Desk>(
    alloc: Global,
    opening: &Opening,
    address: &Text,
    most: u64,
    desk: &mut D,
) -> Status
    requires { IsNoneOut (D.told desk.old) }
    ensures runs { runs.RunsServe D.In.told D.Out.told opening.now address.now most result
        (D.told desk.old) (D.told desk.new) }
    ensures bad_settings { result ≡ Status.BadSettings
        → AreBadSettings (D.told desk.old).files opening.now.settings }
    ensures broken_rows { result ≡ Status.Inconsistent
        → AreBroken opening.now (D.told desk.old) }
    ensures outside { result ≡ Status.Failed → DeskRose (D.told desk.old) (D.told desk.new) }
    ensures serving { is_serving result ≡ true }
{
    match open(alloc, desk, opening) {
        Ok((mut world, mut store)) => {
            let status = listen_and_serve(alloc, desk, &mut world, &mut store, address, most);
            desk.close(store);
            status
        }
        Err(why) => Status::of_unopened(why),
    }
}

// What a command line asks for.
fn run_line<D: Desk>(
    alloc: Global,
    line: &Line,
    desk: &mut D,
    input: &mut D::In,
    output: &mut D::Out,
) -> Status
    requires { IsNoneOut (D.told desk.old) }
    ensures runs { runs.RunsLine D.told D.In.told D.Out.told line.now result
        (runs.outside desk.old input.old output.old)
        (runs.outside desk.new input.new output.new) }
    ensures read_fault { result ≡ Status.ReadFault
        → RoseBy 1 (D.In.told input.old).faults (D.In.told input.new).faults }
    ensures write_fault { result ≡ Status.WriteFault
        → RoseBy 1 (D.Out.told output.old).faults (D.Out.told output.new).faults }
    ensures bad_settings { result ≡ Status.BadSettings
        → runs.HasBadSettings (runs.opening_in line.now) (D.told desk.old) }
    ensures broken_rows { result ≡ Status.Inconsistent
        → runs.HasBrokenRows (runs.opening_in line.now) (D.told desk.old) }
    ensures outside { result ≡ Status.Failed → DeskRose (D.told desk.old) (D.told desk.new) }
    ensures budget { result ≡ Status.Budget → runs.is_session_in line.now ≡ true }
    ensures words { result ≡ Status.WrongWords → ⊥ }
{
    match line {
        Line::Session { opening } => run_session(alloc, opening, desk, input, output),
        Line::Serve {
            opening,
            listen,
            connections,
        } => run_serve(alloc, opening, listen, *connections, desk),
        Line::Drill {
            start,
            size,
            replies,
        } => run_drill(alloc, *start, *size, *replies, output),
    }
}

/// Runs the command that the arguments after the program's name give.
///
/// `session` answers the requests of `input` on `output`. `serve` does so with one connection
/// after the other that the desk hands out, and the world is carried on; a connection's end is not
/// that of the program. Both ask the desk for the settings that the arguments name, and then for
/// the store. Without a name the settings are the default ones, and the rows are kept in memory
/// alone. `drill` runs a session over requests that are made, asks the desk for nothing, and writes
/// a summary to `output`.
///
/// The status is
/// - 0 if the input was read to its end or to a request that ends the session, if the connections
///   were served or none is left, and if a drill's summary is written,
/// - 1 exactly if the arguments are no command line,
/// - 2 if a read of `input` failed, in `session`,
/// - 3 if a write or a flush of `output` failed, in `session` and `drill`,
/// - 4 if memory ran out outside a reply, and in `drill` for any,
/// - 5 exactly if the bytes of the settings aren't in their grammar,
/// - 6 exactly if the rows of the store aren't consistent,
/// - 7 if the desk failed, or the store before the first request,
/// - 8 exactly if a session needs a further read and has taken 2^40 bytes.
///
/// Arguments, settings, store, rows and the address are looked at in this order, and nothing is
/// asked for after a refusal. A connection is asked for only while none is out. The store that was
/// opened is closed and each connection is handed back before it answers.
///
/// What a desk and its ends tell exists in proofs alone. Files, sockets and databases tell next to
/// nothing, so over them these clauses say little by themselves. They hold there all the same:
/// `run` is proved for every desk, and code can't read what a desk tells. So whatever it does with
/// a desk that tells nothing, it does with one that answers each call alike and tells all.
pub fn run<D: Desk>(
    alloc: Global,
    words: &[Text],
    desk: &mut D,
    input: &mut D::In,
    output: &mut D::Out,
) -> u8
    requires { IsNoneOut (D.told desk.old) }
    ensures runs { (status : TheStatus) × (result ≡ status_code status)
        × runs.Runs D.told D.In.told D.Out.told (line_of words.now) status
        (runs.outside desk.old input.old output.old)
        (runs.outside desk.new input.new output.new) }
    ensures wrong_words { result ≡ 1 → line_of words.now ≡ None }
    ensures read_fault { result ≡ 2
        → RoseBy 1 (D.In.told input.old).faults (D.In.told input.new).faults }
    ensures write_fault { result ≡ 3
        → RoseBy 1 (D.Out.told output.old).faults (D.Out.told output.new).faults }
    ensures bad_settings { result ≡ 5
        → runs.HasBadSettings (runs.opening_of (line_of words.now)) (D.told desk.old) }
    ensures broken_rows { result ≡ 6
        → runs.HasBrokenRows (runs.opening_of (line_of words.now)) (D.told desk.old) }
    ensures outside { result ≡ 7 → DeskRose (D.told desk.old) (D.told desk.new) }
    ensures budget { result ≡ 8 → runs.is_session_line (line_of words.now) ≡ true }
    ensures complete { runs.IsSound D.told D.In.told D.Out.told (line_of words.now)
        (runs.outside desk.old input.old output.old)
        (runs.outside desk.new input.new output.new)
        → runs.EndsWell (line_of words.now) result }
{
    match read_line(alloc, words) {
        Ok(line) => run_line(alloc, &line, desk, input, output).code(),
        Err(Refusal::Wrong) => Status::WrongWords.code(),
        Err(Refusal::OutOfMemory) => Status::OutOfMemory.code(),
    }
}
