//! What the command does. Begin here.

ghost use Rattle.std.specs.Prelude.{◌≡◌, ◌⊎◌, None};
ghost use Rattle.api_check.specs.FirstBroken.{first_broken_of};
ghost use Rattle.dvr_run.specs.Answers.{Answers, names_of, replies};
ghost use Rattle.dvr_run.specs.Runs as runs;
ghost use Rattle.dvr_run.specs.Status.{status_code};
ghost use Rattle.dvr_run.specs.Words.{opening_given};
ghost use Rattle.dvr_run.specs.declared.status.Status.{Status as TheStatus};
ghost use Rattle.keeper_core.specs.Counts.{RoseBy};
ghost use Rattle.openings.specs.Openings.{AreBadSettings, AreBroken, DeskRose};

use crate::hosts::Hosts;
use crate::status::Status;
use crate::turn::answer_input;
use crate::words::read_words;
use api_types::Rows;
use command_lines::{Opening, Refusal};
use keeper_core::{Desk, Sink, Source};
use net_addr::{OutOfMemory, Text};
use net_settings::Settings;
use openings::read_rows;
use std::alloc::Global;

// Answers the lines of the input by these rows.
fn run_rows<I: Source, O: Sink>(
    alloc: Global,
    settings: &Settings,
    rows: &Rows,
    input: &mut I,
    output: &mut O,
) -> Status
    requires { first_broken_of settings.now.hosts rows.now ≡ None }
    ensures answers { Answers rows.now (replies rows.now (names_of settings.now.hosts)) result
        (I.told input.old) (O.told output.old) (I.told input.new) (O.told output.new) }
    ensures read_fault { result ≡ Status.ReadFault
        → RoseBy 1 (I.told input.old).faults (I.told input.new).faults }
    ensures write_fault { result ≡ Status.WriteFault
        → RoseBy 1 (O.told output.old).faults (O.told output.new).faults }
{
    match Hosts::of(alloc, rows, settings.hosts()) {
        Ok(mut hosts) => answer_input(alloc, rows, &mut hosts, input, output),
        Err(OutOfMemory) => Status::OutOfMemory,
    }
}

// Answers the lines of the input by the rows that are opened.
fn run_opening<D: Desk>(
    alloc: Global,
    opening: &Opening,
    desk: &mut D,
    input: &mut D::In,
    output: &mut D::Out,
) -> Status
    ensures runs { runs.RunsOpening D.told D.In.told D.Out.told opening.now result
        (runs.outside desk.old input.old output.old)
        (runs.outside desk.new input.new output.new) }
    ensures read_fault { result ≡ Status.ReadFault
        → RoseBy 1 (D.In.told input.old).faults (D.In.told input.new).faults }
    ensures write_fault { result ≡ Status.WriteFault
        → RoseBy 1 (D.Out.told output.old).faults (D.Out.told output.new).faults }
    ensures bad_settings { result ≡ Status.BadSettings
        → AreBadSettings (D.told desk.old).files opening.now.settings }
    ensures broken_rows { result ≡ Status.Inconsistent → AreBroken opening.now (D.told desk.old) }
    ensures outside { result ≡ Status.Failed → DeskRose (D.told desk.old) (D.told desk.new) }
    ensures words { result ≡ Status.WrongWords → ⊥ }
{
    match read_rows(alloc, desk, opening) {
        Ok((settings, rows)) => run_rows(alloc, &settings, &rows, input, output),
        Err(why) => Status::of_unopened(why),
    }
}

/// Runs `dvr [--settings FILE] [--store FILE]`: answers the events of the input, one on each line,
/// one line `{"hosts":[..],"verdict":{..}}` for each, by what the rows of the store say.
///
/// A line has at most 65,536 bytes before its line feed: the body of an event, as the lab's
/// `explain` takes it. The hosts are those that handle the event where each host routes between
/// vxlan networks by copies of routers. The entries that an event makes are tracked for the lines
/// after it; before the first there are none. Each line is flushed before more is read.
///
/// The status is
/// - 0 if all lines of the input were answered,
/// - 1 exactly if the arguments are no such command line,
/// - 2 if a read failed,
/// - 3 if a write or a flush failed; a front of the lines is written,
/// - 4 if memory ran out; a front of the lines is written,
/// - 5 exactly if the bytes of the settings aren't in their grammar,
/// - 6 exactly if the rows of the store aren't consistent,
/// - 7 if the desk or the store failed,
/// - 8 exactly if a further read is needed and 2^40 bytes were read,
/// - 11 exactly if a line is longer, isn't such a body, has no line feed at its end, or names no
///   port or wire of the rows. The lines before it are answered.
///
/// Arguments, settings, store and rows are looked at in this order. The store is closed with the
/// rows that it had. The cost of a line grows with its bytes, the hosts, and what `dvr_send` costs.
pub fn run_dvr<D: Desk>(
    alloc: Global,
    words: &[Text],
    desk: &mut D,
    input: &mut D::In,
    output: &mut D::Out,
) -> u8
    ensures runs { (status : TheStatus) × (result ≡ status_code status)
        × runs.Runs D.told D.In.told D.Out.told (opening_given words.now) status
        (runs.outside desk.old input.old output.old)
        (runs.outside desk.new input.new output.new) }
    ensures wrong_words { result ≡ 1 → opening_given words.now ≡ None }
    ensures read_fault { result ≡ 2
        → RoseBy 1 (D.In.told input.old).faults (D.In.told input.new).faults }
    ensures write_fault { result ≡ 3
        → RoseBy 1 (D.Out.told output.old).faults (D.Out.told output.new).faults }
    ensures bad_settings { result ≡ 5
        → runs.HasBadSettings (opening_given words.now) (D.told desk.old) }
    ensures broken_rows { result ≡ 6
        → runs.HasBrokenRows (opening_given words.now) (D.told desk.old) }
    ensures outside { result ≡ 7 → DeskRose (D.told desk.old) (D.told desk.new) }
{
    match read_words(alloc, words) {
        Ok(opening) => run_opening(alloc, &opening, desk, input, output).code(),
        Err(Refusal::Wrong) => Status::WrongWords.code(),
        Err(Refusal::OutOfMemory) => Status::OutOfMemory.code(),
    }
}
