//! What `audit` does. Begin here.

ghost use Rattle.std.specs.Prelude.{◌≡◌, IfErr, IfOk, None, string_bytes};
ghost use Rattle.keeper_core.specs.Counts.{RoseBy};
ghost use Rattle.openings.specs.Openings.{DeskRose};
ghost use Rattle.reach_audit.specs.Arguments.{arguments_of};
ghost use Rattle.reach_audit.specs.Runs.{HasBadSettings, HasBadWanted, HasBrokenRows, IsToldBy, IsUnaudited, IsWritten, RunsArguments, RunsAudit};
ghost use Rattle.reach_audit.specs.Status.{status_code};
ghost use Rattle.reach_audit.specs.declared.status.Status.{Status as TheStatus};

use crate::arguments::{Arguments, read_arguments};
use crate::audit::{Audit, audit_rows};
use crate::status::Status;
use command_lines::Refusal;
use http_session::send;
use keeper_core::{Desk, Sink, SinkRefusal};
use net_addr::Text;
use openings::read_rows;
use std::alloc::Global;

// What the audit says, if there are consistent rows and a file of what is wanted of them.
fn audit_store<D: Desk>(alloc: Global, desk: &mut D, arguments: &Arguments) -> Result<Audit, Status>
    ensures ok { IfOk result (λ audit.
        IsToldBy arguments.now audit (D.told desk.old) (D.told desk.new)) }
    ensures err { IfErr result (λ status.
        IsUnaudited status arguments.now (D.told desk.old) (D.told desk.new)) }
{
    let (_settings, rows) = read_rows(alloc, desk, &arguments.opening)?;
    let bytes = desk.settings(alloc, &arguments.wanted)?;
    match audit_rows(alloc, &rows, bytes.as_slice())? {
        Some(audit) => Ok(audit),
        None => Err(Status::BadWanted),
    }
}

// Writes the lines. If a write or a flush fails, or memory runs out, some of the first bytes are
// written.
fn write_audit<O: Sink>(audit: &Audit, output: &mut O) -> Status
    ensures { IsWritten (string_bytes audit.now.lines) audit.now.hold result
        (O.told output.old) (O.told output.new) }
{
    match send(output, audit.lines.as_bytes()) {
        Ok(()) => {
            if audit.hold {
                Status::Done
            } else {
                Status::Broken
            }
        }
        Err(SinkRefusal::Failed) => Status::WriteFault,
        Err(SinkRefusal::OutOfMemory) => Status::OutOfMemory,
    }
}

fn run_arguments<D: Desk>(
    alloc: Global,
    arguments: &Arguments,
    desk: &mut D,
    output: &mut D::Out,
) -> Status
    ensures { RunsArguments D.told D.Out.told arguments.now result desk.old desk.new output.old
        output.new }
{
    match audit_store(alloc, desk, arguments) {
        Ok(audit) => write_audit(&audit, output),
        Err(status) => status,
    }
}

/// Runs `audit --wanted FILE [--settings FILE] [--store FILE]`: writes a line for each table of the
/// wanted file, and what it writes is these lines alone.
///
/// The desk is asked for the settings that the arguments name, then for the store, which is closed
/// again once its rows are read, and last for the wanted file, as for settings. It is asked for
/// nothing after a refusal. The store isn't changed. All tables are judged before a line is
/// written.
///
/// The status is
/// - 0 if all tables hold, and 13 if some don't: all lines are written and flushed,
/// - 1 exactly if the arguments are none of `audit`,
/// - 3 if a write or a flush of `output` failed: some of the first bytes are written,
/// - 4 if memory ran out: so are some of the first bytes, or nothing,
/// - 5 exactly if the bytes of the settings aren't in their grammar,
/// - 6 exactly if the rows of the store aren't consistent,
/// - 7 if the desk or the store failed,
/// - 12 exactly if the wanted file isn't in its grammar, or names a port that isn't there, an
///   address that it doesn't hold, a port without an address of IPv4 and no address for it, or
///   addresses of two versions.
///
/// At each other status nothing is written. What is looked at first is refused first.
pub fn run_audit<D: Desk>(alloc: Global, words: &[Text], desk: &mut D, output: &mut D::Out) -> u8
    ensures runs { (status : TheStatus) × (result ≡ status_code status)
        × RunsAudit D.told D.Out.told (arguments_of words.now) status desk.old desk.new output.old
        output.new }
    ensures wrong_words { result ≡ 1 → arguments_of words.now ≡ None }
    ensures write_fault { result ≡ 3
        → RoseBy 1 (D.Out.told output.old).faults (D.Out.told output.new).faults }
    ensures bad_settings { result ≡ 5
        → HasBadSettings (arguments_of words.now) (D.told desk.old) }
    ensures broken_rows { result ≡ 6
        → HasBrokenRows (arguments_of words.now) (D.told desk.old) }
    ensures outside { result ≡ 7 → DeskRose (D.told desk.old) (D.told desk.new) }
    ensures bad_wanted { result ≡ 12
        → HasBadWanted (arguments_of words.now) (D.told desk.old) }
{
    match read_arguments(alloc, words) {
        Ok(arguments) => run_arguments(alloc, &arguments, desk, output).code(),
        Err(Refusal::Wrong) => Status::WrongWords.code(),
        Err(Refusal::OutOfMemory) => Status::OutOfMemory.code(),
    }
}
