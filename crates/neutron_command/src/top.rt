//! The command that the words ask for.
ghost use Rattle.std.specs.Prelude.{◌≡◌, false, true};
ghost use Rattle.keeper_core.specs.Counts.{RoseBy};
ghost use Rattle.keeper_core.specs.Desk.{IsNoneOut};
ghost use Rattle.neutron_command.specs.Commands as commands;
ghost use Rattle.openings.specs.Openings.{DeskRose};

use crate::named::Named;
use agent_links::Link;
use agent_run::run_agent;
use dvr_run::run_dvr;
use keeper_core::Desk;
use net_addr::Text;
use neutron_serve::run;
use reach_audit::run_audit;
use std::alloc::Global;

/// Runs the command that the arguments after the program's name give: `dvr`, which answers the events
/// of `input` by a store at hosts that route by copies of routers; `audit`, which holds a file of who
/// is wanted to reach whom against a store; `agent`, which follows a server over links; or a command
/// of the server, as `run` does.
///
/// The status is that of `run_dvr`, `run_audit`, `run_agent` or `run`: 0 if all is well, 1 exactly if
/// the arguments are no command line, 2 if a read of `input` failed, 3 if a write or a flush of
/// `output` failed, 4 if memory ran out, 5 exactly if the bytes of the settings are none, 6 exactly if
/// the rows of the store aren't consistent, 7 if the desk or the store failed, 8 if 2^40 bytes were
/// read, 9 and 10 exactly if a reply to an agent was none of a server or its rows couldn't be taken,
/// 11 exactly if a line of `dvr` is no event of the rows, 12 exactly if the wanted file is none, or
/// names what the rows haven't, and 13 exactly if all was written and something that is wanted doesn't
/// hold. What each command asks, reads and writes is said at its call.
pub fn command<D: Desk, L: Link>(
    alloc: Global,
    words: &[Text],
    desk: &mut D,
    link: &mut L,
    input: &mut D::In,
    output: &mut D::Out,
) -> u8
    requires { IsNoneOut (D.told desk.old) }
    ensures runs { commands.Runs D.told D.In.told D.Out.told L.told L.In.told L.Out.told words.now
        (commands.named_by words.now) result
        (commands.ends desk.old link.old input.old output.old)
        (commands.ends desk.new link.new input.new output.new) }
    ensures wrong_words { result ≡ 1
        → commands.is_line words.now (commands.named_by words.now) ≡ false }
    ensures read_fault { result ≡ 2
        → RoseBy 1 (D.In.told input.old).faults (D.In.told input.new).faults }
    ensures write_fault { result ≡ 3
        → RoseBy 1 (D.Out.told output.old).faults (D.Out.told output.new).faults }
    ensures bad_settings { result ≡ 5
        → commands.HasBadSettings words.now (D.told desk.old) (commands.named_by words.now) }
    ensures broken_rows { result ≡ 6
        → commands.HasBrokenRows words.now (D.told desk.old) (commands.named_by words.now) }
    ensures outside { result ≡ 7 → DeskRose (D.told desk.old) (D.told desk.new) }
    ensures budget { result ≡ 8
        → commands.answers_input words.now (commands.named_by words.now) ≡ true }
    ensures bad_wanted { result ≡ 12
        → commands.HasBadWanted words.now (D.told desk.old) (commands.named_by words.now) }
{
    match Named::of(words) {
        Named::Dvr => run_dvr(alloc, words, desk, input, output),
        Named::Audit => run_audit(alloc, words, desk, output),
        Named::Agent => run_agent(alloc, words, desk, link, output),
        Named::Server => run(alloc, words, desk, input, output),
    }
}
