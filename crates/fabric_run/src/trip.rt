//! The loop of a run: look-up after look-up, to a bound.

ghost use Rattle.std.specs.Prelude.{◌≡◌, ◌≤◌, [], ℕ, List, OnOk, count_by, length};
ghost use Rattle.plane_types.specs.Fabric.{run_from as begun_with, walk};
ghost use Rattle.plane_types.specs.Hosts.{is_named};
ghost use Rattle.fabric_run.specs.Views.{IsFate, IsWithin, position_fate};

use crate::fleet::Fleet;
use crate::position::{Position, advance};
use crate::run::Run;
use net_addr::OutOfMemory;
use std::alloc::Global;

/// From a position on, at most this many look-ups.
pub(crate) fn travel<'f, F: Fleet>(
    alloc: Global,
    fleet: &'f F,
    many: u16,
    position: &mut Position<'f>,
    run: &mut Run,
) -> Result<(), OutOfMemory>
    requires within { IsWithin (F.hosts fleet.now) position.old }
    requires names { (name : List ℕ) → count_by (is_named name) (F.hosts fleet.now) ≤ 1 }
    requires begun { (run.old.fresh.items ≡ []) × (run.old.made ≡ []) × (run.old.trail ≡ []) }
    requires room { 258 ≤ run.old.fresh.spare }
    requires bounded { length
        (position_fate (F.hosts fleet.now) (walk (F.hosts fleet.now) many) position.old
        (begun_with run.old.path)).run.fresh
        ≤ 256 }
    ensures { OnOk result
        (IsFate (F.hosts fleet.now) position.new run.new
        (position_fate (F.hosts fleet.now) (walk (F.hosts fleet.now) many) position.old
        (begun_with run.old.path))) }
{
    for looks in 0..many {
        advance(alloc, fleet, run, position)?;
    }
    Ok(())
}
