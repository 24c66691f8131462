//! Calls of the lab by which agents in other processes follow the rows.
ghost use Rattle.std.specs.Prelude.{◌≡◌, IfErr, IfOk};
ghost use Rattle.lab_world.specs.Lab.{Answered, IsBarred, lab_outcome};

use crate::lab::{ensure_admin, kept_change};
use crate::world::World;
use api_types::{Caller, Refusal};
use plane_types::{LabAnswer, LabCall};
use std::alloc::Global;
use wire_types::{copy_change, copy_page};

impl World {
    /// The numbers of the kept changes. The last is the current version.
    pub(crate) fn version_told(&self, caller: &Caller) -> Result<LabAnswer, Refusal>
        ensures ok { IfOk result
            (λ answer. lab_outcome self.now caller.now LabCall.Version ≡ Answered answer self.now) }
        ensures err { IfErr result (IsBarred (lab_outcome self.now caller.now LabCall.Version)) }
    {
        ensure_admin(caller)?;
        Ok(LabAnswer::Version {
            first: self.bus.first(),
            last: self.bus.last(),
        })
    }

    /// The change with this number, if it is kept. Its cost grows with the change.
    pub(crate) fn change_told(
        &self,
        alloc: Global,
        caller: &Caller,
        number: u64,
    ) -> Result<LabAnswer, Refusal>
        ensures ok { IfOk result
            (λ answer. lab_outcome self.now caller.now (LabCall.Change number)
            ≡ Answered answer self.now) }
        ensures err { IfErr result
            (IsBarred (lab_outcome self.now caller.now (LabCall.Change number))) }
    {
        ensure_admin(caller)?;
        let change = kept_change(&self.bus, number)?;
        let items = copy_change(alloc, change)?;
        Ok(LabAnswer::Change { number, items })
    }

    /// A page of the rows, if they have this version: at most 64 rows. Its cost is that of these.
    pub(crate) fn page_told(
        &self,
        alloc: Global,
        caller: &Caller,
        version: u64,
        number: u64,
    ) -> Result<LabAnswer, Refusal>
        ensures ok { IfOk result
            (λ answer. lab_outcome self.now caller.now (LabCall.Page version number)
            ≡ Answered answer self.now) }
        ensures err { IfErr result
            (IsBarred (lab_outcome self.now caller.now (LabCall.Page version number))) }
    {
        ensure_admin(caller)?;
        let now = self.machine.version();
        if version != now {
            return Err(Refusal::VersionMoved {
                asked: version,
                now,
            });
        }
        let found = copy_page(alloc, self.machine.rows(), number)?;
        match found {
            Some(page) => Ok(LabAnswer::Page {
                version,
                number,
                last: page.last,
                rows: page.rows,
            }),
            None => Err(Refusal::NoPage { number }),
        }
    }
}
