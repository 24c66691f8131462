//! What a change makes of a host: edits of its tables, which are found and given room first, and
//! are then put in.

ghost use Rattle.std.specs.Prelude.{◌≡◌, ◌+◌, ◌<◌, ◌≤◌, ◌||◌, IfOk, OnErr, OnOk, false, true};
ghost use Rattle.std.specs.List.{filter, list_any};
ghost use Rattle.api_types.specs.Consistent.{IsConsistent};
ghost use Rattle.api_types.specs.Rows.{Fits, after as rows_after};
ghost use Rattle.plane_types.specs.Attached.{is_attached};
ghost use Rattle.plane_types.specs.Delta.{all_steps, with_delta};
ghost use Rattle.plane_types.specs.Node.{CanFollow, after_change, follows, hearing};
ghost use Rattle.plane_types.specs.TablesOfRows.{tables_of_rows};
ghost use Rattle.table_edits.specs.Rewires.{LeadsOn};
ghost use Rattle.agent_node.specs.Rewired.{AreFewFor, CanTake, IsReadyFor, IsReadyTo, after_taking, rewired};

use crate::node::AgentNode;
use crate::still::{are_still, no_edits};
use api_types::{Change, Rows};
use dhcp_delta::leases_delta;
use l2_delta::ports_delta;
use l3_delta::routers_delta;
use net_addr::{Copies, OutOfMemory};
use plane_types::{Delta, Edits, Entries, Heard, HostTables, Steps};
use std::alloc::Global;
use std::marker::Brand;
use std::sync::ledger::{Blank, Ledger};

/// Edits of the tables of a host, and the rows after the change that they are for.
#[derive(Drop)]
pub struct Rewire {
    pub delta: Delta,
    pub rows: Rows,
}

// Whether edits take a row out.
fn take_any_out<T>(edits: &Edits<T>) -> bool
    ensures { result ≡ list_any (λ e. e.out) edits.now }
{
    edits.as_slice().iter().any(|edit| edit.out)
}

// Whether edits take a tap or a router out.
fn may_part(delta: &Delta) -> bool
    ensures { result
        ≡ (list_any (λ e. e.out) delta.now.l2.taps
        || list_any (λ e. e.out) delta.now.l3.routers) }
{
    take_any_out(&delta.l2.taps) || take_any_out(&delta.l3.routers)
}

// Drops the entries without a tap or router in the tables, if one of these may be gone.
fn drop_parted(entries: &mut Entries, tables: &HostTables, parts: bool)
    requires { parts ≡ false
        → filter (is_attached tables.now.lists) entries.old.items ≡ entries.old.items }
    ensures items { entries.new.items ≡ filter (is_attached tables.now.lists) entries.old.items }
    ensures spare { entries.old.spare ≤ entries.new.spare }
{
    if parts {
        entries.keep_attached(tables);
    }
}

impl AgentNode {
    // The edits by which a change leads to the tables that the rows after it give to the host.
    fn delta_of(&self, alloc: Global, change: &Change, after: &Rows) -> Result<Delta, OutOfMemory>
        requires { LeadsOn self.now.agent.rows change.now after.now }
        ensures leads { IfOk result
            (λ d. with_delta self.now.agent.tables d
            ≡ tables_of_rows after.now self.now.agent.name self.now.agent.tables.tags) }
        ensures few { IfOk result (AreFewFor self.now.agent change.now after.now) }
    {
        let _tables = &self.tables; // for the proof: they realise the rows
        if are_still(change.as_slice()) {
            return Ok(no_edits(alloc));
        }
        self.touched_delta(alloc, change, after)
    }

    // The same, found at what the change touches.
    fn touched_delta(
        &self,
        alloc: Global,
        change: &Change,
        after: &Rows,
    ) -> Result<Delta, OutOfMemory>
        requires { LeadsOn self.now.agent.rows change.now after.now }
        ensures leads { IfOk result
            (λ d. with_delta self.now.agent.tables d
            ≡ tables_of_rows after.now self.now.agent.name self.now.agent.tables.tags) }
        ensures few { IfOk result (AreFewFor self.now.agent change.now after.now) }
    {
        let (tables, before, host) = (&self.tables, &self.rows, &self.name);
        let l2 = ports_delta(alloc, tables, before, after, change, host)?;
        let l3 = routers_delta(alloc, tables, before, after, change, host, &l2.tags)?;
        let dhcp = leases_delta(alloc, tables, before, after, change, host, &l2.tags)?;
        Ok(Delta { l2, l3, dhcp })
    }

    // Finds the edits of a change that leads to these rows, and makes room for them.
    fn prepare_for(
        &mut self,
        alloc: Global,
        change: &Change,
        after: &Rows,
    ) -> Result<Rewire, OutOfMemory>
        requires { LeadsOn self.old.agent.rows change.now after.now }
        ensures rows { IfOk result (λ r. r.rows ≡ after.now) }
        ensures ready { IfOk result (IsReadyFor self.new) }
        ensures few { IfOk result (λ r. AreFewFor self.old.agent change.now after.now r.delta) }
        ensures agent { self.new.agent ≡ self.old.agent }
        ensures spare { self.new.spare.entries ≡ self.old.spare.entries }
    {
        let rows = after.copy(alloc)?;
        let delta = self.delta_of(alloc, change, after)?;
        self.tables.make_room(alloc, &delta)?;
        Ok(Rewire { delta, rows })
    }

    // The rows after a change.
    fn rows_after(&self, alloc: Global, change: &Change) -> Result<Rows, OutOfMemory>
        requires { Fits self.now.agent.rows change.now }
        ensures { IfOk result (λ rows. rows ≡ rows_after self.now.agent.rows change.now) }
    {
        let mut rows = self.rows.copy(alloc)?;
        rows.apply_change(alloc, change)?;
        Ok(rows)
    }

    /// Finds the edits of the tables that a change makes, and makes room for them. Nothing else
    /// changes. Its cost grows with what the change touches, and with the rows of the kinds that it
    /// touches.
    pub fn prepare_rewire(&mut self, alloc: Global, change: &Change) -> Result<Rewire, OutOfMemory>
        requires fits { Fits self.old.agent.rows change.now }
        requires consistent { IsConsistent (rows_after self.old.agent.rows change.now) }
        ensures rows { IfOk result (λ r. r.rows ≡ rows_after self.old.agent.rows change.now) }
        ensures ready { IfOk result (IsReadyFor self.new) }
        ensures few { IfOk result
            (λ r. AreFewFor self.old.agent change.now r.rows r.delta) }
        ensures agent { self.new.agent ≡ self.old.agent }
        ensures spare { self.new.spare.entries ≡ self.old.spare.entries }
    {
        let _rows = self.rows(); // for the proof: they are consistent
        let rows = self.rows_after(alloc, change)?;
        self.prepare_for(alloc, change, &rows)
    }

    /// Puts edits that were made ready for this host in, and their rows. Entries without a tap or
    /// router in the new tables are dropped, and the others stay in their order. Each row of a
    /// table that is taken out and each that is put in is a step. It takes no memory. Its cost
    /// grows with the edits and, in each table that has any, with the rows after the first, once for
    /// each edit where they are few; and with the entries if a tap or a router is taken out.
    pub fn rewire<L: Ledger>(&mut self, ready: Rewire, steps: &mut Steps<L>)
        requires { IsReadyFor self.old ready }
        ensures agent { self.new.agent ≡ rewired ready.rows self.old.agent }
        ensures spare { self.old.spare.entries ≤ self.new.spare.entries }
        ensures steps { steps.new ≡ steps.old + all_steps ready.delta }
    {
        let Rewire { delta, rows } = ready;
        let parts = may_part(&delta);
        self.tables.apply(delta, steps);
        drop_parted(&mut self.entries, &self.tables, parts);
        self.rows = rows;
    }

    // The same, with steps that nobody asks for.
    fn rewire_in<L: Ledger>(&mut self, ready: Rewire, blank: Blank)
        requires ready { IsReadyFor self.old ready }
        requires name { blank.name ≡ L.name }
        requires parts { blank.parts ≡ L.parts }
        requires some { 0 < blank.parts }
        ensures agent { self.new.agent ≡ rewired ready.rows self.old.agent }
        ensures spare { self.old.spare.entries ≤ self.new.spare.entries }
    {
        let mut steps = Steps::<L>::start(blank);
        self.rewire(ready, &mut steps);
    }

    // What a change with a number is to the host.
    fn hear(&self, number: u64) -> Heard
        ensures { result ≡ hearing number self.now.agent.held }
    {
        let Some(held) = self.held else {
            return Heard::Asleep;
        };
        if number <= held {
            return Heard::Old { held };
        }
        if number - held > 1 {
            return Heard::Gap { held };
        }
        Heard::Applied { held: number }
    }

    // Whether a change with a number is the next one.
    fn follows(&self, number: u64) -> bool
        ensures { result ≡ follows number self.now.agent.held }
    {
        match self.held {
            Some(held) => number > held && number - held == 1,
            None => false,
        }
    }

    /// Makes all ready for the change with a number that leads to these rows, if it is the next one
    /// after what the host holds. Nothing changes but room. Its cost grows with what the change
    /// touches.
    pub fn prepare_change(
        &mut self,
        alloc: Global,
        number: u64,
        change: &Change,
        after: &Rows,
    ) -> Result<Option<Rewire>, OutOfMemory>
        requires fits { CanFollow self.old.agent number change.now }
        requires rows { follows number self.old.agent.held ≡ true
            → after.now ≡ rows_after self.old.agent.rows change.now }
        ensures ready { IfOk result (IsReadyTo number after.now self.new) }
        ensures agent { self.new.agent ≡ self.old.agent }
        ensures spare { self.new.spare.entries ≡ self.old.spare.entries }
    {
        let _rows = self.rows(); // for the proof: they are consistent
        if !self.follows(number) {
            return Ok(None);
        }
        Ok(Some(self.prepare_for(alloc, change, after)?))
    }

    /// Puts in what was made ready for the change with a number, which is then held. It takes no
    /// memory. Its cost is that of `rewire`.
    pub fn take_change(&mut self, number: u64, ready: Option<Rewire>)
        requires { CanTake self.old ready }
        ensures agent { self.new.agent ≡ after_taking number ready self.old.agent }
        ensures spare { self.old.spare.entries ≤ self.new.spare.entries }
    {
        if let Some(ready) = ready {
            self.rewire_in::<Brand>(ready, Blank::new(1));
            self.held = Some(number);
            self.version = number;
        }
    }

    /// Tells the host the change with a number. If that is the next one after what the host holds,
    /// the change is put into the rows, the edits that it makes are put into the tables, and the
    /// number is then held. Otherwise nothing changes. Its cost is that of `prepare_rewire` and
    /// `rewire`.
    pub fn deliver(
        &mut self,
        alloc: Global,
        number: u64,
        change: &Change,
    ) -> Result<Heard, OutOfMemory>
        requires { CanFollow self.old.agent number change.now }
        ensures heard { IfOk result (λ h. h ≡ hearing number self.old.agent.held) }
        ensures agent { OnOk result
            (self.new.agent ≡ after_change number change.now self.old.agent) }
        ensures spare { OnOk result (self.old.spare.entries ≤ self.new.spare.entries) }
        ensures same { OnErr result (self.new.agent ≡ self.old.agent) }
    {
        if self.follows(number) {
            let ready = self.prepare_rewire(alloc, change)?;
            self.take_change(number, Some(ready));
            return Ok(Heard::Applied { held: number });
        }
        Ok(self.hear(number))
    }

    /// The same, where the rows after the change are at hand: the host shares them, and need not
    /// make them. Its cost grows with what the change touches.
    pub fn deliver_with(
        &mut self,
        alloc: Global,
        number: u64,
        change: &Change,
        after: &Rows,
    ) -> Result<Heard, OutOfMemory>
        requires fits { CanFollow self.old.agent number change.now }
        requires rows { follows number self.old.agent.held ≡ true
            → after.now ≡ rows_after self.old.agent.rows change.now }
        ensures heard { IfOk result (λ h. h ≡ hearing number self.old.agent.held) }
        ensures agent { OnOk result
            (self.new.agent ≡ after_change number change.now self.old.agent) }
        ensures spare { OnOk result (self.old.spare.entries ≤ self.new.spare.entries) }
        ensures same { OnErr result (self.new.agent ≡ self.old.agent) }
    {
        let heard = self.hear(number);
        let ready = self.prepare_change(alloc, number, change, after)?;
        self.take_change(number, ready);
        Ok(heard)
    }
}
