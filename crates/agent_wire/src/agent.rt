//! An agent that hears a server's replies.
ghost use Rattle.std.specs.Prelude.{◌≡◌, ◌↔◌, ◌++◌, IfOk, IsTrue, MatchOption, OnErr, OnOk, Option, Some, false, option_map};
ghost use Rattle.api_types.specs.Consistent.{IsConsistent};
ghost use Rattle.api_types.specs.Rows.{Fits, after, no_rows};
ghost use Rattle.plane_types.specs.Node.{Agent, Node};
ghost use Rattle.world_laws.specs.World.{AreSound};
ghost use Rattle.wire_laws.specs.Hearing.{agent_with};
ghost use Rattle.wire_laws.specs.Promises.{held_by};
ghost use Rattle.wire_laws.specs.WireStates.{Lost, agent_of, ask_of};
ghost use Rattle.wire_types.specs.Pages.{rows_from};
ghost use Rattle.wire_types.specs.declared.reply.WireReply.TheVariants as reply;
ghost use Rattle.agent_wire.specs.HostAgents.{HearsBytes, HearsSaid, PutsRows};
ghost use Rattle.agent_wire.specs.Phases as phases;
ghost use Rattle.agent_wire.specs.Phases.{HasNode};
ghost use Rattle.agent_wire.specs.Snapshots.{are_new, drafted};

use crate::snapshot::read_snapshot;
use agent_node::AgentNode;
use api_consistency::find_broken;
use api_types::{Change, FitsRows, PageRow, PageRows, Rows};
use call_parts::are_typed;
use net_addr::{Copies, OutOfMemory, Text};
use net_settings::Settings;
use plane_types::HostTables;
use std::alloc::Global;
use std::marker::Model;
use wire_replies::read_reply;
use wire_types::{WireAsk, WireReply, WireStep};

/// What an agent waits for.
enum Phase {
    /// The version: nothing is held, or it isn't known whether what is held can be followed.
    Check,
    /// A page of a version's rows; these are those of the earlier pages.
    Draft {
        version: u64,
        number: u64,
        rows: Vec<PageRow>,
    },
    /// The change after what is held.
    Follow,
}

impl Drop for Phase {
    fn drop(self) {
        match self {
            Phase::Check => {}
            Phase::Draft {
                version: _,
                number: _,
                rows: _,
            } => {}
            Phase::Follow => {}
        }
    }
}

/// The agents of a host, which learn a server's rows by its replies alone.
#[derive(Drop)]
pub struct WireAgent {
    host: Text,
    settings: Settings,
    node: Option<AgentNode>,
    phase: Phase,
}

impl Model for WireAgent {
    ghost use Rattle.agent_wire.specs.HostAgents.{HostAgent};

    ghost Value = { HostAgent };

    ghost use Rattle.agent_wire.specs.Phases.{IsInState, state_of};

    ghost view = { λ a.
        record { host = a.host; settings = a.settings; state = state_of a.node a.phase } };

    ghost invariant = { λ a. IsInState a.node a.phase };
}

// Whether these rows may be put in place.
fn are_sound(alloc: Global, settings: &Settings, rows: &Rows) -> bool
    ensures { IsTrue result ↔ AreSound settings.now rows.now }
{
    are_typed(rows);
    find_broken(alloc, rows, settings).is_none()
}

// What agents ask that hold this version.
fn ask_next(held: Option<u64>) -> WireAsk
    ensures { result ≡ phases.next_ask held }
{
    match held {
        Some(held) => {
            if held == u64::MAX {
                return WireAsk::Version;
            }
            WireAsk::Change { number: held + 1 }
        }
        None => WireAsk::Version,
    }
}

// Whether a version is followed by a kept change, or is not older than the server's.
fn can_follow(held: Option<u64>, first: u64, last: u64) -> bool
    ensures { result ≡ phases.can_go_on held first last }
{
    match held {
        Some(held) => last <= held || first <= held + 1,
        None => false,
    }
}

// Gives a host the rows of a version, which it then holds.
fn give_rows(
    alloc: Global,
    node: &mut Option<AgentNode>,
    host: &Text,
    version: u64,
    rows: &Rows,
) -> Result<(), OutOfMemory>
    requires { IsConsistent rows.now }
    ensures ok { OnOk result (phases.agent_in node.new
        ≡ Some (agent_with host.now version rows.now (phases.agent_in node.old))) }
    ensures same { OnErr result (node.new ≡ node.old) }
{
    match node {
        Some(node) => {
            node.resync(alloc, version, rows)?;
            Ok(())
        }
        None => {
            let host = host.copy(alloc)?;
            *node = Some(AgentNode::make(alloc, host, rows, version)?);
            Ok(())
        }
    }
}

impl WireAgent {
    /// The agents of the host with this name, which hold nothing. The settings have to be those of
    /// the server.
    pub fn make(alloc: Global, host: Text, settings: Settings) -> Result<WireAgent, OutOfMemory>
        ensures { IfOk result (λ a. a ≡ record { host = host; settings = settings; state = Lost }) }
    {
        Ok(WireAgent {
            host,
            settings,
            node: None,
            phase: Phase::Check,
        })
    }

    /// The version that is held, if any. It never falls.
    pub fn held(&self) -> Option<u64>
        ensures { result ≡ held_by self.now.state }
    {
        match &self.node {
            Some(node) => node.held(),
            None => None,
        }
    }

    /// The tables that the rows of the version that is held give to the host, or none if nothing is
    /// held.
    pub fn tables(&self) -> Option<&HostTables>
        ensures { option_map (λ t. t.now.lists) result
            ≡ option_map (λ (a : Agent). a.tables) (agent_of self.now.state) }
    {
        match &self.node {
            Some(node) => Some(node.tables()),
            None => None,
        }
    }

    /// The rows of the version that is held, or none if nothing is held.
    pub fn rows(&self) -> Option<&Rows>
        ensures { option_map (λ r. r.now) result
            ≡ option_map (λ (a : Agent). a.rows) (agent_of self.now.state) }
    {
        match &self.node {
            Some(node) => Some(node.rows()),
            None => None,
        }
    }

    /// What the agents ask next.
    pub fn ask(&self) -> WireAsk
        ensures { result ≡ ask_of self.now.state }
    {
        match &self.phase {
            Phase::Check => WireAsk::Version,
            Phase::Draft {
                version,
                number,
                rows: _,
            } => WireAsk::Page {
                version: *version,
                number: *number,
            },
            Phase::Follow => ask_next(self.held()),
        }
    }

    /// Hears a reply: what becomes of it, and of the agents. Out of memory, nothing changes. Its
    /// cost grows with the reply, and with the rows if new ones are put in place.
    pub fn heard(&mut self, alloc: Global, bytes: &[u8]) -> Result<WireStep, OutOfMemory>
        ensures heard { IfOk result (λ s. HearsBytes self.old bytes.now s self.new) }
        ensures same { OnErr result (self.new ≡ self.old) }
    {
        match read_reply(alloc, bytes)? {
            Some(said) => self.take(alloc, said),
            None => Ok(WireStep::BadReply),
        }
    }

    fn take(&mut self, alloc: Global, said: WireReply) -> Result<WireStep, OutOfMemory>
        ensures ok { IfOk result (λ s. HearsSaid self.old said s self.new) }
        ensures same { OnErr result (self.new ≡ self.old) }
    {
        match said {
            WireReply::Version { first, last } => Ok(self.take_version(alloc, first, last)),
            WireReply::Page {
                version,
                number,
                last,
                rows,
            } => self.take_page(alloc, version, number, last, rows),
            WireReply::Change { number, items } => self.take_change(alloc, number, &items),
            WireReply::NoMessage => Ok(self.take_lack()),
            WireReply::VersionMoved => Ok(self.restart()),
            WireReply::NoPage => Ok(self.restart()),
            WireReply::Refused => Ok(WireStep::Again),
        }
    }

    // Whether the version is asked for.
    fn is_asking(&self) -> bool
        ensures { result ≡ phases.is_asking self.now.state }
    {
        match &self.phase {
            Phase::Check => true,
            Phase::Draft { .. } => false,
            Phase::Follow => false,
        }
    }

    // Whether pages are collected.
    fn is_drafting(&self) -> bool
        ensures { result ≡ phases.is_drafting self.now.state }
    {
        match &self.phase {
            Phase::Check => false,
            Phase::Draft { .. } => true,
            Phase::Follow => false,
        }
    }

    // Whether a change is asked for.
    fn is_following(&self) -> bool
        ensures { result ≡ phases.is_following self.now.state }
    {
        match &self.phase {
            Phase::Check => false,
            Phase::Draft { .. } => false,
            Phase::Follow => true,
        }
    }

    fn take_version(&mut self, alloc: Global, first: u64, last: u64) -> WireStep
        ensures { HearsSaid self.old (reply.Version first last) result self.new }
    {
        if !self.is_asking() {
            return WireStep::Again;
        }
        if can_follow(self.held(), first, last) {
            self.phase = Phase::Follow;
            return WireStep::Same;
        }
        self.phase = Phase::Draft {
            version: last,
            number: 0,
            rows: Vec::new(alloc),
        };
        WireStep::Anew { version: last }
    }

    fn take_page(
        &mut self,
        alloc: Global,
        version: u64,
        number: u64,
        last: bool,
        more: PageRows,
    ) -> Result<WireStep, OutOfMemory>
        ensures ok { IfOk result
            (λ s. HearsSaid self.old (reply.Page version number last more) s self.new) }
        ensures same { OnErr result (self.new ≡ self.old) }
    {
        if !self.awaits(version, number) {
            return Ok(WireStep::Again);
        }
        if last {
            return self.take_last_page(alloc, version, &more);
        }
        if number == u64::MAX {
            return Ok(WireStep::Again);
        }
        self.add_page(more)?;
        Ok(WireStep::Page)
    }

    // Whether this page is the next one of the draft.
    fn awaits(&self, page_version: u64, page_number: u64) -> bool
        ensures { result ≡ phases.awaits_page page_version page_number self.now.state }
    {
        match &self.phase {
            Phase::Draft {
                version,
                number,
                rows: _,
            } => page_version == *version && page_number == *number,
            Phase::Check => false,
            Phase::Follow => false,
        }
    }

    // Adds a page that isn't the last one to the draft.
    fn add_page(&mut self, more: PageRows) -> Result<(), OutOfMemory>
        requires { IsTrue (phases.has_room self.old.state) }
        ensures ok { OnOk result
            (self.new ≡ record self.old { state = phases.with_page more self.old.state }) }
        ensures same { OnErr result (self.new ≡ self.old) }
    {
        add_page(&mut self.phase, more)?;
        Ok(())
    }

    // The rows of a draft and of its last page, or none if two have one id.
    fn read_draft(&self, alloc: Global, more: &PageRows) -> Result<Option<Rows>, OutOfMemory>
        ensures { IfOk result (λ o. MatchOption o
            (are_new (drafted self.now.state ++ more.now) no_rows ≡ false)
            (λ rows. rows ≡ rows_from (drafted self.now.state ++ more.now))) }
    {
        match &self.phase {
            Phase::Check => read_snapshot(alloc, &[], more.as_slice()),
            Phase::Draft {
                version: _,
                number: _,
                rows,
            } => read_snapshot(alloc, rows.as_slice(), more.as_slice()),
            Phase::Follow => read_snapshot(alloc, &[], more.as_slice()),
        }
    }

    fn take_last_page(
        &mut self,
        alloc: Global,
        version: u64,
        more: &PageRows,
    ) -> Result<WireStep, OutOfMemory>
        ensures ok { IfOk result (λ s. PutsRows self.old version
            (rows_from (drafted self.old.state ++ more.now)) s self.new) }
        ensures same { OnErr result (self.new ≡ self.old) }
    {
        match self.read_draft(alloc, more)? {
            Some(rows) => self.put_rows(alloc, version, &rows),
            None => Ok(WireStep::BadRows),
        }
    }

    // Puts the rows of a version in place, if they may be.
    fn put_rows(
        &mut self,
        alloc: Global,
        version: u64,
        rows: &Rows,
    ) -> Result<WireStep, OutOfMemory>
        ensures ok { IfOk result (λ s. PutsRows self.old version rows.now s self.new) }
        ensures same { OnErr result (self.new ≡ self.old) }
    {
        if !are_sound(alloc, &self.settings, rows) {
            return Ok(WireStep::BadRows);
        }
        give_rows(alloc, &mut self.node, &self.host, version, rows)?;
        self.phase = Phase::Follow;
        Ok(WireStep::Took { held: version })
    }

    fn take_change(
        &mut self,
        alloc: Global,
        number: u64,
        change: &Change,
    ) -> Result<WireStep, OutOfMemory>
        ensures ok { IfOk result
            (λ s. HearsSaid self.old (reply.Change number change.now) s self.new) }
        ensures same { OnErr result (self.new ≡ self.old) }
    {
        if !self.awaits_change(number) {
            return Ok(WireStep::Again);
        }
        match self.next_rows(alloc, change)? {
            Some(rows) => self.put_rows(alloc, number, &rows),
            None => Ok(WireStep::BadRows),
        }
    }

    // Whether this is the number of the change after what is held.
    fn awaits_change(&self, number: u64) -> bool
        ensures { result ≡ phases.awaits_change number self.now.state }
    {
        if !self.is_following() {
            return false;
        }
        is_next(self.held(), number)
    }

    // The rows after a change, if it fits those that are held.
    fn next_rows(&self, alloc: Global, change: &Change) -> Result<Option<Rows>, OutOfMemory>
        ensures { IfOk result (λ o. (a : Agent) → agent_of self.now.state ≡ Some a → MatchOption o
            (Fits a.rows change.now → ⊥)
            (λ rows. Fits a.rows change.now × (rows ≡ after a.rows change.now))) }
    {
        match self.rows() {
            Some(rows) => rows_after(alloc, rows, change),
            None => Ok(None),
        }
    }

    // The next change is no longer kept.
    fn take_lack(&mut self) -> WireStep
        ensures { HearsSaid self.old reply.NoMessage result self.new }
    {
        if !self.is_following() {
            return WireStep::Again;
        }
        self.phase = Phase::Check;
        WireStep::Asked
    }

    // The rows moved on: a draft is dropped.
    fn restart(&mut self) -> WireStep
        ensures moved { HearsSaid self.old reply.VersionMoved result self.new }
        ensures page { HearsSaid self.old reply.NoPage result self.new }
    {
        if !self.is_drafting() {
            return WireStep::Again;
        }
        self.phase = Phase::Check;
        WireStep::Restarted
    }
}

// Whether a number is the one after what is held.
fn is_next(held: Option<u64>, number: u64) -> bool
    ensures { result ≡ phases.is_next held number }
{
    match held {
        Some(held) => held < number && number - held == 1,
        None => false,
    }
}

// The rows after a change, if it fits them.
fn rows_after(alloc: Global, rows: &Rows, change: &Change) -> Result<Option<Rows>, OutOfMemory>
    ensures { IfOk result (λ o. MatchOption o
        (Fits rows.now change.now → ⊥)
        (λ after_it. Fits rows.now change.now × (after_it ≡ after rows.now change.now))) }
{
    if !change.fits(rows) {
        return Ok(None);
    }
    let mut after = rows.copy(alloc)?;
    after.apply_change(alloc, change)?;
    Ok(Some(after))
}

// Adds a page that isn't the last one to a draft, or nothing changes.
fn add_page(phase: &mut Phase, more: PageRows) -> Result<(), OutOfMemory>
    requires { IsTrue (phases.has_next phase.old) }
    ensures ok { OnOk result ((node : Option Node) →
        phases.state_of node phase.new ≡ phases.with_page more (phases.state_of node phase.old)) }
    ensures same { OnErr result ((node : Option Node) →
        phases.state_of node phase.new ≡ phases.state_of node phase.old) }
    ensures node { (node : Option Node) → HasNode node phase.old → HasNode node phase.new }
{
    match phase {
        Phase::Check => Ok(()),
        Phase::Draft {
            version: _,
            number,
            rows,
        } => {
            append_rows(rows, more)?;
            *number += 1;
            Ok(())
        }
        Phase::Follow => Ok(()),
    }
}

// Adds rows after others, or nothing changes.
fn append_rows(rows: &mut Vec<PageRow>, more: PageRows) -> Result<(), OutOfMemory>
    ensures ok { OnOk result (rows.new.items ≡ rows.old.items ++ more) }
    ensures same { OnErr result (rows.new.items ≡ rows.old.items) }
{
    let mut more = more.into_vec();
    rows.append(&mut more)?;
    Ok(())
}
