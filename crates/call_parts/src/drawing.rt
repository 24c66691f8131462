//! Ids that are drawn for a project, which is registered first where it is new.
ghost use Rattle.std.specs.Prelude.{◌≡◌, ◌⊎◌, ◌+◌, ◌-◌, ◌^◌, ◌<◌, ◌≤◌, ◌++◌, None, Some, IfOk, IfErr, length, position};
ghost use Rattle.api_types.specs.Consistent.{IsConsistent};
ghost use Rattle.api_types.specs.Registration.{default_rules, draw_of, drawn_id, is_named, with_project};
ghost use Rattle.api_types.specs.Registration as registration;
ghost use Rattle.api_types.specs.RowLists.{RowLists};
ghost use Rattle.call_parts.specs.Drafts.{AreRulesNew, raised};
ghost use Rattle.call_parts.specs.Answers.{drawing_of};
ghost use Rattle.call_parts.specs.State.{drawing_at};

use crate::asking::Asking;
use crate::draft::Draft;
use api_types::{Direction, Ethertype, GroupRow, Id, ProjectRow, Refusal, Rows, RuleRow, Shared};
use net_addr::{Copies, OutOfMemory, Text};
use std::alloc::Global;

/// How many ids a project's registration draws: its default group and that group's four rules.
const REGISTERED: u64 = 5;

/// The bound of counts, which have 62 bits.
const COUNTS: u64 = 0x4000_0000_0000_0000;

/// Ids drawn for a project one after the other, and the rows from then on.
#[derive(Drop)]
pub struct Drawn {
    pub draft: Draft,
    /// The project's ordinal.
    pub ordinal: u32,
    /// The count of the first id.
    pub first: u64,
}

// The place of the project with this name.
fn place_of(projects: &[Shared<ProjectRow>], name: &Text) -> Option<usize>
    ensures { result ≡ position (is_named name.now) projects.now }
{
    projects.iter().position(|project| project.name == *name)
}

fn default_rule(
    alloc: Global,
    project: &Text,
    ordinal: u32,
    count: u64,
    direction: Direction,
    ethertype: Ethertype,
) -> Result<RuleRow, OutOfMemory>
    requires { count < 2 ^ 62 }
    ensures { IfOk result (λ r. r
        ≡ registration.default_rule project.now ordinal count direction ethertype) }
{
    let group = Id::make(ordinal, 1);
    Ok(RuleRow {
        id: Id::make(ordinal, count),
        project: project.copy(alloc)?,
        group,
        description: Text::new(alloc),
        direction,
        ethertype,
        protocol: None,
        low: None,
        high: None,
        remote_prefix: None,
        remote_group: match direction {
            Direction::Ingress => Some(group),
            Direction::Egress => None,
        },
    })
}

fn default_group(alloc: Global, project: &Text, ordinal: u32) -> Result<GroupRow, OutOfMemory>
    ensures { IfOk result (λ g. g ≡ registration.default_group project.now ordinal) }
{
    Ok(GroupRow {
        id: Id::make(ordinal, 1),
        project: project.copy(alloc)?,
        name: Text::of(alloc, "default")?,
        description: Text::new(alloc),
        is_default: true,
    })
}

// The four rules of a default group, last.
fn add_rules(
    alloc: Global,
    draft: Draft,
    project: &Text,
    ordinal: u32,
) -> Result<Draft, OutOfMemory>
    requires { AreRulesNew draft.rows.rules ordinal }
    ensures start { IfOk result (λ d. d.start ≡ draft.start) }
    ensures rows { IfOk result
        (λ d. d.rows
        ≡ record draft.rows { rules = draft.rows.rules ++ default_rules project.now ordinal }) }
{
    let rule = default_rule(
        alloc,
        project,
        ordinal,
        2,
        Direction::Egress,
        Ethertype::Ipv4,
    )?;
    let draft = draft.add(alloc, rule)?;
    let rule = default_rule(
        alloc,
        project,
        ordinal,
        3,
        Direction::Egress,
        Ethertype::Ipv6,
    )?;
    let draft = draft.add(alloc, rule)?;
    let rule = default_rule(
        alloc,
        project,
        ordinal,
        4,
        Direction::Ingress,
        Ethertype::Ipv4,
    )?;
    let draft = draft.add(alloc, rule)?;
    let rule = default_rule(
        alloc,
        project,
        ordinal,
        5,
        Direction::Ingress,
        Ethertype::Ipv6,
    )?;
    draft.add(alloc, rule)
}

// The rows with a new project, its default group and that group's rules.
fn register(
    alloc: Global,
    rows: &Rows,
    name: &Text,
    ordinal: u32,
    count: u64,
) -> Result<Draft, OutOfMemory>
    requires consistent { IsConsistent rows.now }
    requires next { ordinal ≡ length rows.now.projects + 1 }
    ensures start { IfOk result (λ d. d.start ≡ rows.now) }
    ensures rows { IfOk result (λ d. d.rows ≡ with_project rows.now name.now ordinal count) }
{
    let project = ProjectRow {
        name: name.copy(alloc)?,
        ordinal,
        count,
    };
    let group = default_group(alloc, name, ordinal)?;
    let draft = Draft::begin(alloc, rows)?;
    let draft = draft.add(alloc, project)?;
    let draft = draft.add(alloc, group)?;
    add_rules(alloc, draft, name, ordinal)
}

// The rows with a project's count raised by this many.
fn raise(alloc: Global, rows: &Rows, project: &ProjectRow, many: u64) -> Result<Draft, OutOfMemory>
    requires { project.now.count + many < 2 ^ 62 }
    ensures start { IfOk result (λ d. d.start ≡ rows.now) }
    ensures rows { IfOk result (λ d. d.rows ≡ raised rows.now project.now many) }
{
    let mut more = project.copy(alloc)?;
    more.count += many;
    Draft::begin(alloc, rows)?.put(alloc, more)
}

// Draws this many ids for the project with this name, which is registered first where it is new.
fn draw_ids(alloc: Global, rows: &Rows, name: &Text, many: u64) -> Result<Drawn, Refusal>
    requires consistent { IsConsistent rows.now }
    requires few { many < 2 ^ 16 }
    ensures start { IfOk result (λ d. d.draft.start ≡ rows.now) }
    ensures drawn { IfOk result
        (λ d. draw_of rows.now name.now many
        ≡ Some (record { rows = d.draft.rows; ordinal = d.ordinal; first = d.first })) }
    ensures within { IfOk result (λ d. d.first + many ≤ 2 ^ 62) }
    ensures spent { IfErr result
        (λ e. (e ≡ Refusal.OutOfMemory)
        ⊎ ((e ≡ Refusal.CountersSpent) × (draw_of rows.now name.now many ≡ None))) }
{
    let projects = rows.projects().rows();
    let Some(place) = place_of(projects, name) else {
        if projects.len() >= u32::MAX as usize {
            return Err(Refusal::CountersSpent);
        }
        let ordinal = projects.len() as u32 + 1;
        return Ok(Drawn {
            draft: register(alloc, rows, name, ordinal, REGISTERED + many)?,
            ordinal,
            first: REGISTERED + 1,
        });
    };
    let project = projects[place].get();
    if project.count >= COUNTS - many {
        return Err(Refusal::CountersSpent);
    }
    Ok(Drawn {
        draft: raise(alloc, rows, project, many)?,
        ordinal: project.ordinal,
        first: project.count + 1,
    })
}

impl<'a> Asking<'a> {
    /// Draws this many ids for the project with this name, which is registered first, with its
    /// default group, where it is new. It refuses where the version or a counter would pass its
    /// last value. Its cost grows with the projects, and for a project that is new with the groups
    /// and the rules too.
    pub fn draw(&self, alloc: Global, name: &Text, many: u64) -> Result<Drawn, Refusal>
        requires { many < 2 ^ 16 }
        ensures start { IfOk result (λ d. d.draft.start ≡ self.now.state.rows) }
        ensures drawn { IfOk result
            (λ d. drawing_at self.now.state name.now many ≡ Some (drawing_of d)) }
        ensures room { IfOk result (λ d. self.now.state.version < 2 ^ 64 - 1) }
        ensures within { IfOk result (λ d. d.first + many ≤ 2 ^ 62) }
        ensures spent { IfErr result
            (λ e. (e ≡ Refusal.OutOfMemory)
            ⊎ ((e ≡ Refusal.CountersSpent)
            × (drawing_at self.now.state name.now many ≡ None))) }
        ensures consistent { IsConsistent self.now.state.rows }
    {
        let rows = self.rows();
        if self.version() == u64::MAX {
            return Err(Refusal::CountersSpent);
        }
        draw_ids(alloc, rows, name, many)
    }
}

impl Drawn {
    /// The id that was drawn as the k-th, from 0 on.
    pub fn id(&self, k: u64) -> Id
        requires { self.now.first + k < 2 ^ 62 }
        ensures { (rows : RowLists)
            → result
            ≡ drawn_id
            (record { rows = rows; ordinal = self.now.ordinal; first = self.now.first }) k }
    {
        Id::make(self.ordinal, self.first + k)
    }
}
