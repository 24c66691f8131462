//! The rows of all kinds: nine shared tables, and changes put in and undone.

ghost use Rattle.std.specs.Prelude.{◌≡◌, [], ◌∷◌, ◌++◌, false, if◌then◌else◌, OnOk, OnErr, IfOk, IfSome};
ghost use Rattle.api_types.specs.Table.{is_new};
ghost use Rattle.api_types.specs.TableItems.{of_kind, same_kind, with_kind};
ghost use Rattle.api_types.specs.RowLists.{RowLists};

use crate::change::{Change, Item};
use crate::edit::{add_shared, edit_shared, unedit_shared};
use crate::fits::is_kind;
use crate::floating::FloatingRow;
use crate::group::{GroupRow, RuleRow};
use crate::kind::Kind;
use crate::network::NetworkRow;
use crate::policy::PolicyRow;
use crate::port::PortRow;
use crate::project::ProjectRow;
use crate::router::RouterRow;
use crate::shared::Shared;
use crate::subnet::SubnetRow;
use crate::table::{Keyed, Table};
use net_addr::{Copies, OutOfMemory};
use std::alloc::Global;
use std::marker::Model;
use std::mem::swap;

const KINDS: [Kind; 9] = [
    Kind::Project,
    Kind::Network,
    Kind::Subnet,
    Kind::Port,
    Kind::Group,
    Kind::Rule,
    Kind::Router,
    Kind::Floating,
    Kind::Policy,
];

/// The rows of all kinds. Contracts see them as a record of nine lists in order of creation.
pub struct Rows {
    projects: Shared<Table<ProjectRow>>,
    networks: Shared<Table<NetworkRow>>,
    subnets: Shared<Table<SubnetRow>>,
    ports: Shared<Table<PortRow>>,
    groups: Shared<Table<GroupRow>>,
    rules: Shared<Table<RuleRow>>,
    routers: Shared<Table<RouterRow>>,
    floatings: Shared<Table<FloatingRow>>,
    policies: Shared<Table<PolicyRow>>,
}

impl Model for Rows {
    ghost use Rattle.api_types.specs.RowLists.{RowLists};

    ghost Value = { RowLists };

    ghost view = { λ r.
        record {
          projects = r.projects;
          networks = r.networks;
          subnets = r.subnets;
          ports = r.ports;
          groups = r.groups;
          rules = r.rules;
          routers = r.routers;
          floatings = r.floatings;
          policies = r.policies;
        } };
}

// One call in place of nine drops at each exit of a function that owns rows: a check of such a
// function takes a third of the time.
impl Drop for Rows {
    fn drop(self) {
        let Rows {
            projects: _,
            networks: _,
            subnets: _,
            ports: _,
            groups: _,
            rules: _,
            routers: _,
            floatings: _,
            policies: _,
        } = self;
    }
}

fn no_table<R: Keyed>(alloc: Global) -> Result<Shared<Table<R>>, OutOfMemory>
    ensures { IfOk result (λ t. t ≡ []) }
{
    Shared::new(alloc, Table::new(alloc))
}

// The one item of the kind, if there is just one.
fn only_of(items: &[Item], kind: Kind) -> Option<&Item>
    ensures { IfSome result (λ item. of_kind kind items.now ≡ item.now ∷ []) }
{
    let mut only = None;
    for item in items {
        if is_kind(kind, item.kind) {
            if only.is_some() {
                return None;
            }
            only = Some(item);
        }
    }
    only
}

impl Copies for Rows {
    fn copy(&self, alloc: Global) -> Result<Rows, OutOfMemory> {
        Ok(Rows {
            projects: self.projects.copy(alloc)?,
            networks: self.networks.copy(alloc)?,
            subnets: self.subnets.copy(alloc)?,
            ports: self.ports.copy(alloc)?,
            groups: self.groups.copy(alloc)?,
            rules: self.rules.copy(alloc)?,
            routers: self.routers.copy(alloc)?,
            floatings: self.floatings.copy(alloc)?,
            policies: self.policies.copy(alloc)?,
        })
    }
}

impl Rows {
    ghost use Rattle.api_types.specs.Rows.{FitsItem, after_item, before_item, Fits, after, before, no_rows, CameByItem, CameBy, project_id};

    /// No rows.
    pub fn empty(alloc: Global) -> Result<Rows, OutOfMemory>
        ensures { IfOk result (λ r. r ≡ no_rows) }
    {
        Ok(Rows {
            projects: no_table(alloc)?,
            networks: no_table(alloc)?,
            subnets: no_table(alloc)?,
            ports: no_table(alloc)?,
            groups: no_table(alloc)?,
            rules: no_table(alloc)?,
            routers: no_table(alloc)?,
            floatings: no_table(alloc)?,
            policies: no_table(alloc)?,
        })
    }

    /// Equal rows, which share what they hold. Its cost doesn't grow with the rows.
    pub fn copy(&self, alloc: Global) -> Result<Rows, OutOfMemory>
        ensures { IfOk result (λ r. r ≡ self.now) }
    {
        Copies::copy(self, alloc)
    }

    /// The projects.
    pub fn projects(&self) -> &Table<ProjectRow>
        ensures { result.now ≡ self.now.projects }
    {
        self.projects.get()
    }

    /// The networks.
    pub fn networks(&self) -> &Table<NetworkRow>
        ensures { result.now ≡ self.now.networks }
    {
        self.networks.get()
    }

    /// The subnets.
    pub fn subnets(&self) -> &Table<SubnetRow>
        ensures { result.now ≡ self.now.subnets }
    {
        self.subnets.get()
    }

    /// The ports.
    pub fn ports(&self) -> &Table<PortRow>
        ensures { result.now ≡ self.now.ports }
    {
        self.ports.get()
    }

    /// The security groups.
    pub fn groups(&self) -> &Table<GroupRow>
        ensures { result.now ≡ self.now.groups }
    {
        self.groups.get()
    }

    /// The rules of security groups.
    pub fn rules(&self) -> &Table<RuleRow>
        ensures { result.now ≡ self.now.rules }
    {
        self.rules.get()
    }

    /// The routers.
    pub fn routers(&self) -> &Table<RouterRow>
        ensures { result.now ≡ self.now.routers }
    {
        self.routers.get()
    }

    /// The floating addresses.
    pub fn floatings(&self) -> &Table<FloatingRow>
        ensures { result.now ≡ self.now.floatings }
    {
        self.floatings.get()
    }

    /// The RBAC policies.
    pub fn policies(&self) -> &Table<PolicyRow>
        ensures { result.now ≡ self.now.policies }
    {
        self.policies.get()
    }

    /// Adds a project last, where none has its id, and answers whether it did. Otherwise nothing
    /// changes.
    pub fn add_project(&mut self, alloc: Global, row: ProjectRow) -> Result<bool, OutOfMemory>
        ensures added { IfOk result (λ added. (added ≡ is_new project_id row self.old.projects)
            × (self.new ≡ (if added then
            record self.old { projects = self.old.projects ++ row ∷ [] } else self.old))) }
        ensures err { OnErr result (self.new ≡ self.old) }
    {
        add_shared(alloc, &mut self.projects, row)
    }

    /// Adds a network last, where none has its id, and answers whether it did. Otherwise nothing
    /// changes.
    pub fn add_network(&mut self, alloc: Global, row: NetworkRow) -> Result<bool, OutOfMemory>
        ensures added { IfOk result (λ added. (added ≡ is_new (λ r. r.id) row self.old.networks)
            × (self.new ≡ (if added then
            record self.old { networks = self.old.networks ++ row ∷ [] } else self.old))) }
        ensures err { OnErr result (self.new ≡ self.old) }
    {
        add_shared(alloc, &mut self.networks, row)
    }

    /// Adds a subnet last, where none has its id, and answers whether it did. Otherwise nothing
    /// changes.
    pub fn add_subnet(&mut self, alloc: Global, row: SubnetRow) -> Result<bool, OutOfMemory>
        ensures added { IfOk result (λ added. (added ≡ is_new (λ r. r.id) row self.old.subnets)
            × (self.new ≡ (if added then
            record self.old { subnets = self.old.subnets ++ row ∷ [] } else self.old))) }
        ensures err { OnErr result (self.new ≡ self.old) }
    {
        add_shared(alloc, &mut self.subnets, row)
    }

    /// Adds a port last, where none has its id, and answers whether it did. Otherwise nothing
    /// changes.
    pub fn add_port(&mut self, alloc: Global, row: PortRow) -> Result<bool, OutOfMemory>
        ensures added { IfOk result (λ added. (added ≡ is_new (λ r. r.id) row self.old.ports)
            × (self.new ≡ (if added then
            record self.old { ports = self.old.ports ++ row ∷ [] } else self.old))) }
        ensures err { OnErr result (self.new ≡ self.old) }
    {
        add_shared(alloc, &mut self.ports, row)
    }

    /// Adds a security group last, where none has its id, and answers whether it did. Otherwise
    /// nothing changes.
    pub fn add_group(&mut self, alloc: Global, row: GroupRow) -> Result<bool, OutOfMemory>
        ensures added { IfOk result (λ added. (added ≡ is_new (λ r. r.id) row self.old.groups)
            × (self.new ≡ (if added then
            record self.old { groups = self.old.groups ++ row ∷ [] } else self.old))) }
        ensures err { OnErr result (self.new ≡ self.old) }
    {
        add_shared(alloc, &mut self.groups, row)
    }

    /// Adds a rule last, where none has its id, and answers whether it did. Otherwise nothing
    /// changes.
    pub fn add_rule(&mut self, alloc: Global, row: RuleRow) -> Result<bool, OutOfMemory>
        ensures added { IfOk result (λ added. (added ≡ is_new (λ r. r.id) row self.old.rules)
            × (self.new ≡ (if added then
            record self.old { rules = self.old.rules ++ row ∷ [] } else self.old))) }
        ensures err { OnErr result (self.new ≡ self.old) }
    {
        add_shared(alloc, &mut self.rules, row)
    }

    /// Adds a router last, where none has its id, and answers whether it did. Otherwise nothing
    /// changes.
    pub fn add_router(&mut self, alloc: Global, row: RouterRow) -> Result<bool, OutOfMemory>
        ensures added { IfOk result (λ added. (added ≡ is_new (λ r. r.id) row self.old.routers)
            × (self.new ≡ (if added then
            record self.old { routers = self.old.routers ++ row ∷ [] } else self.old))) }
        ensures err { OnErr result (self.new ≡ self.old) }
    {
        add_shared(alloc, &mut self.routers, row)
    }

    /// Adds a floating address last, where none has its id, and answers whether it did. Otherwise
    /// nothing changes.
    pub fn add_floating(&mut self, alloc: Global, row: FloatingRow) -> Result<bool, OutOfMemory>
        ensures added { IfOk result (λ added. (added ≡ is_new (λ r. r.id) row self.old.floatings)
            × (self.new ≡ (if added then
            record self.old { floatings = self.old.floatings ++ row ∷ [] } else self.old))) }
        ensures err { OnErr result (self.new ≡ self.old) }
    {
        add_shared(alloc, &mut self.floatings, row)
    }

    /// Adds a policy last, where none has its id, and answers whether it did. Otherwise nothing
    /// changes.
    pub fn add_policy(&mut self, alloc: Global, row: PolicyRow) -> Result<bool, OutOfMemory>
        ensures added { IfOk result (λ added. (added ≡ is_new (λ r. r.id) row self.old.policies)
            × (self.new ≡ (if added then
            record self.old { policies = self.old.policies ++ row ∷ [] } else self.old))) }
        ensures err { OnErr result (self.new ≡ self.old) }
    {
        add_shared(alloc, &mut self.policies, row)
    }

    fn apply_item(&mut self, alloc: Global, item: &Item) -> Result<(), OutOfMemory>
        requires { FitsItem self.old item.now }
        ensures ok { OnOk result (self.new ≡ after_item self.old item.now) }
        ensures err { OnErr result (self.new ≡ self.old) }
    {
        match item.kind {
            Kind::Project => edit_shared(alloc, &mut self.projects, item),
            Kind::Network => edit_shared(alloc, &mut self.networks, item),
            Kind::Subnet => edit_shared(alloc, &mut self.subnets, item),
            Kind::Port => edit_shared(alloc, &mut self.ports, item),
            Kind::Group => edit_shared(alloc, &mut self.groups, item),
            Kind::Rule => edit_shared(alloc, &mut self.rules, item),
            Kind::Router => edit_shared(alloc, &mut self.routers, item),
            Kind::Floating => edit_shared(alloc, &mut self.floatings, item),
            Kind::Policy => edit_shared(alloc, &mut self.policies, item),
        }
    }

    fn undo_item(&mut self, alloc: Global, item: &Item) -> Result<(), OutOfMemory>
        requires { CameByItem self.old item.now }
        ensures { OnOk result (self.new ≡ before_item self.old item.now) }
    {
        match item.kind {
            Kind::Project => unedit_shared(alloc, &mut self.projects, item),
            Kind::Network => unedit_shared(alloc, &mut self.networks, item),
            Kind::Subnet => unedit_shared(alloc, &mut self.subnets, item),
            Kind::Port => unedit_shared(alloc, &mut self.ports, item),
            Kind::Group => unedit_shared(alloc, &mut self.groups, item),
            Kind::Rule => unedit_shared(alloc, &mut self.rules, item),
            Kind::Router => unedit_shared(alloc, &mut self.routers, item),
            Kind::Floating => unedit_shared(alloc, &mut self.floatings, item),
            Kind::Policy => unedit_shared(alloc, &mut self.policies, item),
        }
    }

    fn apply_items(&mut self, alloc: Global, items: &[Item]) -> Result<(), OutOfMemory>
        requires { Fits self.old items.now }
        ensures { OnOk result (self.new ≡ after self.old items.now) }
    {
        for item in items {
            self.apply_item(alloc, item)?;
        }
        Ok(())
    }

    fn undo_items(&mut self, alloc: Global, items: &[Item]) -> Result<(), OutOfMemory>
        requires { CameBy self.old items.now }
        ensures { OnOk result (self.new ≡ before self.old items.now) }
    {
        for i in 0..items.len() {
            self.undo_item(alloc, &items[items.len() - 1 - i])?;
        }
        Ok(())
    }

    // Puts items into copies of the tables that they touch, or leaves all as it is.
    fn apply_apart(&mut self, alloc: Global, items: &[Item]) -> Result<(), OutOfMemory>
        requires { Fits self.old items.now }
        ensures ok { OnOk result (self.new ≡ after self.old items.now) }
        ensures err { OnErr result (self.new ≡ self.old) }
    {
        let mut made = self.copy(alloc)?;
        made.apply_items(alloc, items)?;
        *self = made;
        Ok(())
    }

    // Takes the rows of a kind out.
    fn clear_kind(&mut self, alloc: Global, kind: Kind) -> Result<(), OutOfMemory>
        ensures { OnOk result (self.new ≡ with_kind kind self.old no_rows) }
    {
        match kind {
            Kind::Project => self.projects = no_table(alloc)?,
            Kind::Network => self.networks = no_table(alloc)?,
            Kind::Subnet => self.subnets = no_table(alloc)?,
            Kind::Port => self.ports = no_table(alloc)?,
            Kind::Group => self.groups = no_table(alloc)?,
            Kind::Rule => self.rules = no_table(alloc)?,
            Kind::Router => self.routers = no_table(alloc)?,
            Kind::Floating => self.floatings = no_table(alloc)?,
            Kind::Policy => self.policies = no_table(alloc)?,
        }
        Ok(())
    }

    // Takes the rows of a kind from other rows, which get its own.
    fn swap_kind(&mut self, other: &mut Rows, kind: Kind)
        ensures { self.new ≡ with_kind kind self.old other.old }
    {
        match kind {
            Kind::Project => swap(&mut self.projects, &mut other.projects),
            Kind::Network => swap(&mut self.networks, &mut other.networks),
            Kind::Subnet => swap(&mut self.subnets, &mut other.subnets),
            Kind::Port => swap(&mut self.ports, &mut other.ports),
            Kind::Group => swap(&mut self.groups, &mut other.groups),
            Kind::Rule => swap(&mut self.rules, &mut other.rules),
            Kind::Router => swap(&mut self.routers, &mut other.routers),
            Kind::Floating => swap(&mut self.floatings, &mut other.floatings),
            Kind::Policy => swap(&mut self.policies, &mut other.policies),
        }
    }

    fn count_of(&self, kind: Kind) -> usize {
        match kind {
            Kind::Project => self.projects().rows().len(),
            Kind::Network => self.networks().rows().len(),
            Kind::Subnet => self.subnets().rows().len(),
            Kind::Port => self.ports().rows().len(),
            Kind::Group => self.groups().rows().len(),
            Kind::Rule => self.rules().rows().len(),
            Kind::Router => self.routers().rows().len(),
            Kind::Floating => self.floatings().rows().len(),
            Kind::Policy => self.policies().rows().len(),
        }
    }

    // Of the kinds of which there is just one item, that with the most rows. Where there is none it
    // is any kind.
    fn longest_alone(&self, items: &[Item]) -> Kind {
        let mut longest = Kind::Project;
        let mut most = 0;
        for kind in &KINDS {
            if only_of(items, *kind).is_some() {
                let rows = self.count_of(*kind);
                if rows >= most {
                    longest = *kind;
                    most = rows;
                }
            }
        }
        longest
    }

    // Puts an item in, unless it is of a kind.
    fn apply_other(&mut self, alloc: Global, item: &Item, kind: Kind) -> Result<(), OutOfMemory>
        requires { same_kind kind item.now.kind ≡ false → FitsItem self.old item.now }
        ensures { OnOk result
            (self.new
            ≡ (if same_kind kind item.now.kind then
            self.old else after_item self.old item.now)) }
    {
        if is_kind(kind, item.kind) {
            return Ok(());
        }
        self.apply_item(alloc, item)
    }

    // The rows of all kinds but one after the items; of that kind there are none.
    fn others_after(&self, alloc: Global, items: &[Item], kind: Kind) -> Result<Rows, OutOfMemory>
        requires { Fits self.now items.now }
        ensures { IfOk result
            (λ others. with_kind kind others (after self.now items.now)
            ≡ after self.now items.now) }
    {
        let mut others = self.copy(alloc)?;
        others.clear_kind(alloc, kind)?;
        for item in items {
            others.apply_other(alloc, item, kind)?;
        }
        Ok(others)
    }

    // Puts items in, or leaves all as it is. The table of a kind of which there is just one item
    // isn't copied, unless other rows share it.
    fn apply_beside(&mut self, alloc: Global, items: &[Item], kind: Kind) -> Result<(), OutOfMemory>
        requires { Fits self.old items.now }
        ensures ok { OnOk result (self.new ≡ after self.old items.now) }
        ensures err { OnErr result (self.new ≡ self.old) }
    {
        let Some(item) = only_of(items, kind) else {
            return self.apply_apart(alloc, items);
        };
        let mut made = self.others_after(alloc, items, kind)?;
        self.apply_item(alloc, item)?;
        made.swap_kind(self, kind);
        *self = made;
        Ok(())
    }

    /// Puts a change that fits the rows into them, or leaves them as they are. Its cost grows with
    /// the rows of the kinds that it touches, but not with those of one kind, if other rows don't
    /// share the table: of the kinds of which it has a single item, the one with the most rows.
    pub fn apply_change(&mut self, alloc: Global, change: &Change) -> Result<(), OutOfMemory>
        requires { Fits self.old change.now }
        ensures ok { OnOk result (self.new ≡ after self.old change.now) }
        ensures err { OnErr result (self.new ≡ self.old) }
    {
        let items = change.as_slice();
        match items {
            [item] => self.apply_item(alloc, item),
            _ => self.apply_beside(alloc, items, self.longest_alone(items)),
        }
    }

    /// Takes a change back out of the rows that it led to, or leaves them as they are. The old rows
    /// stand in their old order. Its cost grows with the rows of the kinds that it touches.
    pub fn undo_change(&mut self, alloc: Global, change: &Change) -> Result<(), OutOfMemory>
        requires { CameBy self.old change.now }
        ensures ok { OnOk result (self.new ≡ before self.old change.now) }
        ensures old_rows { (rows : RowLists) → Fits rows change.now
            → self.old ≡ after rows change.now → OnOk result (self.new ≡ rows) }
        ensures err { OnErr result (self.new ≡ self.old) }
    {
        let mut made = self.copy(alloc)?;
        made.undo_items(alloc, change.as_slice())?;
        *self = made;
        Ok(())
    }
}
