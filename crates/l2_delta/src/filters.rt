//! Edits of the table `filters`.

ghost use Rattle.std.specs.Prelude.{◌≡◌, ◌++◌, ℕ, IfOk, OnOk, Some, false, map, nat_lt, option_and_then, option_copied, slice_get};
ghost use Rattle.std.specs.HashSet.{contains};
ghost use Rattle.std.specs.List.{list_any};
ghost use Rattle.api_types.specs.Parts.{group_of, rule_of};
ghost use Rattle.api_types.specs.Table.{ident_eq};
ghost use Rattle.api_types.specs.declared.kind.Kind.TheVariants.{Group as GroupKind, Rule as RuleKind};
ghost use Rattle.api_types.specs.declared.port.PortRow.{PortRow as ThePort};
ghost use Rattle.plane_types.specs.Keyed.{under};
ghost use Rattle.plane_types.specs.KeyedTables.{filter_order, group_filters, keyed_filters};
ghost use Rattle.plane_types.specs.NumberedRows.{numbered_rows, numbered_rows_after, row_items};
ghost use Rattle.plane_types.specs.TableRows.{filter_by, filter_of as filter_of_rule, filter_rows};
ghost use Rattle.table_edits.specs.ChunksSeen.{chunk_at};
ghost use Rattle.table_edits.specs.EditsAt.{KeysDescend, among};
ghost use Rattle.table_edits.specs.NumbersSeen.{at_after, at_before};
ghost use Rattle.table_edits.specs.Rewires.{Rewires};
ghost use Rattle.touched_rows.specs.SeesAlike.{SeesAlike};
ghost use Rattle.touched_rows.specs.TouchedNumbers.{numbers_from};
ghost use Rattle.l2_delta.specs.Filtered.{filters_by_groups, is_filtered as is_filtered_by_rows, is_filtered_by, rule_filter, rule_filters};
ghost use Rattle.l2_delta.specs.Gathered.{gathered};

use crate::ruled::{Ruled, changed_groups, groups_of};
use crate::taps::is_tap;
use api_types::{GroupRow, Id, PortRow, Rows, RuleRow, Shared};
use net_addr::{OutOfMemory, Text};
use plane_types::{Edits, FilterRow};
use std::alloc::Global;
use std::collections::HashSet;
use table_edits::{ByChunk, KeyedRow, Numbers, descending, edits_by_chunk};
use touched_rows::Rewiring;

// Whether the rules of a port's groups filter what it sends and gets on the host.
fn is_filtered(rows: &Rows, host: &Text, port: &PortRow) -> bool
    ensures { result ≡ is_filtered_by_rows rows.now host.now port.now }
{
    is_tap(rows, host, port) && port.secured
}

// Whether a port names one of these groups.
fn names_any(port: &PortRow, groups: &HashSet<Id>) -> bool
    ensures { result ≡ list_any (contains ident_eq groups.now) port.now.groups }
{
    port.groups.iter().any(|group| groups.contains(group))
}

// Whether a port is filtered on the host and names one of these groups.
fn is_filtered_among(rows: &Rows, host: &Text, groups: &HashSet<Id>, port: &PortRow) -> bool
    ensures { result ≡ is_filtered_by rows.now host.now (contains ident_eq groups.now) port.now }
{
    is_filtered(rows, host, port) && names_any(port, groups)
}

// Adds the numbers of these ports that are filtered on the host and name one of these groups.
fn add_filtered(
    numbers: &mut Vec<usize>,
    rows: &Rows,
    host: &Text,
    groups: &HashSet<Id>,
    ports: &[Shared<PortRow>],
) -> Result<(), OutOfMemory>
    ensures { OnOk result
        (numbers.new.items
        ≡ numbers.old.items
        ++ numbers_from (is_filtered_by rows.now host.now (contains ident_eq groups.now)) 0
        ports.now) }
{
    if groups.is_empty() {
        return Ok(());
    }
    for number in 0..ports.len() {
        if is_filtered_among(rows, host, groups, ports[number].get()) {
            numbers.push(number)?;
        }
    }
    Ok(())
}

// The numbers of the ports whose filters may change, from the greatest to the least: the touched
// ones, and those that name one of these groups.
fn filtered_ports(
    alloc: Global,
    change: &Rewiring,
    groups: &HashSet<Id>,
    touched: &[usize],
) -> Result<Vec<usize>, OutOfMemory>
    ensures down { IfOk result (λ ks. KeysDescend nat_lt ks.items) }
    ensures touched { IfOk result
        (λ ks. (k : ℕ) → among nat_lt k ks.items ≡ false → among nat_lt k touched.now ≡ false) }
    ensures others { IfOk result
        (λ ks. (k : ℕ) (p : ThePort) → among nat_lt k ks.items ≡ false
        → at_before change.now.ports k ≡ Some p
        → is_filtered_by change.now.before.now change.now.host.now (contains ident_eq groups.now) p
        ≡ false) }
{
    let mut numbers = Vec::from_slice(alloc, touched)?;
    let (before, host) = (change.before, change.host);
    add_filtered(&mut numbers, before, host, groups, change.ports.rows())?;
    descending(alloc, numbers)
}

fn filter_of(port: &PortRow, rule: &RuleRow) -> FilterRow
    ensures { result ≡ filter_of_rule port.now rule.now }
{
    FilterRow {
        port: port.id,
        direction: rule.direction,
        ethertype: rule.ethertype,
        protocol: rule.protocol,
        low: rule.low,
        high: rule.high,
        remote_prefix: rule.remote_prefix,
        remote_group: rule.remote_group,
    }
}

// The filter by a rule, if it is one of a group.
fn filter_in(port: &PortRow, group: &GroupRow, rule: Option<&RuleRow>) -> Option<FilterRow>
    ensures { result
        ≡ option_and_then (filter_by port.now group.now) (option_copied rule.entry) }
{
    let rule = rule?;
    if rule.group == group.id {
        Some(filter_of(port, rule))
    } else {
        None
    }
}

// Adds the key of the filter by the rule with a number before the change, if it is one of a group.
fn add_key(
    keys: &mut Vec<(usize, usize)>,
    rules: &Numbers<RuleRow>,
    number: usize,
    port: &PortRow,
    group: &GroupRow,
    place: usize,
) -> Result<(), OutOfMemory>
    ensures { OnOk result
        (keys.new.items
        ≡ keys.old.items
        ++ map (λ x. x.0)
        (under place (rule_filters port.now group.now number (slice_get rules.now.rows number)))) }
{
    if filter_in(port, group, rules.row(number)).is_some() {
        keys.push((place, number))?;
    }
    Ok(())
}

// Adds the keys of the filters by a group's rules before the change, which are among those with
// these numbers.
fn add_keys(
    keys: &mut Vec<(usize, usize)>,
    rules: &Numbers<RuleRow>,
    numbers: &[usize],
    port: &PortRow,
    group: &GroupRow,
    place: usize,
) -> Result<(), OutOfMemory>
    ensures { OnOk result
        (keys.new.items
        ≡ keys.old.items
        ++ map (λ x. x.0)
        (under place
        (gathered (at_before rules.now) (rule_filter port.now group.now) numbers.now))) }
{
    let mut left = numbers.len();
    while left > 0 {
        left -= 1;
        add_key(keys, rules, numbers[left], port, group, place)?;
    }
    Ok(())
}

// Adds the filter by the rule with a number after the change, if it is one of a group.
fn add_row(
    rows: &mut Vec<KeyedRow<(usize, usize), FilterRow>>,
    rules: &Numbers<RuleRow>,
    number: usize,
    port: &PortRow,
    group: &GroupRow,
    place: usize,
) -> Result<(), OutOfMemory>
    ensures { OnOk result
        (map (λ r. (r.key, r.row)) rows.new.items
        ≡ map (λ r. (r.key, r.row)) rows.old.items
        ++ under place (rule_filters port.now group.now number (at_after rules.now number))) }
{
    if let Some(row) = filter_in(port, group, rules.row_after(number)) {
        rows.push(KeyedRow {
            key: (place, number),
            row,
        })?;
    }
    Ok(())
}

// Adds the filters by a group's rules after the change, which are among those with these numbers.
fn add_rows(
    rows: &mut Vec<KeyedRow<(usize, usize), FilterRow>>,
    rules: &Numbers<RuleRow>,
    numbers: &[usize],
    port: &PortRow,
    group: &GroupRow,
    place: usize,
) -> Result<(), OutOfMemory>
    ensures { OnOk result
        (map (λ r. (r.key, r.row)) rows.new.items
        ≡ map (λ r. (r.key, r.row)) rows.old.items
        ++ under place
        (gathered (at_after rules.now) (rule_filter port.now group.now) numbers.now)) }
{
    let mut left = numbers.len();
    while left > 0 {
        left -= 1;
        add_row(rows, rules, numbers[left], port, group, place)?;
    }
    Ok(())
}

// The filters by their ports.
#[derive(Drop)]
struct FilterTable<'t, 'r> {
    change: &'t Rewiring<'r>,
    groups: &'t Numbers<'r, GroupRow>,
    ruled: &'t Ruled<'r>,
    ghost groups_are: { groups.now
        ≡ record {
          rows = change.now.before.now.groups;
          items = row_items GroupKind group_of change.now.items.now;
        } },
    ghost rules_are: { ruled.now
        ≡ record {
          rows = change.now.before.now.rules;
          items = row_items RuleKind rule_of change.now.items.now;
        } },
}

impl<'t, 'r> FilterTable<'t, 'r> {
    // Adds the keys of a port's filters before the change, by the group with a number.
    fn add_keys_at(
        &self,
        alloc: Global,
        keys: &mut Vec<(usize, usize)>,
        port: &PortRow,
        place: usize,
    ) -> Result<(), OutOfMemory>
        ensures { OnOk result
            (keys.new.items
            ≡ keys.old.items
            ++ map (λ x. x.0)
            (under place
            (chunk_at
            (group_filters (numbered_rows self.now.change.now.before.now) port.now)
            (at_before self.now.groups.now place)))) }
    {
        let Some(group) = self.groups.row(place) else {
            return Ok(());
        };
        if !port.names_group(group.id) {
            return Ok(());
        }
        let numbers = self.ruled.numbers_of(alloc, group.id)?;
        add_keys(
            keys,
            self.ruled.rules(),
            numbers.as_slice(),
            port,
            group,
            place,
        )
    }

    // The keys of a port's filters before the change, if it is filtered.
    fn keys_by_groups(
        &self,
        alloc: Global,
        port: &PortRow,
    ) -> Result<Vec<(usize, usize)>, OutOfMemory>
        ensures { IfOk result
            (λ ks. ks.items
            ≡ map (λ x. x.0)
            (filters_by_groups (numbered_rows self.now.change.now.before.now) port.now)) }
    {
        let places = groups_of(alloc, self.groups, port)?;
        let mut keys = Vec::new(alloc);
        let mut left = places.len();
        while left > 0 {
            left -= 1;
            self.add_keys_at(alloc, &mut keys, port, places[left])?;
        }
        Ok(keys)
    }

    // Adds a port's filters after the change, by the group with a number.
    fn add_rows_at(
        &self,
        alloc: Global,
        rows: &mut Vec<KeyedRow<(usize, usize), FilterRow>>,
        port: &PortRow,
        place: usize,
    ) -> Result<(), OutOfMemory>
        ensures { OnOk result
            (map (λ r. (r.key, r.row)) rows.new.items
            ≡ map (λ r. (r.key, r.row)) rows.old.items
            ++ under place
            (chunk_at
            (group_filters
            (numbered_rows_after self.now.change.now.before.now self.now.change.now.items.now)
            port.now)
            (at_after self.now.groups.now place))) }
    {
        let Some(group) = self.groups.row_after(place) else {
            return Ok(());
        };
        if !port.names_group(group.id) {
            return Ok(());
        }
        let numbers = self.ruled.numbers_of(alloc, group.id)?;
        add_rows(
            rows,
            self.ruled.rules(),
            numbers.as_slice(),
            port,
            group,
            place,
        )
    }

    // A port's filters after the change, if it is filtered.
    fn rows_by_groups(
        &self,
        alloc: Global,
        port: &PortRow,
    ) -> Result<Vec<KeyedRow<(usize, usize), FilterRow>>, OutOfMemory>
        ensures { IfOk result
            (λ rs. map (λ r. (r.key, r.row)) rs.items
            ≡ filters_by_groups
            (numbered_rows_after self.now.change.now.before.now self.now.change.now.items.now)
            port.now) }
    {
        let places = groups_of(alloc, self.groups, port)?;
        let mut rows = Vec::new(alloc);
        let mut left = places.len();
        while left > 0 {
            left -= 1;
            self.add_rows_at(alloc, &mut rows, port, places[left])?;
        }
        Ok(rows)
    }
}

impl<'t, 'r> ByChunk for FilterTable<'t, 'r> {
    ghost use Rattle.plane_types.specs.KeyedTables.{port_filters};
    ghost use Rattle.plane_types.specs.NumberedRows.{numbered_rows, numbered_rows_after};

    type Source = PortRow;

    type Key = (usize, usize);

    type Row = FilterRow;

    ghost came = { λ t.
        port_filters (numbered_rows t.change.now.before.now) t.change.now.host.now };

    ghost comes = { λ t.
        port_filters (numbered_rows_after t.change.now.before.now t.change.now.items.now)
        t.change.now.host.now };

    ghost source_of = { λ t r. r.port };

    fn source(&self, row: &FilterRow) -> Id {
        row.port
    }

    fn keys_before(
        &self,
        alloc: Global,
        port: &PortRow,
    ) -> Result<Vec<(usize, usize)>, OutOfMemory> {
        if is_filtered(self.change.before, self.change.host, port) {
            self.keys_by_groups(alloc, port)
        } else {
            Ok(Vec::new(alloc))
        }
    }

    fn rows_after(
        &self,
        alloc: Global,
        port: &PortRow,
    ) -> Result<Vec<KeyedRow<(usize, usize), FilterRow>>, OutOfMemory> {
        if is_filtered(self.change.after, self.change.host, port) {
            self.rows_by_groups(alloc, port)
        } else {
            Ok(Vec::new(alloc))
        }
    }
}

/// Edits of the filters of the ports that a change touches, and of the filtered ports here that
/// name a group which comes or goes, or a rule of which does or changes. Its cost is that of these
/// ports' filters, and for each grows with the logarithm of the table; and with the rules for each
/// group that they name. If groups or rules change, it grows with the ports too.
pub(crate) fn filter_edits(
    alloc: Global,
    change: &Rewiring,
    groups: &Numbers<GroupRow>,
    rules: &Numbers<RuleRow>,
    touched: &[usize],
) -> Result<Edits<FilterRow>, OutOfMemory>
    requires groups { groups.now
        ≡ record {
          rows = change.now.before.now.groups;
          items = row_items GroupKind group_of change.now.items.now;
        } }
    requires rules { rules.now
        ≡ record {
          rows = change.now.before.now.rules;
          items = row_items RuleKind rule_of change.now.items.now;
        } }
    requires stay { (k : _) → among nat_lt k touched.now ≡ false
        → at_before change.now.ports k ≡ at_after change.now.ports k }
    requires networks { (k : _) (p : ThePort) → among nat_lt k touched.now ≡ false
        → at_before change.now.ports k ≡ Some p
        → SeesAlike change.now.before.now change.now.after.now change.now.old change.now.new p }
    ensures { IfOk result
        (λ es. Rewires filter_order
        (keyed_filters (numbered_rows change.now.before.now) change.now.host.now)
        (keyed_filters (numbered_rows_after change.now.before.now change.now.items.now)
        change.now.host.now)
        change.now.tables.now.lists.filters
        (filter_rows change.now.after.now change.now.host.now) es) }
{
    let named = changed_groups(alloc, groups, rules)?;
    let ports = filtered_ports(alloc, change, &named, touched)?;
    let ruled = Ruled::of(alloc, change, rules, ports.as_slice())?;
    let table = FilterTable {
        change,
        groups,
        ruled: &ruled,
    };
    let rows = change.tables.filters();
    edits_by_chunk(alloc, &table, rows, &change.ports, ports.as_slice())
}
