//! Edits of the table `sets`.

ghost use Rattle.std.specs.Prelude.{◌≡◌, ◌++◌, IfOk, OnOk, map, not};
ghost use Rattle.std.proofs.lemmas.Map.Keys.{IsDistinct-prop};
ghost use Rattle.api_types.specs.Parts.{group_of};
ghost use Rattle.api_types.specs.Table.{HaveOwnIds, ident_eq, place_of};
ghost use Rattle.api_types.specs.declared.group.GroupRow.{GroupRow as TheGroup};
ghost use Rattle.api_types.specs.declared.kind.Kind.TheVariants.{Group as GroupKind};
ghost use Rattle.plane_types.specs.Edits.{with_edits};
ghost use Rattle.plane_types.specs.KeyedTables.{keyed_sets, set_order};
ghost use Rattle.plane_types.specs.NumberedRows.{numbered_rows, numbered_rows_after, row_items};
ghost use Rattle.plane_types.specs.TableRows.{filter_rows, set_rows};
ghost use Rattle.table_edits.specs.EditsAt.{KeysDescend};
ghost use Rattle.table_edits.specs.Places.{passes};
ghost use Rattle.table_edits.specs.Rewires.{Rewires};
ghost use Rattle.l2_delta.specs.DescendProp.{KeysDescend-prop};
ghost use Rattle.l2_delta.specs.SetKeys.{set_key};
ghost use Rattle.l2_delta.specs.TouchedSets.{AreSetEdits, going_keys, standing_keys};

use crate::named_sets::{NumberedSet, touched_sets};
use crate::set_keys::{keys_going, keys_standing};
use crate::touched::{rows_after, rows_before};
use api_types::{GroupRow, Id, PortRow};
use net_addr::{OutOfMemory, Prefix};
use plane_types::{Edits, FilterRow, SetRow};
use std::alloc::Global;
use table_edits::{Changed, Numbers, TableKey, descending, edits_of, is_among};
use touched_rows::Rewiring;

// Adds keys.
fn add_all(keys: &mut Vec<(usize, Prefix)>, more: &[(usize, Prefix)]) -> Result<(), OutOfMemory>
    ensures { OnOk result (keys.new.items ≡ keys.old.items ++ more.now) }
{
    for key in more {
        keys.push(*key)?;
    }
    Ok(())
}

// The sets as they are, by the numbers of their groups and by prefixes, and the keys at which a row
// is to stand.
#[derive(Drop)]
struct SetTable<'t, 'r> {
    change: &'t Rewiring<'r>,
    rows: &'t [SetRow],
    groups: &'t Numbers<'r, GroupRow>,
    // from the greatest to the least
    put: Vec<(usize, Prefix)>,
    ghost sets: { rows.now
        ≡ set_rows change.now.before.now
        (filter_rows change.now.before.now change.now.host.now) },
    ghost own_ids: { HaveOwnIds (λ (g : TheGroup). g.id) groups.now.rows } by { IsDistinct-prop ident_eq (map (λ (g : TheGroup). g.id) groups.now.rows) },
    ghost numbered: { groups.now.rows ≡ change.now.before.now.groups },
    ghost down: { KeysDescend set_order put.items } by { KeysDescend-prop set_order put.items },
}

impl<'t, 'r> SetTable<'t, 'r> {
    // The number of a group, which may be this one.
    fn number(&self, group: Id, near: usize) -> Option<usize>
        ensures { result
            ≡ place_of (λ (g : TheGroup). g.id) group self.now.groups.now.rows }
    {
        if let Some(row) = self.groups.row(near) {
            if row.id == group {
                return Some(near);
            }
        }
        self.groups.number(group)
    }

    // A row's key, the number of which may be this one.
    fn key(&self, row: &SetRow, near: usize) -> Option<(usize, Prefix)>
        ensures { result ≡ set_key self.now.groups.now.rows row.now }
    {
        let number = self.number(row.group, near)?;
        Some((number, row.prefix))
    }

    // Whether a row's key comes before this one.
    fn is_row_before(&self, row: &SetRow, key: &(usize, Prefix)) -> bool
        ensures { result
            ≡ passes (λ k. set_order k key.now) (set_key self.now.groups.now.rows row.now) }
    {
        match self.key(row, key.0) {
            Some(own) => own.is_before(key),
            None => false,
        }
    }

    // Whether a row's key doesn't come after this one.
    fn is_row_at(&self, row: &SetRow, key: &(usize, Prefix)) -> bool
        ensures { result
            ≡ passes (λ k. not (set_order key.now k)) (set_key self.now.groups.now.rows row.now) }
    {
        match self.key(row, key.0) {
            Some(own) => !key.is_before(&own),
            None => false,
        }
    }
}

impl<'t, 'r> Changed for SetTable<'t, 'r> {
    ghost use Rattle.plane_types.specs.KeyedTables.{keyed_sets, set_order};
    ghost use Rattle.plane_types.specs.NumberedRows.{numbered_rows};
    ghost use Rattle.l2_delta.specs.TouchedSets.{told_at};

    type Key = (usize, Prefix);

    type Row = SetRow;

    ghost entries = { λ t.
        keyed_sets (numbered_rows t.change.now.before.now) t.change.now.host.now };

    ghost before = { set_order };

    ghost after = { λ t. told_at t.groups.now t.put.items };

    fn place(&self, key: &(usize, Prefix)) -> usize {
        self.rows
            .partition_point(|row| self.is_row_before(row, key))
    }

    fn row_at(&self, place: usize, key: &(usize, Prefix)) -> Option<&SetRow> {
        let row = self.rows.get(place)?;
        if self.is_row_at(row, key) {
            Some(row)
        } else {
            None
        }
    }

    fn row_after(
        &self,
        _alloc: Global,
        key: &(usize, Prefix),
    ) -> Result<Option<SetRow>, OutOfMemory> {
        if !is_among(self.put.as_slice(), key) {
            return Ok(None);
        }
        let (number, prefix) = *key;
        match self.groups.row_after(number) {
            Some(group) => Ok(Some(SetRow {
                group: group.id,
                prefix,
            })),
            None => Ok(None),
        }
    }
}

// The edits of these sets.
fn edits_at(
    alloc: Global,
    change: &Rewiring,
    groups: &Numbers<GroupRow>,
    were: &[&PortRow],
    are: &[&PortRow],
    touched: &[NumberedSet],
) -> Result<Edits<SetRow>, OutOfMemory>
    requires { groups.now.rows ≡ change.now.before.now.groups }
    ensures { IfOk result
        (λ es. AreSetEdits
        (keyed_sets (numbered_rows change.now.before.now) change.now.host.now) groups.now
        (going_keys change.now.tables.now.lists.sets (map (λ p. p.now) were.now) touched.now)
        (standing_keys change.now.after.now.ports (map (λ p. p.now) were.now)
        (map (λ p. p.now) are.now) touched.now)
        es) }
{
    let rows = change.tables.sets();
    let ports = change.after.ports().rows();
    let put = keys_standing(alloc, ports, were, are, touched)?;
    let mut keys = keys_going(alloc, rows, were, touched)?;
    add_all(&mut keys, put.as_slice())?;
    let keys = descending(alloc, keys)?;
    let put = descending(alloc, put)?;
    let _own_ids = groups.rows(); // for the proof: no two groups have one id
    let table = SetTable {
        change,
        rows,
        groups,
        put,
    };
    edits_of(alloc, &table, keys.as_slice())
}

/// Edits of the sets of the groups that filters here begin or cease to name, that come or go, or to
/// which a port of the change gives something. For each of these groups the cost grows with the
/// filters. Of a group that filters name before and after, it grows with what these ports give to
/// it, and where one of them no longer gives a prefix, with the ports, until another gives it; of
/// another group, with the ports and the rows of the sets.
pub(crate) fn set_edits(
    alloc: Global,
    change: &Rewiring,
    groups: &Numbers<GroupRow>,
    filters: &Edits<FilterRow>,
) -> Result<Edits<SetRow>, OutOfMemory>
    requires groups { groups.now
        ≡ record {
          rows = change.now.before.now.groups;
          items = row_items GroupKind group_of change.now.items.now;
        } }
    requires filters { with_edits change.now.tables.now.lists.filters filters.now
        ≡ filter_rows change.now.after.now change.now.host.now }
    ensures { IfOk result
        (λ es. Rewires set_order
        (keyed_sets (numbered_rows change.now.before.now) change.now.host.now)
        (keyed_sets (numbered_rows_after change.now.before.now change.now.items.now)
        change.now.host.now)
        change.now.tables.now.lists.sets
        (set_rows change.now.after.now (filter_rows change.now.after.now change.now.host.now))
        es) }
{
    let _own_ids = groups.rows(); // for the proof: no two groups have one id
    let named = change.ports.named();
    let were = rows_before(alloc, &change.ports, named)?;
    let are = rows_after(alloc, &change.ports, named)?;
    let (old, edits) = (change.tables.filters(), filters.as_slice());
    let touched = touched_sets(alloc, groups, old, edits, were.as_slice(), are.as_slice())?;
    edits_at(
        alloc,
        change,
        groups,
        were.as_slice(),
        are.as_slice(),
        touched.as_slice(),
    )
}
