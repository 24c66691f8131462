//! Tables that ascend by the rows' own keys.

ghost use Rattle.std.specs.Prelude.{◌≡◌, ◌||◌, IfOk, List, false, map, option_copied, true};
ghost use Rattle.plane_types.specs.Keyed.{Rises, below, row_at as row_in, with_keys};
ghost use Rattle.plane_types.specs.Hosts.{key_number as number_of_key};
ghost use Rattle.table_edits.specs.EditsAt.{among};
ghost use Rattle.table_edits.specs.RisesProp.{Rises-prop};
ghost use Rattle.table_edits.specs.Rewires.{Rewires};

use crate::edits::{Changed, edits_of};
use crate::keys::{TableKey, descending};
use crate::table_row::TableRow;
use net_addr::{Addr, Copies, OutOfMemory};
use plane_types::{BridgeKey, BridgeRow, Edits, NeighbourRow};
use std::alloc::Global;

/// A row of a table that ascends by the rows' own keys.
pub trait OwnKey: TableRow + Copies {
    type Key: TableKey;

    /// The row's key.
    ghost key_of: { Self → Self.Key };

    /// The row's key.
    fn own_key(&self) -> Self::Key
        ensures { result ≡ key_of self.now };
}

impl OwnKey for BridgeRow {
    ghost use Rattle.plane_types.specs.KeyedTables.{bridge_key};

    type Key = (u16, u64);

    ghost key_of = { bridge_key };

    fn own_key(&self) -> (u16, u64) {
        (self.tag, key_number(self.key))
    }
}

impl OwnKey for NeighbourRow {
    ghost use Rattle.plane_types.specs.KeyedTables.{neighbour_key};

    type Key = (u16, Addr);

    ghost key_of = { neighbour_key };

    fn own_key(&self) -> (u16, Addr) {
        (self.tag, self.address)
    }
}

/// Where a key stands among those of a tag: `Dhcp` first, and then the MACs in their order.
pub fn key_number(key: BridgeKey) -> u64
    ensures { result ≡ number_of_key key }
{
    match key {
        BridgeKey::Dhcp => 0,
        BridgeKey::Mac(mac) => mac.0 + 1,
    }
}

// Such a table as it is, with the rows that touched sources give to it, which ascend.
#[derive(Drop)]
struct Ascended<'t, R: OwnKey> {
    rows: &'t [R],
    given: &'t [R],
    ghost rises: { Rises R.Key.before (with_keys R.key_of rows.now) } by { Rises-prop R.Key.before (with_keys R.key_of rows.now) },
    ghost given_rise: { Rises R.Key.before (with_keys R.key_of given.now) } by { Rises-prop R.Key.before (with_keys R.key_of given.now) },
}

// The place of a key among rows that ascend.
fn place_in<R: OwnKey>(rows: &[R], key: &R::Key) -> usize
    requires { Rises R.Key.before (with_keys R.key_of rows.now) }
    ensures { result ≡ below R.Key.before key.now (with_keys R.key_of rows.now) }
{
    rows.partition_point(|row| row.own_key().is_before(key))
}

// Whether a key comes before that of a row.
fn is_past<R: OwnKey>(row: &R, key: &R::Key) -> bool
    ensures { result ≡ R.Key.before key.now (R.key_of row.now) }
{
    key.is_before(&row.own_key())
}

// The row at a key, of which this is the place.
fn found_at<'t, R: OwnKey>(rows: &'t [R], place: usize, key: &R::Key) -> Option<&'t R>
    requires rises { Rises R.Key.before (with_keys R.key_of rows.now) }
    requires place { place ≡ below R.Key.before key.now (with_keys R.key_of rows.now) }
    ensures { option_copied result ≡ row_in R.Key.before key.now (with_keys R.key_of rows.now) }
{
    let row = rows.get(place)?;
    if is_past(row, key) { None } else { Some(row) }
}

/// The row at a key in such a table. Its cost grows with the logarithm of the table.
pub fn find_by_key<'t, R: OwnKey>(rows: &'t [R], key: &R::Key) -> Option<&'t R>
    requires { Rises R.Key.before (with_keys R.key_of rows.now) }
    ensures { option_copied result ≡ row_in R.Key.before key.now (with_keys R.key_of rows.now) }
{
    found_at(rows, place_in(rows, key), key)
}

impl<'t, R: OwnKey> Changed for Ascended<'t, R> {
    ghost use Rattle.plane_types.specs.Keyed.{row_at as row_in, with_keys};

    type Key = R::Key;

    type Row = R;

    ghost entries = { λ t. with_keys R.key_of t.rows.now };

    ghost before = { R.Key.before };

    ghost after = { λ t k. row_in R.Key.before k (with_keys R.key_of t.given.now) };

    fn place(&self, key: &R::Key) -> usize {
        place_in(self.rows, key)
    }

    fn row_at(&self, place: usize, key: &R::Key) -> Option<&R> {
        found_at(self.rows, place, key)
    }

    fn row_after(&self, alloc: Global, key: &R::Key) -> Result<Option<R>, OutOfMemory> {
        match find_by_key(self.given, key) {
            Some(row) => Ok(Some(row.copy(alloc)?)),
            None => Ok(None),
        }
    }
}

/// The edits of such a table at these keys and at those of the rows that touched sources now give
/// to it, which ascend. Its cost is that of these keys, and for each grows with the logarithm of
/// the table.
pub fn edits_by_own_key<'t, R: OwnKey>(
    alloc: Global,
    rows: &'t [R],
    given: &'t [R],
    keys: Vec<R::Key>,
) -> Result<Edits<R>, OutOfMemory>
    requires rises { Rises R.Key.before (with_keys R.key_of rows.now) }
    requires given_rise { Rises R.Key.before (with_keys R.key_of given.now) }
    ensures { (now : List R) → Rises R.Key.before (with_keys R.key_of now)
        → ((q : R.Key) → among R.Key.before q keys.items ≡ false
        → among R.Key.before q (map R.key_of given.now) ≡ false
        → row_in R.Key.before q (with_keys R.key_of rows.now)
        ≡ row_in R.Key.before q (with_keys R.key_of now))
        → ((q : R.Key) → (among R.Key.before q keys.items
        || among R.Key.before q (map R.key_of given.now)) ≡ true
        → row_in R.Key.before q (with_keys R.key_of given.now)
        ≡ row_in R.Key.before q (with_keys R.key_of now))
        → IfOk result
        (λ es. Rewires R.Key.before (with_keys R.key_of rows.now) (with_keys R.key_of now)
        rows.now now es) }
{
    let mut keys = keys;
    for row in given {
        keys.push(row.own_key())?;
    }
    let keys = descending(alloc, keys)?;
    let ascended = Ascended { rows, given };
    edits_of(alloc, &ascended, keys.as_slice())
}
