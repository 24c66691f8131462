//! Bridge and neighbours, searched by halving.

ghost use Rattle.std.specs.Prelude.{◌≡◌, ◌+◌, ◌*◌, ◌&&◌, ◌==◌, find, option_copied};
ghost use Rattle.std.specs.List.Sorted.{IsSortedBy};
ghost use Rattle.net_addr.specs.Addresses.{addr_eq, number, width};
ghost use Rattle.plane_types.specs.Hosts.{key_number as place_of_key, neighbour_before, pair_before};
ghost use Rattle.plane_types.specs.TableStep.{bridge_at as bridge_by_key, neighbour_at as neighbour_by_address};

use net_addr::Addr;
use plane_types::{BridgeKey, BridgeRow, HostTables, NeighbourRow};

/// A row of a map, whose key is two numbers: of the bridge the tag and the place of the key, of the
/// neighbours the tag with the width of the address, and the address's number.
trait Mapped {
    ghost use Rattle.std.specs.Prelude.{ℕ};

    ghost first_of: { Self → ℕ };

    ghost second_of: { Self → ℕ };

    fn first(&self) -> u32
        ensures { result ≡ first_of self.now };

    fn second(&self) -> u128
        ensures { result ≡ second_of self.now };
}

impl Mapped for BridgeRow {
    ghost use Rattle.plane_types.specs.Hosts.{key_number};

    ghost first_of = { λ r. r.tag };

    ghost second_of = { λ r. key_number r.key };

    fn first(&self) -> u32 {
        u32::from(self.tag)
    }

    fn second(&self) -> u128 {
        u128::from(key_number(self.key))
    }
}

impl Mapped for NeighbourRow {
    ghost use Rattle.std.specs.Prelude.{◌+◌, ◌*◌};
    ghost use Rattle.net_addr.specs.Addresses.{number, width};

    ghost first_of = { λ r. r.tag * 256 + width r.address };

    ghost second_of = { λ r. number r.address };

    fn first(&self) -> u32 {
        tag_and_width(self.tag, &self.address)
    }

    fn second(&self) -> u128 {
        number_of(&self.address)
    }
}

// A tag with the width of an address.
fn tag_and_width(tag: u16, address: &Addr) -> u32
    ensures { result ≡ tag * 256 + width address.now }
{
    u32::from(tag) * 256 + u32::from(address.width())
}

// The number of the bits of an address.
fn number_of(address: &Addr) -> u128
    ensures { result ≡ number address.now }
{
    match address {
        Addr::V4(x) => u128::from(x.0),
        Addr::V6(x) => x.0,
    }
}

// The place of a key among those of a tag: first the port that leases, then by MAC.
fn key_number(key: BridgeKey) -> u64
    ensures { result ≡ place_of_key key }
{
    match key {
        BridgeKey::Dhcp => 0,
        BridgeKey::Mac(mac) => mac.0 + 1,
    }
}

fn is_before<R: Mapped>(row: &R, first: u32, second: u128) -> bool
    ensures { result ≡ pair_before (R.first_of row.now) (R.second_of row.now) first second }
{
    row.first() < first || (row.first() == first && row.second() < second)
}

fn is_at<R: Mapped>(row: &R, first: u32, second: u128) -> bool
    ensures { result ≡ ((R.first_of row.now == first) && (R.second_of row.now == second)) }
{
    row.first() == first && row.second() == second
}

// The row with a key, of rows that ascend by key. Its cost grows with the logarithm of how many
// they are.
fn row_at<R: Mapped>(rows: &[R], first: u32, second: u128) -> Option<&R>
    ensures { IsSortedBy
        (λ r s. pair_before (R.first_of r) (R.second_of r) (R.first_of s) (R.second_of s))
        rows.now
        → option_copied result
        ≡ find (λ r. (R.first_of r == first) && (R.second_of r == second)) rows.now }
{
    let place = rows.partition_point(|row| is_before(row, first, second));
    if place == rows.len() {
        return None;
    }
    let row = &rows[place];
    if is_at(row, first, second) {
        Some(row)
    } else {
        None
    }
}

/// The entry of the bridge with this tag and key. Its cost grows with the logarithm of the rows.
pub fn bridge_at(tables: &HostTables, tag: u16, key: BridgeKey) -> Option<&BridgeRow>
    ensures { option_copied result ≡ bridge_by_key tables.now.lists tag key }
{
    row_at(tables.bridge(), u32::from(tag), u128::from(key_number(key)))
}

fn neighbour_among<'t>(
    rows: &'t [NeighbourRow],
    tag: u16,
    address: &Addr,
) -> Option<&'t NeighbourRow>
    ensures { IsSortedBy neighbour_before rows.now
        → option_copied result
        ≡ find (λ r. (r.tag == tag) && addr_eq r.address address.now) rows.now }
{
    let first = tag_and_width(tag, address);
    let second = number_of(address);
    row_at(rows, first, second)
}

/// The entry of the neighbours with this tag and address. Its cost grows with the logarithm of the
/// rows.
pub fn neighbour_at<'t>(
    tables: &'t HostTables,
    tag: u16,
    address: &Addr,
) -> Option<&'t NeighbourRow>
    ensures { option_copied result ≡ neighbour_by_address tables.now.lists tag address.now }
{
    neighbour_among(tables.neighbours(), tag, address)
}
