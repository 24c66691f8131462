//! The networks that a change touches.

ghost use Rattle.std.specs.Prelude.{◌≡◌, ◌↔◌, ◌||◌, IfOk, IsTrue, OnOk, false};
ghost use Rattle.std.specs.HashSet.{contains};
ghost use Rattle.std.specs.List.{list_any};
ghost use Rattle.api_types.specs.Ident.{Ident};
ghost use Rattle.api_types.specs.Table.{ident_eq};
ghost use Rattle.touched_rows.specs.Retagged.{is_retagged};
ghost use Rattle.table_edits.specs.Untouched.{StaysAlike};

use crate::alike::{Alike, changed_ids};
use crate::rewiring::Rewiring;
use api_types::{Id, NetworkRow};
use net_addr::{OutOfMemory, Same};
use plane_types::TagRow;
use std::alloc::Global;
use std::collections::HashSet;
use table_edits::TableRow;

/// In what makes frames go as before.
impl Alike for NetworkRow {
    ghost use Rattle.std.specs.Prelude.{refl};
    ghost use Rattle.touched_rows.specs.RowStays.{CarriesTheSame};

    ghost alike = { CarriesTheSame };

    ghost itself = { λ r. record { up = refl; segment = refl } };

    fn is_alike(&self, other: &NetworkRow) -> bool {
        self.up == other.up && self.segment.is_same(&other.segment)
    }
}

// Whether these are equal tags in one order.
fn are_tags(old: &[TagRow], new: &[TagRow]) -> bool
    ensures { IsTrue result ↔ (old.now ≡ new.now) }
{
    if old.len() != new.len() {
        return false;
    }
    for place in 0..old.len() {
        if !old[place].is_row(&new[place]) {
            return false;
        }
    }
    true
}

// Adds the network of a tag, where its tag differs before and after.
fn add_if_retagged(
    networks: &mut HashSet<Id>,
    change: &Rewiring,
    row: &TagRow,
) -> Result<(), OutOfMemory>
    ensures { OnOk result
        ((n : Ident)
        → contains ident_eq networks.new n
        ≡ (contains ident_eq networks.old n
        || is_retagged change.now.old change.now.new n row.now)) }
{
    if change.old_tag(row.network) != change.new_tag(row.network) {
        networks.insert(row.network)?;
    }
    Ok(())
}

// Adds the networks of these tags whose tag differs before and after.
fn add_retagged(
    networks: &mut HashSet<Id>,
    change: &Rewiring,
    tags: &[TagRow],
) -> Result<(), OutOfMemory>
    ensures { OnOk result
        ((n : Ident)
        → contains ident_eq networks.new n
        ≡ (contains ident_eq networks.old n
        || list_any (is_retagged change.now.old change.now.new n) tags.now)) }
{
    for row in tags {
        add_if_retagged(networks, change, row)?;
    }
    Ok(())
}

/// The networks that a change touches at a host: whose state, segment or tag differs. Its cost
/// grows with the items and the tags.
pub fn touched_networks(
    alloc: Global,
    change: &Rewiring,
    tags: &[TagRow],
) -> Result<HashSet<Id>, OutOfMemory>
    requires { change.now.new ≡ tags.now }
    ensures { IfOk result
        (λ s. (n : Ident) → contains ident_eq s n ≡ false
        → StaysAlike change.now.before.now change.now.after.now change.now.old change.now.new n) }
{
    let before = change.before.networks();
    let after = change.after.networks();
    let mut networks = changed_ids(alloc, before, after, change.items)?;
    if are_tags(change.tables.tags(), tags) {
        return Ok(networks);
    }
    add_retagged(&mut networks, change, change.tables.tags())?;
    add_retagged(&mut networks, change, tags)?;
    Ok(networks)
}
