//! The rows of a store, if they are consistent.

ghost use Rattle.std.specs.Prelude.{◌≡◌, ◌≤◌, ℕ, Err, IfOk, IfErr, None, Some};
ghost use Rattle.api_check.specs.FirstBroken.{first_broken_of};
ghost use Rattle.api_check.specs.declared.broken.Inconsistent.{Inconsistent as Broken};
ghost use Rattle.api_types.specs.Consistent.{IsConsistent};
ghost use Rattle.api_types.specs.RowLists.{RowLists};
ghost use Rattle.keeper_core.specs.Counts.{RoseBy, Tells};
ghost use Rattle.openings.specs.Openings as openings;

use crate::store::open_store;
use crate::unopened::Unopened;
use api_consistency::find_broken;
use api_types::Rows;
use command_lines::Opening;
use keeper_core::{Desk, Keeper};
use net_settings::Settings;
use std::alloc::Global;

// The rows that a store keeps.
fn load_rows<K: Keeper>(
    alloc: Global,
    keeper: &mut K,
    settings: &Settings,
) -> Result<Rows, Unopened>
    ensures rows { IfOk result (Tells (K.told keeper.old).rows) }
    ensures sound { IfOk result (λ rows. first_broken_of settings.now.hosts rows ≡ None) }
    ensures consistent { IfOk result IsConsistent }
    ensures broken { result ≡ Err Unopened.Inconsistent → (rows : RowLists) × (broken : Broken)
        × Tells (K.told keeper.old).rows rows
        × (first_broken_of settings.now.hosts rows ≡ Some broken) }
    ensures failed { result ≡ Err Unopened.Failed
        → RoseBy 1 (K.told keeper.old).faults (K.told keeper.new).faults }
    ensures settings { result ≡ Err Unopened.BadSettings → ⊥ }
    ensures kept { (K.told keeper.new).rows ≡ (K.told keeper.old).rows }
{
    let rows = keeper.load(alloc)?;
    match find_broken(alloc, &rows, settings) {
        Some(_) => Err(Unopened::Inconsistent),
        None => Ok(rows),
    }
}

/// Asks the desk for the settings, and if they are good for the store, reads the store's rows and
/// tests that they are consistent. The store is closed again, with the rows that it had. Its cost
/// grows with the settings, and with the rows and the logarithm of their number, where they are
/// consistent and memory suffices; otherwise with the square of the rows.
pub fn read_rows<D: Desk>(
    alloc: Global,
    desk: &mut D,
    opening: &Opening,
) -> Result<(Settings, Rows), Unopened>
    ensures ok { IfOk result (λ o.
        openings.Opens opening.now o.0 o.1 (D.told desk.old)) }
    ensures consistent { IfOk result (λ o. IsConsistent o.1) }
    ensures closed { IfOk result (λ o. (counted : ℕ)
        × (D.told desk.new
        ≡ openings.with_closing opening.now o.1 counted
        (openings.with_opening opening.now (D.told desk.new).faults (D.told desk.old)))) }
    ensures err { IfErr result (λ why.
        openings.IsUnopened why opening.now (D.told desk.old) (D.told desk.new)) }
    ensures cause { IfErr result (λ why.
        openings.IsCause why opening.now (D.told desk.old) (D.told desk.new)) }
    ensures later { (D.told desk.old).faults ≤ (D.told desk.new).faults }
{
    let (settings, mut store) = open_store(alloc, desk, opening)?;
    let rows = load_rows(alloc, &mut store, &settings);
    desk.close(store);
    Ok((settings, rows?))
}
