//! What a run starts from.
ghost use Rattle.std.specs.Prelude.{◌≡◌, ◌≤◌, None, Some, Err, true, IfOk, IfErr, IfSome, OnOk, is_some};
ghost use Rattle.api_check.specs.FirstBroken.{first_broken_of};
ghost use Rattle.api_check.specs.declared.broken.Inconsistent.{Inconsistent as Broken};
ghost use Rattle.api_types.specs.RowLists.{RowLists};
ghost use Rattle.keeper_core.specs.Counts.{RoseBy, Tells};
ghost use Rattle.net_settings.specs.Settings.{SettingsParts};
ghost use Rattle.neutron_serve.specs.Runs as runs;
ghost use Rattle.openings.specs.Openings as openings;
ghost use Rattle.world_laws.specs.World.{first_world};

use command_lines::{Delivery, Opening};
use keeper_core::{Desk, Keeper};
use lab_world::{OpenRefusal, World};
use net_settings::Settings;
use openings::{Unopened, open_store};
use std::alloc::Global;

fn is_manual(delivery: Delivery) -> bool
    ensures { result ≡ runs.is_manual delivery }
{
    match delivery {
        Delivery::Automatic => false,
        Delivery::Manual => true,
    }
}

// The world of the rows that a store keeps.
fn load_world<K: Keeper>(
    alloc: Global,
    keeper: &mut K,
    settings: Settings,
    manual: bool,
) -> Result<World, Unopened>
    ensures ok { IfOk result (λ world. (rows : RowLists) × Tells (K.told keeper.old).rows rows
        × (world ≡ first_world settings manual rows)
        × (first_broken_of settings.hosts rows ≡ None)) }
    ensures broken { result ≡ Err Unopened.Inconsistent → (rows : RowLists) × (broken : Broken)
        × Tells (K.told keeper.old).rows rows
        × (first_broken_of settings.hosts rows ≡ Some broken) }
    ensures failed { result ≡ Err Unopened.Failed
        → RoseBy 1 (K.told keeper.old).faults (K.told keeper.new).faults }
    ensures settings { result ≡ Err Unopened.BadSettings → ⊥ }
    ensures kept { (K.told keeper.new).rows ≡ (K.told keeper.old).rows }
{
    let rows = keeper.load(alloc)?;
    match World::open(alloc, rows, settings, manual) {
        Ok(world) => Ok(world),
        Err(OpenRefusal::Inconsistent { .. }) => Err(Unopened::Inconsistent),
        Err(OpenRefusal::OutOfMemory) => Err(Unopened::OutOfMemory),
    }
}

/// Asks the desk for the settings, and if they are good for the store, and opens a world of the
/// store's rows. A store that gives no such world is handed back.
pub(crate) fn open<D: Desk>(
    alloc: Global,
    desk: &mut D,
    opening: &Opening,
) -> Result<(World, D::Store), Unopened>
    ensures ok { IfOk result (λ o. (settings : SettingsParts) × (rows : RowLists)
        × openings.Opens opening.now settings rows (D.told desk.old)
        × (o.0 ≡ first_world settings (runs.is_manual opening.now.delivery) rows)
        × Tells (D.Store.told o.1).rows rows) }
    ensures told { IfOk result (λ o.
        IfSome (D.told desk.old).stores (λ _. is_some (D.Store.told o.1).rows ≡ true)) }
    ensures opened { OnOk result
        (D.told desk.new
        ≡ openings.with_opening opening.now (D.told desk.new).faults (D.told desk.old)) }
    ensures err { IfErr result (λ why.
        openings.IsUnopened why opening.now (D.told desk.old) (D.told desk.new)) }
    ensures cause { IfErr result (λ why.
        openings.IsCause why opening.now (D.told desk.old) (D.told desk.new)) }
    ensures later { (D.told desk.old).faults ≤ (D.told desk.new).faults }
{
    let (settings, mut store) = open_store(alloc, desk, opening)?;
    match load_world(alloc, &mut store, settings, is_manual(opening.delivery)) {
        Ok(world) => Ok((world, store)),
        Err(why) => {
            desk.close(store);
            Err(why)
        }
    }
}
