//! The settings and the store that a command line names.

ghost use Rattle.std.specs.Prelude.{◌≡◌, ◌≤◌, IfOk, IfErr, OnOk, Some};
ghost use Rattle.keeper_core.specs.Desk.{Asks, OpensWith, with_opened};
ghost use Rattle.keeper_core.specs.declared.ask.DeskAsk.{DeskAsk};
ghost use Rattle.openings.specs.Openings as openings;

use crate::unopened::Unopened;
use command_lines::Opening;
use keeper_core::{Desk, DeskRefusal};
use net_settings::{Settings, default_settings, read_settings};
use std::alloc::Global;

/// Asks the desk for the settings of the opening, if it names some; the default ones otherwise.
/// Nothing else is asked for. Its cost grows with the settings.
pub fn ask_settings<D: Desk>(
    alloc: Global,
    desk: &mut D,
    opening: &Opening,
) -> Result<Settings, Unopened>
    ensures ok { IfOk result (openings.AreSettings (D.told desk.old).files opening.now.settings) }
    ensures asked { OnOk result
        (D.told desk.new
        ≡ record (D.told desk.old) {
          asks = openings.with_asks (openings.settings_asks opening.now.settings)
              (D.told desk.old).asks;
          faults = (D.told desk.new).faults;
        }) }
    ensures err { IfErr result (λ why.
        openings.EndsAtSettings why opening.now (D.told desk.old) (D.told desk.new)) }
    ensures later { (D.told desk.old).faults ≤ (D.told desk.new).faults }
{
    let Some(name) = &opening.settings else {
        return Ok(default_settings(alloc)?);
    };
    let bytes = desk.settings(alloc, name)?;
    Ok(read_settings(alloc, bytes.as_slice())?)
}

// The store of the opening, or one in memory if it names none.
fn store_for<D: Desk>(
    alloc: Global,
    desk: &mut D,
    opening: &Opening,
) -> Result<D::Store, DeskRefusal>
    ensures store { IfOk result (λ store.
        OpensWith opening.now.store (D.told desk.old).stores (D.Store.told store)) }
    ensures asks { Asks (DeskAsk.Store opening.now.store) result
        (with_opened opening.now.store result (D.told desk.old)) (D.told desk.new) }
{
    match &opening.store {
        Some(name) => desk.store(alloc, Some(name)),
        None => desk.store(alloc, None),
    }
}

/// Asks the desk for the settings, and if they are good for the store. The store hasn't failed yet,
/// and keeps the rows under its name, if the desk tells them. Its cost grows with the settings.
pub fn open_store<D: Desk>(
    alloc: Global,
    desk: &mut D,
    opening: &Opening,
) -> Result<(Settings, D::Store), Unopened>
    ensures settings { IfOk result (λ o.
        openings.AreSettings (D.told desk.old).files opening.now.settings o.0) }
    ensures store { IfOk result (λ o.
        OpensWith opening.now.store (D.told desk.old).stores (D.Store.told o.1)) }
    ensures opened { OnOk result
        (D.told desk.new
        ≡ openings.with_opening opening.now (D.told desk.new).faults (D.told desk.old)) }
    ensures err { IfErr result (λ why.
        openings.IsUnopened why opening.now (D.told desk.old) (D.told desk.new)) }
    ensures later { (D.told desk.old).faults ≤ (D.told desk.new).faults }
{
    let settings = ask_settings(alloc, desk, opening)?;
    let store = store_for(alloc, desk, opening)?;
    Ok((settings, store))
}
