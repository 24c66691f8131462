//! What holds of the world of a server after every list of steps, and what frames then come to.
//!
//! Definitions and laws alone. A world has the rows with the last changes that led to them, and
//! each host's agents, which may lag behind the rows, sleep and forget. The functions here do
//! nothing, and their contracts are the laws.
#![tactic(auto)]

ghost use Rattle.std.specs.Prelude.{◌≡◌, ◌+◌, ◌≤◌, ℕ, Bool, false, List, Some, map};
ghost use Rattle.api_types.specs.Lists.{Each};
ghost use Rattle.api_types.specs.RowLists.{RowLists};
ghost use Rattle.api_types.specs.Rows.{Fits, after};
ghost use Rattle.api_types.specs.declared.change.Item.{Item};
ghost use Rattle.net_settings.specs.Rules.{MeetsRules};
ghost use Rattle.net_settings.specs.Settings.{SettingsParts};
ghost use Rattle.plane_types.specs.Crossing.{CrossesAtRouters};
ghost use Rattle.plane_types.specs.Hosts.{all_entries};
ghost use Rattle.plane_types.specs.PortSecurity.{AreLetOut, IsLetIn};
ghost use Rattle.plane_types.specs.Realises.{Realises};
ghost use Rattle.plane_types.specs.Verdicts.{fabric_verdicts, rows_verdicts, without_hosts};
ghost use Rattle.plane_types.specs.declared.event.Event.{Event};
ghost use Rattle.bus_core.specs.History.{change_at, first_kept, rows_at};
ghost use Rattle.plane_types.specs.Node.{Agent, after_resync};
ghost use Rattle.world_laws.specs.Alike.{AreAlike, accepts};
ghost use Rattle.world_laws.specs.Lead.{IsWorld, Lead, Placed, Realised};
ghost use Rattle.world_laws.specs.Steps.{Accept, May, MayRun, Settle, Step, restarts, run, step};
ghost use Rattle.world_laws.specs.World.{AreSound, IsSynced, World, first_world, hosts_of};

/// After every list of steps the wired rows of each host are those of its version, where these can
/// be told, its tables are those that its rows give to it, and its entries are placed. The kept
/// changes lead from each kept version to the next.
pub fn worlds_stay_led()
    ensures step { (w : World) (s : Step) → IsWorld w → May w s → IsWorld (step w s) }
    ensures lists { (settings : SettingsParts) (manual : Bool) (rows : RowLists) → MeetsRules settings →
        AreSound settings rows → (steps : List Step) →
        MayRun (first_world settings manual rows) steps →
        IsWorld (run (first_world settings manual rows) steps) }
{}

/// A host that holds a version has the rows of that version, where they can be told, and one that
/// holds the current version has the current rows. Its tables are those that these rows give to
/// it, also while it is behind.
pub fn holders_have_their_rows()
    ensures told { (w : World) → IsWorld w → Each (λ (a : Agent). (v : ℕ) → a.held ≡ Some v →
        first_kept w.history ≤ v + 1 → a.rows ≡ rows_at w.history v) w.agents }
    ensures now { (w : World) → IsWorld w → Each (λ (a : Agent). a.held ≡ Some w.history.version →
        a.rows ≡ w.history.rows) w.agents }
    ensures tables { (w : World) → IsWorld w → Each (λ (a : Agent). (v : ℕ) → a.held ≡ Some v →
        first_kept w.history ≤ v + 1 → Realises (rows_at w.history v) a.name a.tables) w.agents }
{}

/// The change that follows what a host holds fits the rows that it has wired, and leads to sound
/// rows, those of its number.
pub fn next_changes_fit()
    ensures fits { (w : World) → IsWorld w → (n v : ℕ) (c : List Item) → change_at w.history n ≡ Some c →
        n ≡ v + 1 → Each (λ (a : Agent). a.held ≡ Some v →
        Fits a.rows c × AreSound w.settings (after a.rows c) ×
        (after a.rows c ≡ rows_at w.history n)) w.agents }
{}

/// Where every host holds the current version, events one after the other come by the hosts'
/// tables to exactly what the current rows give, and their paths cross between networks at routers
/// alone. Ports let in and out what their groups and guards allow, and answers to it.
pub fn synced_hosts_mean_rows()
    ensures verdicts { (w : World) → IsWorld w → IsSynced w → (events : List Event) →
        map without_hosts (fabric_verdicts (hosts_of w) events) ≡ rows_verdicts w.history.rows
        (all_entries (hosts_of w)) events }
    ensures paths { (w : World) → IsWorld w → IsSynced w → (events : List Event) →
        Each (CrossesAtRouters w.history.rows) (fabric_verdicts (hosts_of w) events) }
    ensures lets_in { (w : World) → IsWorld w → IsSynced w → (events : List Event) →
        Each (IsLetIn w.history.rows) (fabric_verdicts (hosts_of w) events) }
    ensures lets_out { (w : World) → IsWorld w → IsSynced w → (events : List Event) →
        AreLetOut w.history.rows events (fabric_verdicts (hosts_of w) events) }
{}

/// Worlds with the same settings and hosts, and the same rows now and at each version that can be
/// told, stay so by each step, also where other changes lead to the same rows: which changes are
/// kept is told by nobody.
pub fn worlds_stay_alike()
    ensures accepted { (w v : World) → IsWorld w → IsWorld v → AreAlike w v →
        (c d : List Item) → May w (Accept c) →
        May v (Accept d) → after w.history.rows c ≡ after v.history.rows d →
        AreAlike (step w (Accept c)) (step v (Accept d)) }
    ensures others { (w v : World) → IsWorld w → IsWorld v → AreAlike w v → (s : Step) → accepts s ≡ false →
        AreAlike (step w s) (step v s) }
{}

/// Every host holds the current version once the world is settled; and in automatic delivery each
/// step but a restart leaves it so. With each accepted change each host is then given the current
/// rows, as if all were wired anew.
pub fn hosts_come_to_now()
    ensures settled { (w : World) → IsSynced (step w Settle) }
    ensures rewired { (w : World) (c : List Item) → IsWorld w → w.manual ≡ false → IsSynced w →
        (step w (Accept c)).agents ≡
        map (after_resync (w.history.version + 1) (after w.history.rows c)) w.agents }
    ensures automatic { (w : World) (s : Step) → IsWorld w → w.manual ≡ false → IsSynced w →
        restarts s ≡ false → IsSynced (step w s) }
{}
