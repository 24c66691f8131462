//! The laws of the world, as contracts of functions that do nothing.

ghost use Rattle.std.specs.Prelude.{◌≡◌, false, not, true};
ghost use Rattle.net_addr.specs.Words.{Text};
ghost use Rattle.api_types.specs.Consistent.{IsConsistent};
ghost use Rattle.api_types.specs.Lists.{is_empty};
ghost use Rattle.api_types.specs.declared.call.Caller.{Caller};
ghost use Rattle.plane_types.specs.declared.ask.Ask.{Ask};
ghost use Rattle.plane_types.specs.declared.ask.Ask.TheVariants.{Lab};
ghost use Rattle.plane_types.specs.declared.ask.LabCall.TheVariants.{Restart};
ghost use Rattle.apart_laws.specs.Footing.{footing};
ghost use Rattle.world_laws.specs.Lead.{IsWorld};
ghost use Rattle.world_laws.specs.World.{IsSynced, World};
ghost use Rattle.lab_world.specs.World.{IsAskInForm, MovesBy, ask_outcome, state_of, told_of};

/// A tenant, whose project has a name, is told the same of each ask, of the Networking API and of
/// the lab, at any two servers of the same settings with consistent rows in which it has the same
/// footing. Hosts, what they hold, their tables and their entries have no part in it.
pub fn tenants_stay_apart()
    ensures apart { (caller : Caller) (v w : World) → caller.admin ≡ false
        → not (is_empty caller.project) ≡ true → IsConsistent v.history.rows
        → IsConsistent w.history.rows → v.settings ≡ w.settings
        → footing v.settings (state_of v) caller ≡ footing w.settings (state_of w) caller
        → (ask : Ask) → told_of (ask_outcome v caller ask) ≡ told_of (ask_outcome w caller ask) }
{}

/// Each world that an ask leaves is one still: its hosts have the rows of their versions, and the
/// tables that these give to them.
pub fn asks_keep_worlds()
    ensures { (caller : Caller) (ask : Ask) (v w : World) → IsAskInForm caller ask → IsWorld v
        → MovesBy v (ask_outcome v caller ask) w → IsWorld w }
{}

/// In automatic delivery, where every host holds the current version, every host holds the current
/// version after each ask too, unless it restarts one.
pub fn asks_leave_hosts_synced()
    ensures { (caller : Caller) (ask : Ask) (v w : World) → IsWorld v → v.manual ≡ false
        → IsSynced v → ((name : Text) → ask ≡ Lab (Restart name) → ⊥)
        → MovesBy v (ask_outcome v caller ask) w → IsSynced w }
{}
