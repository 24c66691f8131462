//! What tenants' calls leave alone: all that other projects own.
//!
//! The function here does nothing, and its contract is the law, for the machine's whole step. That
//! of the calls of each kind stands in its `plan_` crate.
#![tactic(auto)]

ghost use Rattle.api_types.specs.declared.call.Call.{Call};
ghost use Rattle.net_settings.specs.Settings.{SettingsParts};
ghost use Rattle.api_machine.specs.WholeStep.{api_step};
ghost use Rattle.apart_laws.specs.Others.{SparesOthers};

/// Each accepted call of a tenant, whose project has a name, leaves what others own alone: their
/// rows are as before and in the same order, but that a policy goes with its network, a port may
/// go from a network of the tenant's, and a floating address whose port went leads nowhere.
pub fn tenants_spare_others()
    ensures { (settings : SettingsParts) (call : Call)
        → SparesOthers (λ state caller. api_step settings state caller call) }
{}
