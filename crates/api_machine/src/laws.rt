//! The laws of calls.
ghost use Rattle.net_settings.specs.Rules.{MeetsRules};
ghost use Rattle.net_settings.specs.Settings.{SettingsParts};
ghost use Rattle.apart_laws.specs.Alike.{KeepsApart};
ghost use Rattle.apart_laws.specs.Footing.{footing};
ghost use Rattle.kept_laws.specs.Kept.{KeepsRows};
ghost use Rattle.api_machine.specs.WholeStep.{api_step};
ghost use Rattle.api_machine.specs.WiderFooting.{wider_footing};

/// Each accepted call in form leaves consistent rows consistent, as their types say, and carried by
/// the hosts where they were.
pub fn calls_keep()
    ensures { (settings : SettingsParts) → MeetsRules settings
        → KeepsRows settings (api_step settings) }
{}

/// A tenant, whose project has a name, is told the same of each call, reply or refusal, at any two
/// consistent states in which it has the same footing. `wider` says it of a footing that has more:
/// the segments of networks but for vxlan numbers, hosts and bindings, and the own ports of
/// floating addresses.
pub fn tenants_stay_apart()
    ensures whole { (settings : SettingsParts)
        → KeepsApart (footing settings) (api_step settings) }
    ensures wider { (settings : SettingsParts)
        → KeepsApart (wider_footing settings) (api_step settings) }
{}
