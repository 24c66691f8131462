//! The laws of calls on networks.
ghost use Rattle.net_settings.specs.Rules.{MeetsRules};
ghost use Rattle.net_settings.specs.Settings.{SettingsParts};
ghost use Rattle.api_types.specs.declared.call.Call.TheVariants.{Create, Update, Delete};
ghost use Rattle.api_types.specs.declared.call.IdText.{IdText};
ghost use Rattle.api_types.specs.declared.form.NetworkForm.{NetworkForm};
ghost use Rattle.api_types.specs.declared.form.Form.TheVariants as form_of;
ghost use Rattle.api_types.specs.declared.kind.Kind.TheVariants.{Network};
ghost use Rattle.kept_laws.specs.Kept.{KeepsCall};
ghost use Rattle.apart_laws.specs.Alike.{KeepsCallApart};
ghost use Rattle.apart_laws.specs.Others.{SparesOthers};
ghost use Rattle.plan_networks.specs.NetworkCalls.{network_created, network_updated, network_deleted};

/// Accepted calls on networks keep rows.
pub fn network_calls_keep()
    ensures created { (settings : SettingsParts) (form : NetworkForm) → MeetsRules settings
        → KeepsCall settings (Create (form_of.Network form))
        (λ state caller. network_created settings state caller form) }
    ensures updated { (settings : SettingsParts) (name : IdText) (form : NetworkForm)
        → KeepsCall settings (Update name (form_of.Network form))
        (λ state caller. network_updated state caller name form) }
    ensures deleted { (settings : SettingsParts) (name : IdText)
        → KeepsCall settings (Delete Network name)
        (λ state caller. network_deleted state caller name) }
{}

/// What a tenant is told of calls on networks depends on its footing alone.
pub fn network_calls_stay_apart()
    ensures created { (settings : SettingsParts) (form : NetworkForm)
        → KeepsCallApart settings (λ state caller. network_created settings state caller form) }
    ensures updated { (settings : SettingsParts) (name : IdText) (form : NetworkForm)
        → KeepsCallApart settings (λ state caller. network_updated state caller name form) }
    ensures deleted { (settings : SettingsParts) (name : IdText)
        → KeepsCallApart settings (λ state caller. network_deleted state caller name) }
{}

/// A tenant's accepted calls on networks leave what others own alone.
pub fn network_calls_spare_others()
    ensures created { (settings : SettingsParts) (form : NetworkForm)
        → SparesOthers (λ state caller. network_created settings state caller form) }
    ensures updated { (name : IdText) (form : NetworkForm)
        → SparesOthers (λ state caller. network_updated state caller name form) }
    ensures deleted { (name : IdText)
        → SparesOthers (λ state caller. network_deleted state caller name) }
{}
