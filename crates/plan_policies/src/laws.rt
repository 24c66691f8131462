//! The laws of calls on policies.
ghost use Rattle.net_settings.specs.Settings.{SettingsParts};
ghost use Rattle.api_types.specs.declared.call.Call.TheVariants.{Create, Update, Delete};
ghost use Rattle.api_types.specs.declared.call.IdText.{IdText};
ghost use Rattle.api_types.specs.declared.form.PolicyForm.{PolicyForm};
ghost use Rattle.api_types.specs.declared.form.Form.TheVariants as form_of;
ghost use Rattle.api_types.specs.declared.kind.Kind.TheVariants.{Policy};
ghost use Rattle.kept_laws.specs.Kept.{KeepsCall};
ghost use Rattle.apart_laws.specs.Alike.{KeepsCallApart};
ghost use Rattle.apart_laws.specs.Others.{SparesOthers};
ghost use Rattle.plan_policies.specs.PolicyCalls.{policy_created, policy_updated, policy_deleted};

/// Accepted calls on policies keep rows.
pub fn policy_calls_keep()
    ensures created { (settings : SettingsParts) (form : PolicyForm)
        → KeepsCall settings (Create (form_of.Policy form))
        (λ state caller. policy_created settings state caller form) }
    ensures updated { (settings : SettingsParts) (name : IdText) (form : PolicyForm)
        → KeepsCall settings (Update name (form_of.Policy form))
        (λ state caller. policy_updated state caller name form) }
    ensures deleted { (settings : SettingsParts) (name : IdText)
        → KeepsCall settings (Delete Policy name)
        (λ state caller. policy_deleted state caller name) }
{}

/// What a tenant is told of calls on policies depends on its footing alone.
pub fn policy_calls_stay_apart()
    ensures created { (settings : SettingsParts) (form : PolicyForm)
        → KeepsCallApart settings (λ state caller. policy_created settings state caller form) }
    ensures updated { (settings : SettingsParts) (name : IdText) (form : PolicyForm)
        → KeepsCallApart settings (λ state caller. policy_updated state caller name form) }
    ensures deleted { (settings : SettingsParts) (name : IdText)
        → KeepsCallApart settings (λ state caller. policy_deleted state caller name) }
{}

/// A tenant's accepted calls on policies leave what others own alone.
pub fn policy_calls_spare_others()
    ensures created { (settings : SettingsParts) (form : PolicyForm)
        → SparesOthers (λ state caller. policy_created settings state caller form) }
    ensures updated { (name : IdText) (form : PolicyForm)
        → SparesOthers (λ state caller. policy_updated state caller name form) }
    ensures deleted { (name : IdText)
        → SparesOthers (λ state caller. policy_deleted state caller name) }
{}
