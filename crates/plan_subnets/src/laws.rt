//! The laws of calls on subnets.
ghost use Rattle.net_settings.specs.Settings.{SettingsParts};
ghost use Rattle.api_types.specs.declared.call.Call.TheVariants.{Create, Update, Delete};
ghost use Rattle.api_types.specs.declared.call.IdText.{IdText};
ghost use Rattle.api_types.specs.declared.form.SubnetForm.{SubnetForm};
ghost use Rattle.api_types.specs.declared.form.Form.TheVariants as form_of;
ghost use Rattle.api_types.specs.declared.kind.Kind.TheVariants.{Subnet};
ghost use Rattle.kept_laws.specs.Kept.{KeepsCall};
ghost use Rattle.apart_laws.specs.Alike.{KeepsCallApart};
ghost use Rattle.apart_laws.specs.Others.{SparesOthers};
ghost use Rattle.plan_subnets.specs.SubnetCalls.{subnet_created, subnet_updated, subnet_deleted};

/// Accepted calls on subnets keep rows.
pub fn subnet_calls_keep()
    ensures created { (settings : SettingsParts) (form : SubnetForm)
        → KeepsCall settings (Create (form_of.Subnet form))
        (λ state caller. subnet_created settings state caller form) }
    ensures updated { (settings : SettingsParts) (name : IdText) (form : SubnetForm)
        → KeepsCall settings (Update name (form_of.Subnet form))
        (λ state caller. subnet_updated settings state caller name form) }
    ensures deleted { (settings : SettingsParts) (name : IdText)
        → KeepsCall settings (Delete Subnet name)
        (λ state caller. subnet_deleted state caller name) }
{}

/// What a tenant is told of calls on subnets depends on its footing alone.
pub fn subnet_calls_stay_apart()
    ensures created { (settings : SettingsParts) (form : SubnetForm)
        → KeepsCallApart settings (λ state caller. subnet_created settings state caller form) }
    ensures updated { (settings : SettingsParts) (name : IdText) (form : SubnetForm)
        → KeepsCallApart settings (λ state caller. subnet_updated settings state caller name form) }
    ensures deleted { (settings : SettingsParts) (name : IdText)
        → KeepsCallApart settings (λ state caller. subnet_deleted state caller name) }
{}

/// A tenant's accepted calls on subnets leave what others own alone.
pub fn subnet_calls_spare_others()
    ensures created { (settings : SettingsParts) (form : SubnetForm)
        → SparesOthers (λ state caller. subnet_created settings state caller form) }
    ensures updated { (settings : SettingsParts) (name : IdText) (form : SubnetForm)
        → SparesOthers (λ state caller. subnet_updated settings state caller name form) }
    ensures deleted { (name : IdText)
        → SparesOthers (λ state caller. subnet_deleted state caller name) }
{}
