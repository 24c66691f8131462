//! The laws of calls on ports.
ghost use Rattle.net_settings.specs.Settings.{SettingsParts};
ghost use Rattle.api_types.specs.declared.call.Call.TheVariants.{Create, Update, Delete};
ghost use Rattle.api_types.specs.declared.call.IdText.{IdText};
ghost use Rattle.api_types.specs.declared.form.PortForm.{PortForm};
ghost use Rattle.api_types.specs.declared.form.Form.TheVariants as form_of;
ghost use Rattle.api_types.specs.declared.kind.Kind.TheVariants.{Port};
ghost use Rattle.kept_laws.specs.Kept.{KeepsCall};
ghost use Rattle.apart_laws.specs.Alike.{KeepsCallApart};
ghost use Rattle.apart_laws.specs.Others.{SparesOthers};
ghost use Rattle.plan_ports.specs.PortCalls.{port_created, port_updated, port_deleted};

/// Accepted calls on ports keep rows.
pub fn port_calls_keep()
    ensures created { (settings : SettingsParts) (form : PortForm)
        → KeepsCall settings (Create (form_of.Port form))
        (λ state caller. port_created settings state caller form) }
    ensures updated { (settings : SettingsParts) (name : IdText) (form : PortForm)
        → KeepsCall settings (Update name (form_of.Port form))
        (λ state caller. port_updated settings state caller name form) }
    ensures deleted { (settings : SettingsParts) (name : IdText)
        → KeepsCall settings (Delete Port name) (λ state caller. port_deleted state caller name) }
{}

/// What a tenant is told of calls on ports depends on its footing alone.
pub fn port_calls_stay_apart()
    ensures created { (settings : SettingsParts) (form : PortForm)
        → KeepsCallApart settings (λ state caller. port_created settings state caller form) }
    ensures updated { (settings : SettingsParts) (name : IdText) (form : PortForm)
        → KeepsCallApart settings (λ state caller. port_updated settings state caller name form) }
    ensures deleted { (settings : SettingsParts) (name : IdText)
        → KeepsCallApart settings (λ state caller. port_deleted state caller name) }
{}

/// A tenant's accepted calls on ports leave what others own alone.
pub fn port_calls_spare_others()
    ensures created { (settings : SettingsParts) (form : PortForm)
        → SparesOthers (λ state caller. port_created settings state caller form) }
    ensures updated { (settings : SettingsParts) (name : IdText) (form : PortForm)
        → SparesOthers (λ state caller. port_updated settings state caller name form) }
    ensures deleted { (name : IdText)
        → SparesOthers (λ state caller. port_deleted state caller name) }
{}
