//! The laws of calls on floating addresses.
ghost use Rattle.net_settings.specs.Settings.{SettingsParts};
ghost use Rattle.api_types.specs.declared.call.Call.TheVariants.{Create, Update, Delete};
ghost use Rattle.api_types.specs.declared.call.IdText.{IdText};
ghost use Rattle.api_types.specs.declared.form.FloatingForm.{FloatingForm};
ghost use Rattle.api_types.specs.declared.form.Form.TheVariants as form_of;
ghost use Rattle.api_types.specs.declared.kind.Kind.TheVariants.{Floating};
ghost use Rattle.kept_laws.specs.Kept.{KeepsCall};
ghost use Rattle.apart_laws.specs.Alike.{KeepsCallApart};
ghost use Rattle.apart_laws.specs.Others.{SparesOthers};
ghost use Rattle.plan_floatings.specs.FloatingCalls.{floating_created, floating_updated, floating_deleted};

/// Accepted calls on floating addresses keep rows.
pub fn floating_calls_keep()
    ensures created { (settings : SettingsParts) (form : FloatingForm)
        → KeepsCall settings (Create (form_of.Floating form))
        (λ state caller. floating_created settings state caller form) }
    ensures updated { (settings : SettingsParts) (name : IdText) (form : FloatingForm)
        → KeepsCall settings (Update name (form_of.Floating form))
        (λ state caller. floating_updated state caller name form) }
    ensures deleted { (settings : SettingsParts) (name : IdText)
        → KeepsCall settings (Delete Floating name)
        (λ state caller. floating_deleted state caller name) }
{}

/// What a tenant is told of calls on floating addresses depends on its footing alone.
pub fn floating_calls_stay_apart()
    ensures created { (settings : SettingsParts) (form : FloatingForm)
        → KeepsCallApart settings (λ state caller. floating_created settings state caller form) }
    ensures updated { (settings : SettingsParts) (name : IdText) (form : FloatingForm)
        → KeepsCallApart settings (λ state caller. floating_updated state caller name form) }
    ensures deleted { (settings : SettingsParts) (name : IdText)
        → KeepsCallApart settings (λ state caller. floating_deleted state caller name) }
{}

/// A tenant's accepted calls on floating addresses leave what others own alone.
pub fn floating_calls_spare_others()
    ensures created { (settings : SettingsParts) (form : FloatingForm)
        → SparesOthers (λ state caller. floating_created settings state caller form) }
    ensures updated { (name : IdText) (form : FloatingForm)
        → SparesOthers (λ state caller. floating_updated state caller name form) }
    ensures deleted { (name : IdText)
        → SparesOthers (λ state caller. floating_deleted state caller name) }
{}
