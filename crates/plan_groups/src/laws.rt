//! The laws of calls on groups and their rules.
ghost use Rattle.net_settings.specs.Settings.{SettingsParts};
ghost use Rattle.api_types.specs.declared.call.Call.TheVariants.{Create, Update, Delete};
ghost use Rattle.api_types.specs.declared.call.IdText.{IdText};
ghost use Rattle.api_types.specs.declared.form.GroupForm.{GroupForm};
ghost use Rattle.api_types.specs.declared.form.RuleForm.{RuleForm};
ghost use Rattle.api_types.specs.declared.form.Form.TheVariants as form_of;
ghost use Rattle.api_types.specs.declared.kind.Kind.TheVariants.{Group, Rule};
ghost use Rattle.kept_laws.specs.Kept.{KeepsCall};
ghost use Rattle.apart_laws.specs.Alike.{KeepsCallApart};
ghost use Rattle.apart_laws.specs.Others.{SparesOthers};
ghost use Rattle.plan_groups.specs.GroupCalls.{group_created, group_updated, group_deleted, rule_created, rule_deleted};

/// Accepted calls on groups and their rules keep rows.
pub fn group_calls_keep()
    ensures created { (settings : SettingsParts) (form : GroupForm)
        → KeepsCall settings (Create (form_of.Group form))
        (λ state caller. group_created settings state caller form) }
    ensures updated { (settings : SettingsParts) (name : IdText) (form : GroupForm)
        → KeepsCall settings (Update name (form_of.Group form))
        (λ state caller. group_updated state caller name form) }
    ensures deleted { (settings : SettingsParts) (name : IdText)
        → KeepsCall settings (Delete Group name) (λ state caller. group_deleted state caller name) }
    ensures rule_created { (settings : SettingsParts) (form : RuleForm)
        → KeepsCall settings (Create (form_of.Rule form))
        (λ state caller. rule_created settings state caller form) }
    ensures rule_deleted { (settings : SettingsParts) (name : IdText)
        → KeepsCall settings (Delete Rule name) (λ state caller. rule_deleted state caller name) }
{}

/// What a tenant is told of calls on groups and their rules depends on its footing alone.
pub fn group_calls_stay_apart()
    ensures created { (settings : SettingsParts) (form : GroupForm)
        → KeepsCallApart settings (λ state caller. group_created settings state caller form) }
    ensures updated { (settings : SettingsParts) (name : IdText) (form : GroupForm)
        → KeepsCallApart settings (λ state caller. group_updated state caller name form) }
    ensures deleted { (settings : SettingsParts) (name : IdText)
        → KeepsCallApart settings (λ state caller. group_deleted state caller name) }
    ensures rule_created { (settings : SettingsParts) (form : RuleForm)
        → KeepsCallApart settings (λ state caller. rule_created settings state caller form) }
    ensures rule_deleted { (settings : SettingsParts) (name : IdText)
        → KeepsCallApart settings (λ state caller. rule_deleted state caller name) }
{}

/// A tenant's accepted calls on groups and their rules leave what others own alone.
pub fn group_calls_spare_others()
    ensures created { (settings : SettingsParts) (form : GroupForm)
        → SparesOthers (λ state caller. group_created settings state caller form) }
    ensures updated { (name : IdText) (form : GroupForm)
        → SparesOthers (λ state caller. group_updated state caller name form) }
    ensures deleted { (name : IdText)
        → SparesOthers (λ state caller. group_deleted state caller name) }
    ensures rule_created { (settings : SettingsParts) (form : RuleForm)
        → SparesOthers (λ state caller. rule_created settings state caller form) }
    ensures rule_deleted { (name : IdText)
        → SparesOthers (λ state caller. rule_deleted state caller name) }
{}
