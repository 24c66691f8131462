//! The laws of calls on routers and their interfaces.
ghost use Rattle.net_settings.specs.Settings.{SettingsParts};
ghost use Rattle.api_types.specs.declared.call.Call.TheVariants.{Create, Update, Delete, AddInterface, RemoveInterface};
ghost use Rattle.api_types.specs.declared.call.IdText.{IdText};
ghost use Rattle.api_types.specs.declared.call.InterfaceBy.{InterfaceBy};
ghost use Rattle.api_types.specs.declared.form.RouterForm.{RouterForm};
ghost use Rattle.api_types.specs.declared.form.Form.TheVariants as form_of;
ghost use Rattle.api_types.specs.declared.kind.Kind.TheVariants.{Router};
ghost use Rattle.kept_laws.specs.Kept.{KeepsCall};
ghost use Rattle.apart_laws.specs.Alike.{KeepsCallApart};
ghost use Rattle.apart_laws.specs.Others.{SparesOthers};
ghost use Rattle.plan_routers.specs.RouterCalls.{router_created, router_updated, router_deleted};
ghost use Rattle.plan_routers.specs.InterfaceCalls.{interface_added, interface_removed};

/// Accepted calls on routers keep rows.
pub fn router_calls_keep()
    ensures created { (settings : SettingsParts) (form : RouterForm)
        → KeepsCall settings (Create (form_of.Router form))
        (λ state caller. router_created settings state caller form) }
    ensures updated { (settings : SettingsParts) (name : IdText) (form : RouterForm)
        → KeepsCall settings (Update name (form_of.Router form))
        (λ state caller. router_updated settings state caller name form) }
    ensures deleted { (settings : SettingsParts) (name : IdText)
        → KeepsCall settings (Delete Router name)
        (λ state caller. router_deleted state caller name) }
{}

/// What a tenant is told of calls on routers depends on its footing alone.
pub fn router_calls_stay_apart()
    ensures created { (settings : SettingsParts) (form : RouterForm)
        → KeepsCallApart settings (λ state caller. router_created settings state caller form) }
    ensures updated { (settings : SettingsParts) (name : IdText) (form : RouterForm)
        → KeepsCallApart settings (λ state caller. router_updated settings state caller name form) }
    ensures deleted { (settings : SettingsParts) (name : IdText)
        → KeepsCallApart settings (λ state caller. router_deleted state caller name) }
{}

/// A tenant's accepted calls on routers leave what others own alone.
pub fn router_calls_spare_others()
    ensures created { (settings : SettingsParts) (form : RouterForm)
        → SparesOthers (λ state caller. router_created settings state caller form) }
    ensures updated { (settings : SettingsParts) (name : IdText) (form : RouterForm)
        → SparesOthers (λ state caller. router_updated settings state caller name form) }
    ensures deleted { (name : IdText)
        → SparesOthers (λ state caller. router_deleted state caller name) }
{}

/// Accepted calls on interfaces of routers keep rows.
pub fn interface_calls_keep()
    ensures added { (settings : SettingsParts) (name : IdText) (by : InterfaceBy)
        → KeepsCall settings (AddInterface name by)
        (λ state caller. interface_added settings state caller name by) }
    ensures removed { (settings : SettingsParts) (name : IdText) (by : InterfaceBy)
        → KeepsCall settings (RemoveInterface name by)
        (λ state caller. interface_removed state caller name by) }
{}

/// What a tenant is told of calls on interfaces of routers depends on its footing alone.
pub fn interface_calls_stay_apart()
    ensures added { (settings : SettingsParts) (name : IdText) (by : InterfaceBy)
        → KeepsCallApart settings (λ state caller. interface_added settings state caller name by) }
    ensures removed { (settings : SettingsParts) (name : IdText) (by : InterfaceBy)
        → KeepsCallApart settings (λ state caller. interface_removed state caller name by) }
{}

/// A tenant's accepted calls on interfaces of routers leave what others own alone.
pub fn interface_calls_spare_others()
    ensures added { (settings : SettingsParts) (name : IdText) (by : InterfaceBy)
        → SparesOthers (λ state caller. interface_added settings state caller name by) }
    ensures removed { (name : IdText) (by : InterfaceBy)
        → SparesOthers (λ state caller. interface_removed state caller name by) }
{}
