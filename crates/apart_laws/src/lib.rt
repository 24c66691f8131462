//! What a tenant's calls depend on, and what they leave alone: a tenant's footing, what others own,
//! and lemmas for the laws of the `plan_` crates.
//!
//! Crates above cite the lemmas in proofs/, and say by `KeepsCallApart` and `SparesOthers` what their
//! calls are told and spare; the functions here do nothing, and their contracts are the laws, of
//! steps that calls of several kinds take.
#![tactic(auto)]

ghost use Rattle.std.specs.Prelude.{◌≡◌, ◌||◌, ◌++◌, ◌∷◌, [], ℕ, None, Some, true, slice_get};
ghost use Rattle.std.specs.Str.{bytes_eq};
ghost use Rattle.net_addr.specs.Words.{Text};
ghost use Rattle.net_settings.specs.Settings.{SettingsParts};
ghost use Rattle.api_types.specs.Consistent.{IsConsistent};
ghost use Rattle.api_types.specs.Consistent.InForm.{is_network_of};
ghost use Rattle.api_types.specs.Registration.{Drawing};
ghost use Rattle.api_types.specs.RowLists.{RowLists};
ghost use Rattle.api_types.specs.WithRows.{with_put, without_row};
ghost use Rattle.api_types.specs.declared.call.Caller.{Caller};
ghost use Rattle.api_types.specs.declared.kind.Kind.TheVariants.{Port};
ghost use Rattle.api_types.specs.declared.kind.Row.TheVariants.{Router};
ghost use Rattle.api_types.specs.declared.network.NetworkRow.{NetworkRow};
ghost use Rattle.api_types.specs.declared.port.PortRow.{PortRow};
ghost use Rattle.api_types.specs.declared.router.Gateway.{Gateway};
ghost use Rattle.api_types.specs.declared.router.RouterRow.{RouterRow};
ghost use Rattle.row_laws.specs.Gone.{without_network};
ghost use Rattle.call_parts.specs.Edits.{Drop, made};
ghost use Rattle.call_parts.specs.Leaving.{disassociations};
ghost use Rattle.call_parts.specs.State.{State, drawing_at};
ghost use Rattle.apart_laws.specs.Footing.{footing};
ghost use Rattle.apart_laws.specs.Others.{OthersStay};

/// Where its footing is the same, a caller draws the same ids for its project.
pub fn drawings_stay_apart()
    ensures { (settings : SettingsParts) (caller : Caller) (s t : State) (many : ℕ) (x y : Drawing)
        → footing settings s caller ≡ footing settings t caller
        → drawing_at s caller.project many ≡ Some x → drawing_at t caller.project many ≡ Some y
        → (x.ordinal ≡ y.ordinal) × (x.first ≡ y.first) }
{}

/// Ids that are drawn for a project leave what others own alone.
pub fn drawings_spare_others()
    ensures { (state : State) (project : Text) (many : ℕ) (d : Drawing)
        → drawing_at state project many ≡ Some d → OthersStay project state.rows d.rows }
{}

/// A network of a project goes with what is on it, and leaves what others own alone.
pub fn networks_gone_spare_others()
    ensures { (rows : RowLists) (project : Text) (k : ℕ) (n : NetworkRow) → IsConsistent rows
        → slice_get rows.networks k ≡ Some n → bytes_eq n.project project ≡ true
        → OthersStay project rows (without_network rows n.id) }
{}

/// A port goes, of a project or on a network of it, and leaves what others own alone.
pub fn ports_gone_spare_others()
    ensures { (rows : RowLists) (project : Text) (k : ℕ) (p : PortRow) → IsConsistent rows
        → slice_get rows.ports k ≡ Some p
        → bytes_eq p.project project || is_network_of rows.networks project p.network ≡ true
        → OthersStay project rows
        (made rows (disassociations rows.floatings p.id [] ++ Drop Port p.id ∷ [])) }
{}

/// A gateway of a project's router goes with its port, and leaves what others own alone.
pub fn gateways_gone_spare_others()
    ensures { (rows : RowLists) (project : Text) (k : ℕ) (r : RouterRow) (g : Gateway)
        → IsConsistent rows → slice_get rows.routers k ≡ Some r
        → bytes_eq r.project project ≡ true → r.gateway ≡ Some g
        → OthersStay project rows
        (without_row (with_put rows (Router (record r { gateway = None }))) Port g.port) }
{}
