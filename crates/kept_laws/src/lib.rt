//! What calls of all kinds keep of rows: lemmas for the laws of the `plan_` crates.
//!
//! What an outcome says of the refusals that a call passed, what edits make of rows, which values
//! are chosen, and that no refusal is that of a failed store. Crates above cite the lemmas in
//! proofs/, and say by `KeepsCall` what their calls keep; the function here does nothing, and its
//! contract is a law.
#![tactic(auto)]

ghost use Rattle.std.specs.Prelude.{ℕ, List};
ghost use Rattle.net_settings.specs.Settings.{SettingsParts};
ghost use Rattle.api_types.specs.Registration.{Drawing};
ghost use Rattle.api_types.specs.RowLists.{RowLists};
ghost use Rattle.row_laws.specs.Drawn.{IsDrawing};
ghost use Rattle.call_parts.specs.Typed.{AreTyped};
ghost use Rattle.kept_laws.specs.Kept.{AreKept};

/// Ids that are drawn leave rows consistent and as their types say, and bound ports on hosts that
/// carry them where they were.
pub fn drawings_keep()
    ensures { (settings : SettingsParts) (rows : RowLists) (name : List ℕ) (many : ℕ) (d : Drawing)
        → IsDrawing rows name many d → AreTyped rows → AreKept settings rows d.rows }
{}
