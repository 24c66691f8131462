//! Which first packets of one port come to another, and what decides it.
//!
//! A law over the definitions of `plane_types` alone, for consistent rows. The function does
//! nothing, and its contract is the law; crates above cite the definitions, so nothing is proved
//! twice.
#![tactic(auto)]

mod kind;

ghost use Rattle.std.specs.Prelude.{◌≡◌, ◌==◌, ℕ, Some, false};
ghost use Rattle.net_addr.specs.declared.address.Addr.{Addr};
ghost use Rattle.api_types.specs.Consistent.{IsConsistent};
ghost use Rattle.api_types.specs.RowLists.{RowLists};
ghost use Rattle.api_types.specs.RowsWith.{port_with};
ghost use Rattle.api_types.specs.declared.port.PortRow.{PortRow};
ghost use Rattle.reach_laws.specs.declared.kind.ReachKind.{ReachKind as Kind};
ghost use Rattle.reach_laws.specs.Decides.{Decides};
ghost use Rattle.reach_laws.specs.Numbers.{part_by};
ghost use Rattle.reach_laws.specs.Pieces.{AreOnePiece};
ghost use Rattle.reach_laws.specs.Reach.{Reaches, comes};

pub use kind::ReachKind;

/// One event decides for a whole piece of numbers and for all sources: that to a number of the
/// piece, from any source other than it. An event from the source that is the number may come where
/// no other does, as the answer to itself.
pub fn one_event_decides()
    ensures { (rows : RowLists) → IsConsistent rows → (p q : PortRow)
        → port_with rows p.id ≡ Some p → port_with rows q.id ≡ Some q
        → (a b : Addr) (kind : Kind) (s d e : ℕ)
        → (s == d) ≡ false → AreOnePiece rows p q kind d e
        → Decides (comes rows p a q b (part_by kind s d)) (Reaches rows p a q b kind e) }
{}
