//! The trait of rows that are shown.

ghost use Rattle.std.specs.Prelude.{◌≡◌, IfOk, map};
ghost use Rattle.api_types.specs.Printed.{member_of};

use api_types::{Caller, Members, RowKind, Rows};
use net_addr::OutOfMemory;
use std::alloc::Global;

/// A row that is shown.
pub trait Shows: RowKind {
    ghost use Rattle.std.specs.Prelude.{◌≡◌, Bool, List, true};
    ghost use Rattle.api_types.specs.Printed.{NamedTree};
    ghost use Rattle.api_types.specs.RowLists.{RowLists};
    ghost use Rattle.api_types.specs.Rows.{after_of_kind};
    ghost use Rattle.api_types.specs.declared.change.Item.{Item as TheItem};
    ghost use Rattle.api_types.specs.declared.call.Caller.{Caller as TheCaller};

    ghost members_of: { RowLists → TheCaller → Self → List NamedTree };

    ghost is_apart: { Bool };

    /// All members that are printed of the row, in byte order of their names. Of a network's
    /// subnets those are named that the caller sees. Its cost grows with the row, the rules, and
    /// the subnets times the policies.
    fn members(&self, alloc: Global, rows: &Rows, caller: &Caller) -> Result<Members, OutOfMemory>
        ensures { IfOk result (λ m. map member_of m ≡ members_of rows.now caller.now self.now) };

    /// Whether no member says anything of other rows of its kind. Those of a network do: which of
    /// its subnets a caller sees is asked of the networks.
    fn is_apart() -> bool
        ensures { result ≡ is_apart };

    ghost apart: { is_apart ≡ true
        → (rows : RowLists) (item : TheItem) (caller : TheCaller) (r : Self)
        → members_of (after_of_kind Self.kind_is rows item) caller r ≡ members_of rows caller r };
}
