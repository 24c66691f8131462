//! The subnets that a change touches.

ghost use Rattle.std.specs.Prelude.{◌≡◌, IfOk, false};
ghost use Rattle.std.specs.HashSet.{contains};
ghost use Rattle.api_types.specs.Ident.{Ident};
ghost use Rattle.api_types.specs.RowsWith.{subnet_with};
ghost use Rattle.api_types.specs.Table.{ident_eq};
ghost use Rattle.table_edits.specs.Rewires.{LeadsOn};
ghost use Rattle.table_edits.specs.Untouched.{SubnetStays};

use crate::alike::{Alike, changed_ids};
use api_types::{Id, Item, Rows, SubnetRow};
use net_addr::{OutOfMemory, Same};
use std::alloc::Global;
use std::collections::HashSet;

/// In what its ports are told, and what routes lead to it.
impl Alike for SubnetRow {
    ghost use Rattle.std.specs.Prelude.{refl};
    ghost use Rattle.table_edits.specs.Untouched.{SaysTheSame};

    ghost alike = { SaysTheSame };

    ghost itself = { λ r.
        record { prefix = refl; gateway = refl; dns = refl; host_routes = refl } };

    fn is_alike(&self, other: &SubnetRow) -> bool {
        self.prefix == other.prefix
            && self.gateway.is_same(&other.gateway)
            && self.dns.is_same(&other.dns)
            && self.host_routes.is_same(&other.host_routes)
    }
}

/// The subnets that a change touches: that come or go, or whose prefix, gateway, name servers or
/// host routes differ. Its cost grows with the items.
pub fn touched_subnets(
    alloc: Global,
    before: &Rows,
    after: &Rows,
    items: &[Item],
) -> Result<HashSet<Id>, OutOfMemory>
    requires { LeadsOn before.now items.now after.now }
    ensures { IfOk result
        (λ s. (n : Ident) → contains ident_eq s n ≡ false
        → SubnetStays (subnet_with before.now n) (subnet_with after.now n)) }
{
    changed_ids(alloc, before.subnets(), after.subnets(), items)
}
