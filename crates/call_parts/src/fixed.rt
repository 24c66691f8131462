//! Addresses of new ports.

ghost use Rattle.std.specs.Prelude.{◌≡◌, [], ◌∷◌, IfOk};

use api_types::{Fixed, FixedList};
use net_addr::{OutOfMemory, Seq};
use std::alloc::Global;

/// This address alone.
pub fn one_fixed(alloc: Global, fixed: &Fixed) -> Result<FixedList, OutOfMemory>
    ensures { IfOk result (λ list. list ≡ fixed.now ∷ []) }
{
    let Fixed { subnet, address } = *fixed;
    let mut list = Seq::new(alloc);
    list.push(Fixed { subnet, address })?;
    Ok(list)
}
