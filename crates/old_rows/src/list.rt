//! Lists of old values.

ghost use Rattle.std.specs.Prelude.{◌≡◌, IfOk, map, option_map};

use crate::migrates::Migrates;
use net_addr::{OutOfMemory, Seq};
use std::alloc::Global;

/// The values of today, in the same order.
pub(crate) fn migrate_all<T: Migrates>(
    alloc: Global,
    old: &Seq<T>,
) -> Result<Seq<T::Now>, OutOfMemory>
    ensures { IfOk result (λ xs. xs ≡ map T.migrated old.now) }
{
    let mut items = Seq::new(alloc);
    for item in old.as_slice() {
        items.push(item.migrate(alloc)?)?;
    }
    Ok(items)
}

/// The value of today, where there is one.
pub(crate) fn migrate_some<T: Migrates>(
    alloc: Global,
    old: &Option<T>,
) -> Result<Option<T::Now>, OutOfMemory>
    ensures { IfOk result (λ x. x ≡ option_map T.migrated old.now) }
{
    match old {
        None => Ok(None),
        Some(value) => Ok(Some(value.migrate(alloc)?)),
    }
}
