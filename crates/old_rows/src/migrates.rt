//! What of an old row has a value of today.

ghost use Rattle.std.specs.Prelude.{◌≡◌, IfOk};

use net_addr::OutOfMemory;
use std::alloc::Global;

/// An old value, of which there is one of today.
pub(crate) trait Migrates: Sized + Drop {
    type Now: Drop;

    ghost migrated: { Self → Self.Now };

    /// The value of today. Its cost grows with the value.
    fn migrate(&self, alloc: Global) -> Result<Self::Now, OutOfMemory>
        ensures { IfOk result (λ x. x ≡ migrated self.now) };
}
