//! The law of migrated rows.

ghost use Rattle.api_types.specs.Consistent.{IsConsistent};
ghost use Rattle.old_rows.specs.Migrated.{migrated};
ghost use Rattle.old_rows.specs.OldConsistent.{AreConsistentOld};
ghost use Rattle.old_rows.specs.OldLists.{OldLists};

/// Where old rows were consistent, the migrated ones are.
pub fn migrated_rows_are_consistent()
    ensures { (old : OldLists) → AreConsistentOld old → IsConsistent (migrated old) }
{}
