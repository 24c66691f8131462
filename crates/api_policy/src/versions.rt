//! The last version, after which nothing changes any more.

ghost use Rattle.std.specs.Prelude.{◌-◌, ◌^◌, ◌==◌};
ghost use Rattle.api_types.specs.Refusing.{when};
ghost use Rattle.api_types.specs.declared.refusal.Refusal.TheVariants.{CountersSpent as SpentCounters};
ghost use Rattle.api_policy.specs.Checks.{IsAnswerOf};

use api_types::Refusal;

/// Refuses where the version is at its last value.
pub fn ensure_version_left(version: u64) -> Result<(), Refusal>
    ensures { IsAnswerOf (when (version == (2 ^ 64 - 1)) SpentCounters) result }
{
    if version == u64::MAX {
        return Err(Refusal::CountersSpent);
    }
    Ok(())
}
