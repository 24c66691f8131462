//! Draws of a linear congruential generator.

ghost use Rattle.std.specs.Prelude.{◌≡◌, ◌<◌, ◌^◌};
ghost use Rattle.drill_gen.specs.Draws.{drawn, state_after};

// The state after a draw.
#[tactic(auto, unfolding(crate::specs::Draws::state_after))]
fn moved(state: u64) -> u64
    ensures { result ≡ state_after state }
{
    state
        .wrapping_mul(6_364_136_223_846_793_005)
        .wrapping_add(1_442_695_040_888_963_407)
}

/// Draws a number below 2^31 and moves the state on.
pub(crate) fn draw(state: &mut u64) -> u64
    ensures state { state.new ≡ state_after state.old }
    ensures drawn { result ≡ drawn state.old }
    ensures small { result < 2 ^ 31 }
{
    *state = moved(*state);
    *state >> 33
}
