//! The law of accounts of one input.
ghost use Rattle.std.specs.Prelude.{◌≡◌, ℕ, List};
ghost use Rattle.http_heads.specs.Heads.{IsWaiting};
ghost use Rattle.http_session.specs.Accounts.{AllAnswered, IsFunctional};
ghost use Rattle.http_session.specs.Serves.{Answers};
ghost use Rattle.http_session.specs.Told.{Stage, Told};

use crate::handler::Handler;

/// Where the step is a function, two accounts of one input are one: if each answers every request
/// by the step, and the bytes that are left wait for more, the replies, the world and the bytes
/// left are the same.
pub fn session_laws<H: Handler>()
    ensures { IsFunctional H.steps
        → (v w x y : Stage _) (bytes left rest : List ℕ) (ts us : List Told)
        → v.world ≡ w.world → AllAnswered ts → AllAnswered us
        → Answers H.steps H.fixed v bytes ts x left → IsWaiting left
        → Answers H.steps H.fixed w bytes us y rest → IsWaiting rest
        → (ts ≡ us) × (x.world ≡ y.world) × (left ≡ rest) }
{}
