//! Laws of what bytes decide.
ghost use Rattle.std.specs.Prelude.{◌≡◌, ℕ, List, ◌++◌};
ghost use Rattle.http_heads.specs.Heads.{Judgement, Decides, Asked, Takes, IsWaiting};

/// Bytes decide one thing, begin with one request, and keep both whatever follows.
pub fn head_laws()
    ensures one { (bytes : List ℕ) (i j : Judgement) → Decides bytes i → Decides bytes j → i ≡ j }
    ensures stays { (bytes more : List ℕ) (j : Judgement) → Decides bytes j
        → Decides (bytes ++ more) j }
    ensures request { (bytes : List ℕ) (a b : Asked) (r q : List ℕ) → Takes bytes a r
        → Takes bytes b q → (a ≡ b) × (r ≡ q) }
    ensures follows { (bytes rest more : List ℕ) (a : Asked) → Takes bytes a rest
        → Takes (bytes ++ more) a (rest ++ more) }
    ensures waits { (bytes rest : List ℕ) (a : Asked) → Takes bytes a rest → IsWaiting bytes → ⊥ }
{}
