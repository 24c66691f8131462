//! What holds of options and numbers, whatever their values.

ghost use Rattle.std.specs.Prelude.{◌≡◌, ◌++◌, ◌∷◌, ◌-◌, ◌^◌, [], ℕ, List, None, Some, codes, false, option_and_then, option_map, true};
ghost use Rattle.command_lines.specs.Lines.{line_of, opening_by};
ghost use Rattle.command_lines.specs.Values.{delivery_of, is_value, number_of};
ghost use Rattle.command_lines.specs.declared.line.Delivery.TheVariants.{Automatic};
ghost use Rattle.command_lines.specs.declared.line.Line.TheVariants.{Drill, Serve, Session};

/// `--store`: its value follows `=` or is the next word, what is no value is refused, and so is the
/// option where it is there twice.
pub fn store_laws()
    ensures joined { (v : List ℕ) → is_value v ≡ true
        → line_of (codes "session" ∷ (codes "--store=" ++ v) ∷ [])
        ≡ Some (Session (opening_by None (Some v) Automatic)) }
    ensures apart { (v : List ℕ) → is_value v ≡ true
        → line_of (codes "session" ∷ codes "--store" ∷ v ∷ [])
        ≡ Some (Session (opening_by None (Some v) Automatic)) }
    ensures none { (v : List ℕ) → is_value v ≡ false
        → line_of (codes "session" ∷ (codes "--store=" ++ v) ∷ []) ≡ None }
    ensures twice { (v w : List ℕ)
        → line_of (codes "session" ∷ (codes "--store=" ++ v) ∷ (codes "--store=" ++ w) ∷ [])
        ≡ None }
{}

/// `--settings`, in the same ways.
pub fn settings_laws()
    ensures joined { (v : List ℕ) → is_value v ≡ true
        → line_of (codes "session" ∷ (codes "--settings=" ++ v) ∷ [])
        ≡ Some (Session (opening_by (Some v) None Automatic)) }
    ensures apart { (v : List ℕ) → is_value v ≡ true
        → line_of (codes "session" ∷ codes "--settings" ∷ v ∷ [])
        ≡ Some (Session (opening_by (Some v) None Automatic)) }
    ensures none { (v : List ℕ) → is_value v ≡ false
        → line_of (codes "session" ∷ (codes "--settings=" ++ v) ∷ []) ≡ None }
    ensures twice { (v w : List ℕ)
        → line_of (codes "session" ∷ (codes "--settings=" ++ v) ∷ (codes "--settings=" ++ w) ∷ [])
        ≡ None }
{}

/// `--delivery`: its value is a way of delivery.
pub fn delivery_laws()
    ensures joined { (v : List ℕ) → line_of (codes "session" ∷ (codes "--delivery=" ++ v) ∷ [])
        ≡ option_map (λ d. Session (opening_by None None d)) (delivery_of (Some v)) }
    ensures apart { (v : List ℕ) → is_value v ≡ true
        → line_of (codes "session" ∷ codes "--delivery" ∷ v ∷ [])
        ≡ option_map (λ d. Session (opening_by None None d)) (delivery_of (Some v)) }
    ensures twice { (v w : List ℕ)
        → line_of (codes "session" ∷ (codes "--delivery=" ++ v) ∷ (codes "--delivery=" ++ w) ∷ [])
        ≡ None }
{}

/// `--listen` and `--connections` of `serve`: the first has a value, the second a number.
pub fn serve_laws()
    ensures joined { (v w : List ℕ) → is_value v ≡ true
        → line_of (codes "serve" ∷ (codes "--listen=" ++ v) ∷ (codes "--connections=" ++ w) ∷ [])
        ≡ option_map (λ n. Serve (opening_by None None Automatic) v n) (number_of 1 1000000 w) }
    ensures turned { (v w : List ℕ) → is_value v ≡ true
        → line_of (codes "serve" ∷ (codes "--connections=" ++ w) ∷ (codes "--listen=" ++ v) ∷ [])
        ≡ option_map (λ n. Serve (opening_by None None Automatic) v n) (number_of 1 1000000 w) }
    ensures listen_apart { (v w : List ℕ) → is_value v ≡ true
        → line_of (codes "serve" ∷ codes "--listen" ∷ v ∷ (codes "--connections=" ++ w) ∷ [])
        ≡ option_map (λ n. Serve (opening_by None None Automatic) v n) (number_of 1 1000000 w) }
    ensures connections_apart { (w : List ℕ) → is_value w ≡ true
        → line_of (codes "serve" ∷ codes "--listen=a" ∷ codes "--connections" ∷ w ∷ [])
        ≡ option_map (λ n. Serve (opening_by None None Automatic) (codes "a") n)
        (number_of 1 1000000 w) }
    ensures none { (v w : List ℕ) → is_value v ≡ false
        → line_of (codes "serve" ∷ (codes "--listen=" ++ v) ∷ (codes "--connections=" ++ w) ∷ [])
        ≡ None }
{}

/// The numbers of `drill`, and `--replies` in each place among them.
pub fn drill_laws()
    ensures start { (v : List ℕ) → is_value v ≡ true
        → line_of (codes "drill" ∷ v ∷ codes "1" ∷ [])
        ≡ option_map (λ n. Drill n 1 false) (number_of 0 (2 ^ 64 - 1) v) }
    ensures size { (v : List ℕ) → is_value v ≡ true
        → line_of (codes "drill" ∷ codes "7" ∷ v ∷ [])
        ≡ option_map (λ n. Drill 7 n false) (number_of 1 10000 v) }
    ensures replies_first { (v : List ℕ) → is_value v ≡ true
        → line_of (codes "drill" ∷ codes "--replies" ∷ codes "7" ∷ v ∷ [])
        ≡ option_map (λ n. Drill 7 n true) (number_of 1 10000 v) }
    ensures replies_between { (v : List ℕ) → is_value v ≡ true
        → line_of (codes "drill" ∷ codes "7" ∷ codes "--replies" ∷ v ∷ [])
        ≡ option_map (λ n. Drill 7 n true) (number_of 1 10000 v) }
    ensures replies_last { (v : List ℕ) → is_value v ≡ true
        → line_of (codes "drill" ∷ codes "7" ∷ v ∷ codes "--replies" ∷ [])
        ≡ option_map (λ n. Drill 7 n true) (number_of 1 10000 v) }
{}
