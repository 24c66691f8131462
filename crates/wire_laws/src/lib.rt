//! What agents hold that learn a server's rows by its replies alone.
//!
//! Definitions and laws alone. A server accepts changes from one opening, and replies to whoever
//! asks with its version, its kept changes and its rows, page by page. Replies of different moments
//! come to an agent lost, repeated and in any order. The functions here do nothing, and their
//! contracts are the laws.
#![tactic(auto)]

ghost use Rattle.std.specs.Prelude.{◌≡◌, ◌+◌, ◌++◌, ◌≤◌, ℕ, Bool, false, List, Some};
ghost use Rattle.api_types.specs.Lists.{Each};
ghost use Rattle.api_types.specs.RowLists.{RowLists};
ghost use Rattle.api_types.specs.declared.change.Item.{Item};
ghost use Rattle.net_addr.specs.Words.{Text};
ghost use Rattle.net_settings.specs.Settings.{SettingsParts};
ghost use Rattle.plane_types.specs.Node.{Agent};
ghost use Rattle.bus_core.specs.History.{first_kept, rows_at};
ghost use Rattle.world_laws.specs.Steps.{MayRun, Step, run};
ghost use Rattle.world_laws.specs.World.{AreSound, first_world};
ghost use Rattle.wire_types.specs.Changes.{AreAccepted, history_of, rows_after};
ghost use Rattle.wire_types.specs.Replies.{IsReplyOf, reply_with};
ghost use Rattle.wire_types.specs.declared.ask.WireAsk.{WireAsk};
ghost use Rattle.wire_types.specs.declared.reply.WireReply.{WireReply};
ghost use Rattle.wire_types.specs.declared.step.WireStep.{WireStep};
ghost use Rattle.wire_laws.specs.Hearing.{HearsAll};
ghost use Rattle.wire_laws.specs.Moments.{changes_in};
ghost use Rattle.wire_laws.specs.Promises.{HasRows, NotBelow, held_by, is_bad};
ghost use Rattle.wire_laws.specs.WireStates.{Lost, WireState, agent_of};

/// If an agent holds a version after any replies that a server gave at any moments, it has the
/// opening rows after the first so many changes, and the tables that these give to its host. None of
/// these replies was bad, and what is held doesn't fall while more is heard.
pub fn agents_hold_their_versions()
    ensures rows { (settings : SettingsParts) (name : Text) (opening : RowLists)
        (changes : List (List Item)) → AreSound settings opening →
        AreAccepted (AreSound settings) opening changes → (replies : List WireReply) →
        Each (IsReplyOf opening changes) replies → (steps : List WireStep) (state : WireState) →
        HearsAll settings name Lost replies steps state → (v : ℕ) → held_by state ≡ Some v →
        (a : Agent) × (agent_of state ≡ Some a) × HasRows name opening changes a × (a.version ≡ v) }
    ensures steps { (settings : SettingsParts) (name : Text) (opening : RowLists)
        (changes : List (List Item)) → AreSound settings opening →
        AreAccepted (AreSound settings) opening changes → (replies more : List WireReply) →
        Each (IsReplyOf opening changes) replies → Each (IsReplyOf opening changes) more →
        (steps later : List WireStep) (state next : WireState) →
        HearsAll settings name Lost replies steps state →
        HearsAll settings name state more later next →
        Each (λ s. is_bad s ≡ false) later × NotBelow (held_by state) (held_by next) }
{}

/// What a world replies at a moment of its steps is a reply of a server that accepts the world's
/// changes, and these are accepted, each one from sound rows to sound rows.
pub fn worlds_reply_as_servers()
    ensures replies { (settings : SettingsParts) (manual : Bool) (rows : RowLists)
        (before after : List Step) (question : WireAsk) → IsReplyOf rows (changes_in (before ++ after))
        (reply_with (run (first_world settings manual rows) before).history question) }
    ensures accepted { (settings : SettingsParts) (manual : Bool) (rows : RowLists)
        (steps : List Step) → MayRun (first_world settings manual rows) steps →
        AreAccepted (AreSound settings) rows (changes_in steps) }
{}

/// The rows of a version, while they can be derived from the current ones, are the opening rows
/// after the first so many changes.
pub fn versions_are_from_the_opening()
    ensures { (settings : SettingsParts) (opening : RowLists) (changes : List (List Item)) →
        AreSound settings opening → AreAccepted (AreSound settings) opening changes → (v : ℕ) →
        first_kept (history_of opening changes) ≤ v + 1 →
        v ≤ (history_of opening changes).version →
        rows_at (history_of opening changes) v ≡ rows_after opening changes v }
{}
