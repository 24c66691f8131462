//! Laws: what a server writes to agents elsewhere is what they read.
//!
//! Definitions and laws alone. The functions here do nothing, and their contracts are the laws. It
//! stands on `neutron_serve`, which says which bytes answer an ask, `wire_types`, which says what
//! they have to say, and `wire_replies`, which says how an agent reads them.
#![tactic(auto)]

ghost use Rattle.std.specs.Prelude.{◌≡◌, ◌≤◌, Bool, length, true};
ghost use Rattle.api_types.specs.declared.call.Caller.{Caller};
ghost use Rattle.api_types.specs.declared.refusal.Refusal.TheVariants.{OutOfMemory};
ghost use Rattle.neutron_serve.specs.Replies.{outcome_bytes, refusal_bytes};
ghost use Rattle.lab_world.specs.World.{ByLab};
ghost use Rattle.lab_world.specs.Lab.{Barred, lab_outcome};
ghost use Rattle.wire_types.specs.Replies.{body_limit, reply_with};
ghost use Rattle.wire_types.specs.declared.ask.WireAsk.{WireAsk};
ghost use Rattle.wire_types.specs.declared.reply.WireReply.TheVariants as reply;
ghost use Rattle.wire_replies.specs.ReplyTexts.{IsReplyText};
ghost use Rattle.wire_ends.specs.Written.{HasTypes, IsText, body_in, call_of};
ghost use Rattle.world_laws.specs.World.{World};

/// The bytes with which a server answers an agent's ask say to the agent exactly what a server with
/// this history replies, while its rows and kept changes have values that their types hold and the
/// body isn't longer than an agent reads. Where memory ran out they say that it was refused.
pub fn replies_are_read()
    ensures replies { (w : World) (caller : Caller) (close : Bool) (question : WireAsk)
        → caller.admin ≡ true → HasTypes (reply_with w.history question)
        → IsText (lab_outcome w caller (call_of question))
        → length (body_in (lab_outcome w caller (call_of question))) ≤ body_limit
        → IsReplyText (outcome_bytes close (ByLab (lab_outcome w caller (call_of question))))
        (reply_with w.history question) }
    ensures memory { (close : Bool) → IsText (Barred OutOfMemory)
        → length (body_in (Barred OutOfMemory)) ≤ body_limit
        → IsReplyText (refusal_bytes close OutOfMemory) reply.Refused }
{}
