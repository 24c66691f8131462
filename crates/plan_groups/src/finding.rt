//! The group or the rule that a call names.

ghost use Rattle.std.specs.Prelude.{◌≡◌, IfErr, IfOk, None, Some};
ghost use Rattle.api_types.specs.Refusing as refusing;
ghost use Rattle.api_types.specs.declared.kind.Kind.TheVariants.{Group as GroupKind, Rule as RuleKind};
ghost use Rattle.api_policy.specs.Seen as seen;
ghost use Rattle.call_parts.specs.Answers.{IsOrMemory};

use api_policy::{group_seen, rule_seen};
use api_types::{GroupRow, IdText, Kind, Refusal, RuleRow};
use call_parts::{Asking, not_found};
use std::alloc::Global;

/// The group with this id that the caller sees. Constant time.
pub(crate) fn find_group<'r>(
    alloc: Global,
    asking: &Asking<'r>,
    name: &IdText,
) -> Result<&'r GroupRow, Refusal>
    ensures found { IfOk result
        (λ group. seen.group_seen asking.now.state.rows asking.now.caller name.now.id
        ≡ Some group.now) }
    ensures missing { IfErr result
        (λ e. seen.group_seen asking.now.state.rows asking.now.caller name.now.id ≡ None) }
    ensures refusal { IfErr result (IsOrMemory (refusing.not_found GroupKind name.now.text)) }
{
    match group_seen(asking.rows(), asking.caller(), name.id) {
        Some(group) => Ok(group),
        None => Err(not_found(alloc, Kind::Group, &name.text)),
    }
}

/// The rule with this id that the caller sees. Constant time.
pub(crate) fn find_rule<'r>(
    alloc: Global,
    asking: &Asking<'r>,
    name: &IdText,
) -> Result<&'r RuleRow, Refusal>
    ensures found { IfOk result
        (λ rule. seen.rule_seen asking.now.state.rows asking.now.caller name.now.id
        ≡ Some rule.now) }
    ensures missing { IfErr result
        (λ e. seen.rule_seen asking.now.state.rows asking.now.caller name.now.id ≡ None) }
    ensures refusal { IfErr result (IsOrMemory (refusing.not_found RuleKind name.now.text)) }
{
    match rule_seen(asking.rows(), asking.caller(), name.id) {
        Some(rule) => Ok(rule),
        None => Err(not_found(alloc, Kind::Rule, &name.text)),
    }
}
