//! What the body of a server's reply says.
ghost use Rattle.std.specs.Prelude.{◌≡◌, ◌↔◌, IfErr, IfOk, IsTrue, IsUtf8, Some, false, is_some, true};
ghost use Rattle.serde_json.specs.Find.{get};
ghost use Rattle.serde_json.specs.Read.{read};
ghost use Rattle.serde_json.specs.View.{view};
ghost use Rattle.wire_types.specs.declared.reply.WireReply.{WireReply};
ghost use Rattle.wire_text.specs.declared.refusal.TextRefusal.TheVariants.{BadText};
ghost use Rattle.wire_replies.specs.Faults as faults;
ghost use Rattle.wire_replies.specs.Kinds as kinds;
ghost use Rattle.wire_replies.specs.Kinds.{IsChange, IsPage, IsVersion};
ghost use Rattle.wire_replies.specs.ReplyTexts.{IsAnswerText, IsRefused, Says};

use crate::document::{ChangeBody, FaultBody, PageBody, VersionBody};
use crate::fault::{fault_reply, is_fault};
use serde_json::Value;
use std::alloc::Global;
use wire_text::{TextRefusal, parse, read_as};
use wire_types::WireReply;

/// Which answer a body could be.
#[derive(Clone, Copy)]
pub(crate) enum Answer {
    Version,
    Change,
    Page,
}

fn read_version(alloc: Global, value: &Value, body: &[u8]) -> Result<WireReply, TextRefusal>
    requires text { read body.now ≡ Some (view value.now) }
    requires utf8 { IsUtf8 body.now }
    ensures ok { IfOk result (IsAnswerText body.now) }
    ensures bad { IfErr result (λ e. e ≡ BadText
        → (r : WireReply) → IsVersion r → IsAnswerText body.now r → ⊥) }
{
    match read_as::<VersionBody>(alloc, value, body) {
        Ok(said) => {
            let VersionBody { first, last } = said;
            Ok(WireReply::Version { first, last })
        }
        Err(refusal) => Err(refusal),
    }
}

fn read_change(alloc: Global, value: &Value, body: &[u8]) -> Result<WireReply, TextRefusal>
    requires text { read body.now ≡ Some (view value.now) }
    requires utf8 { IsUtf8 body.now }
    ensures ok { IfOk result (IsAnswerText body.now) }
    ensures bad { IfErr result (λ e. e ≡ BadText
        → (r : WireReply) → IsChange r → IsAnswerText body.now r → ⊥) }
{
    match read_as::<ChangeBody>(alloc, value, body) {
        Ok(said) => {
            let ChangeBody { items, number } = said;
            Ok(WireReply::Change { number, items })
        }
        Err(refusal) => Err(refusal),
    }
}

fn read_page(alloc: Global, value: &Value, body: &[u8]) -> Result<WireReply, TextRefusal>
    requires text { read body.now ≡ Some (view value.now) }
    requires utf8 { IsUtf8 body.now }
    ensures ok { IfOk result (IsAnswerText body.now) }
    ensures bad { IfErr result (λ e. e ≡ BadText
        → (r : WireReply) → IsPage r → IsAnswerText body.now r → ⊥) }
{
    match read_as::<PageBody>(alloc, value, body) {
        Ok(said) => {
            let PageBody {
                last,
                number,
                rows,
                version,
            } = said;
            Ok(WireReply::Page {
                version,
                number,
                last,
                rows,
            })
        }
        Err(refusal) => Err(refusal),
    }
}

/// Whether an object has a member with this name.
fn has(value: &Value, name: &str) -> bool
    ensures { result ≡ is_some (get name.now (view value.now)) }
{
    match value.get(name) {
        Some(_) => true,
        None => false,
    }
}

/// Which answer a value could be, by its member.
fn guess_answer(value: &Value) -> Answer
    ensures { result ≡ kinds.answer_in (view value.now) }
{
    if has(value, "version") {
        return Answer::Version;
    }
    if has(value, "change") {
        return Answer::Change;
    }
    Answer::Page
}

fn read_value(alloc: Global, value: &Value, body: &[u8]) -> Result<WireReply, TextRefusal>
    requires text { read body.now ≡ Some (view value.now) }
    requires utf8 { IsUtf8 body.now }
    ensures ok { IfOk result (IsAnswerText body.now) }
    ensures bad { IfErr result (λ e. e ≡ BadText → (r : WireReply) → IsAnswerText body.now r → ⊥) }
{
    match guess_answer(value) {
        Answer::Version => read_version(alloc, value, body),
        Answer::Change => read_change(alloc, value, body),
        Answer::Page => read_page(alloc, value, body),
    }
}

/// What the body of a 200 says.
fn read_answer(alloc: Global, body: &[u8]) -> Result<WireReply, TextRefusal>
    ensures ok { IfOk result (IsAnswerText body.now) }
    ensures bad { IfErr result (λ e. e ≡ BadText → (r : WireReply) → IsAnswerText body.now r → ⊥) }
{
    match parse(alloc, body) {
        Ok(value) => read_value(alloc, &value, body),
        Err(refusal) => Err(refusal),
    }
}

/// What a refusal with this status says, if there is one of its type.
fn judge_fault(code: u16, said: &FaultBody) -> Result<WireReply, TextRefusal>
    ensures ok { IfOk result (λ r. (faults.is_fault code said.now.kind ≡ true)
        × (r ≡ faults.fault_reply said.now.kind)) }
    ensures bad { IfErr result (λ e. faults.is_fault code said.now.kind ≡ false) }
{
    if is_fault(code, said.kind.as_str()) {
        return Ok(fault_reply(said.kind.as_str()));
    }
    Err(TextRefusal::BadText)
}

fn read_fault(
    alloc: Global,
    code: u16,
    value: &Value,
    body: &[u8],
) -> Result<WireReply, TextRefusal>
    requires text { read body.now ≡ Some (view value.now) }
    requires utf8 { IsUtf8 body.now }
    ensures ok { IfOk result (IsRefused code body.now) }
    ensures bad { IfErr result
        (λ e. e ≡ BadText → (r : WireReply) → IsRefused code body.now r → ⊥) }
{
    match read_as::<FaultBody>(alloc, value, body) {
        Ok(said) => judge_fault(code, &said),
        Err(refusal) => Err(refusal),
    }
}

/// What the body of a refusal with this status says.
fn read_refusal(alloc: Global, code: u16, body: &[u8]) -> Result<WireReply, TextRefusal>
    ensures ok { IfOk result (IsRefused code body.now) }
    ensures bad { IfErr result
        (λ e. e ≡ BadText → (r : WireReply) → IsRefused code body.now r → ⊥) }
{
    match parse(alloc, body) {
        Ok(value) => read_fault(alloc, code, &value, body),
        Err(refusal) => Err(refusal),
    }
}

/// Whether a status is that of an answer.
fn is_success(code: u16) -> bool
    ensures { IsTrue result ↔ (code ≡ 200) }
{
    code == 200
}

/// What the body of a reply with this status says. `BadText` exactly if no reply has it.
pub(crate) fn read_body(alloc: Global, code: u16, body: &[u8]) -> Result<WireReply, TextRefusal>
    ensures ok { IfOk result (Says code body.now) }
    ensures bad { IfErr result (λ e. e ≡ BadText → (r : WireReply) → Says code body.now r → ⊥) }
{
    if is_success(code) {
        return read_answer(alloc, body);
    }
    read_refusal(alloc, code, body)
}
