//! Replies as bytes.
ghost use Rattle.std.specs.Prelude.{◌≡◌, IfOk};
ghost use Rattle.api_types.specs.Printed.{reply_of};
ghost use Rattle.neutron_http.specs.Replies.{IsReplyCode};
ghost use Rattle.neutron_serve.specs.Replies.{allowed_in, answer_code, code_in, reply_written};

use api_types::{Answer, Refusal};
use json_replies::write_reply;
use net_addr::{Bytes, Copies, OutOfMemory};
use neutron_http::{Extra, fault_of, written};
use plane_types::Reply;
use std::alloc::Global;

// The status code of an answer.
fn answer_status(answer: &Answer) -> u16
    ensures { result ≡ answer_code (reply_of answer.now) }
{
    match answer {
        Answer::Created(_) => 201,
        Answer::Gone => 204,
        Answer::One(_) | Answer::Many { .. } | Answer::Interface(_) => 200,
    }
}

/// The status code of a reply.
pub(crate) fn reply_status(alloc: Global, reply: &Reply) -> Result<u16, OutOfMemory>
    ensures code { IfOk result (λ code. code ≡ code_in reply.now) }
    ensures known { IfOk result IsReplyCode }
{
    match reply {
        Reply::Done(answer) => Ok(answer_status(answer)),
        Reply::LabDone(_) => Ok(200),
        Reply::Refused(refusal) => Ok(fault_of(alloc, refusal)?.code),
    }
}

// What a reply says beside its code and its body: the methods that a path has.
fn extra_of(alloc: Global, reply: &Reply) -> Result<Extra, OutOfMemory>
    ensures { IfOk result (λ extra. extra.allow ≡ allowed_in reply.now) }
{
    match reply {
        Reply::Refused(Refusal::NoMethod { allowed }) => Ok(Extra {
            allow: Some(allowed.copy(alloc)?),
        }),
        _ => Ok(Extra { allow: None }),
    }
}

/// The bytes of a reply. The cost grows with them.
pub(crate) fn write(alloc: Global, close: bool, reply: &Reply) -> Result<Bytes, OutOfMemory>
    ensures { IfOk result (λ bytes. bytes ≡ reply_written close reply.now) }
{
    let body = write_reply(alloc, reply)?;
    let code = reply_status(alloc, reply)?;
    let extra = extra_of(alloc, reply)?;
    written(alloc, code, close, &extra, body.as_slice())
}
