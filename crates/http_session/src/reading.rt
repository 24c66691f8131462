//! Waiting for a request.
ghost use Rattle.std.specs.Prelude.{◌≡◌, ◌<◌, ◌≤◌, false, take, OnOk, IfErr};
ghost use Rattle.httparse.specs.Grammar.{RequestHead};
ghost use Rattle.http_heads.specs.Heads.{IsUndecided, IsWaiting};
ghost use Rattle.http_heads.specs.Lines.{AreEmptyLines};
ghost use Rattle.keeper_core.specs.Counts.{RoseBy};
ghost use Rattle.keeper_core.specs.Ends.{has_failed};
ghost use Rattle.http_session.specs.Reading.{Reads, HasHead, IsLooked, IsStop, IsHeadAwaited, IsAwaited, failed_read, is_no_read};

use crate::bad_bytes::BadBytes;
use crate::buffer::Buffer;
use crate::request::Request;
use http_heads::{HeadRead, Part, resume_head, skip_empty_lines};
use keeper_core::Source;

// Why no request came.
#[derive(Clone, Copy)]
pub(crate) enum Stop {
    // The bytes are refused.
    Bad(BadBytes),
    // The input ended, and no byte is left.
    AtEnd,
    // A read failed.
    NoRead,
    // As many bytes were read as the limit allows.
    Spent,
}

// What came.
#[derive(Clone, Copy)]
pub(crate) enum Awaited {
    Found(Request),
    Stopped(Stop),
}

// What a look at the bytes tells.
#[derive(Clone, Copy)]
enum Looked {
    // Nothing yet.
    Open,
    // A head, and where the request's body is to stand.
    Whole(Request),
    // A refusal.
    Wrong(BadBytes),
}

// Looks at bytes of which the first `seen` decide nothing, and the first `empty` are empty lines.
fn look(bytes: &[u8], empty: usize, seen: usize) -> Looked
    requires open { IsUndecided (take seen bytes.now) }
    requires empty { AreEmptyLines bytes.now empty }
    requires behind { empty ≤ seen }
    ensures { IsLooked bytes.now result }
{
    match resume_head(bytes, empty, seen, false) {
        HeadRead::More => Looked::Open,
        HeadRead::Head {
            length,
            body,
            close,
            parts,
        } => Looked::Whole(Request {
            parts,
            body: Part {
                start: body,
                end: body + length as usize,
            },
            close,
        }),
        HeadRead::Refused(number) => Looked::Wrong(BadBytes::numbered(number)),
    }
}

// Reads some more bytes after those that wait for them.
fn read_more<I: Source>(
    input: &mut I,
    buffer: &mut Buffer,
    taken: &mut u64,
    limit: u64,
) -> Result<(), Stop>
    requires waits { IsWaiting buffer.old }
    requires within { taken.old ≤ limit }
    ensures reads { Reads buffer.old buffer.new (I.told input.old).left (I.told input.new).left
        taken.old taken.new }
    ensures within { taken.new ≤ limit }
    ensures some { OnOk result (taken.old < taken.new) }
    ensures stop { IfErr result (IsStop limit buffer.new (I.told input.new) taken.new) }
    ensures later { (I.told input.old).faults ≤ (I.told input.new).faults }
    ensures fault { IfErr result
        (λ stop. stop ≡ Stop.NoRead
        → RoseBy 1 (I.told input.old).faults (I.told input.new).faults) }
    ensures went { OnOk result (has_failed (I.told input.new) ≡ false) }
    ensures last { IfErr result
        (λ stop. has_failed (I.told input.old) ≡ false
        → has_failed (I.told input.new) ≡ is_no_read stop) }
{
    if *taken == limit {
        return Err(Stop::Spent);
    }
    let Ok(count) = buffer.read_from(input, limit - *taken) else {
        return Err(Stop::NoRead);
    };
    *taken += count as u64;
    if count == 0 {
        if buffer.as_slice().len() == 0 {
            return Err(Stop::AtEnd);
        }
        return Err(Stop::Bad(BadBytes::Malformed));
    }
    Ok(())
}

// Reads until the buffer begins with a head.
fn await_head<I: Source>(input: &mut I, buffer: &mut Buffer, taken: &mut u64, limit: u64) -> Awaited
    requires { taken.old ≤ limit }
    ensures reads { Reads buffer.old buffer.new (I.told input.old).left (I.told input.new).left
        taken.old taken.new }
    ensures within { taken.new ≤ limit }
    ensures is { IsHeadAwaited limit buffer.new (I.told input.new) taken.new result }
    ensures later { (I.told input.old).faults ≤ (I.told input.new).faults }
    ensures fault { result ≡ Awaited.Stopped Stop.NoRead
        → RoseBy 1 (I.told input.old).faults (I.told input.new).faults }
    ensures last { has_failed (I.told input.old) ≡ false
        → has_failed (I.told input.new) ≡ failed_read result }
{
    let mut empty = 0;
    let mut seen = 0;
    'heads: loop {
        let bytes = buffer.as_slice();
        empty = skip_empty_lines(bytes, empty);
        match look(bytes, empty, seen.max(empty)) {
            Looked::Whole(request) => return Awaited::Found(request),
            Looked::Wrong(bad) => return Awaited::Stopped(Stop::Bad(bad)),
            Looked::Open => {}
        }
        seen = bytes.len();
        if let Err(stop) = read_more(input, buffer, taken, limit) {
            return Awaited::Stopped(stop);
        }
    }
}

// Reads until the body of the request is whole, whose head the buffer begins with.
fn await_body<I: Source>(
    input: &mut I,
    buffer: &mut Buffer,
    taken: &mut u64,
    limit: u64,
    request: Request,
) -> Awaited
    requires within { taken.old ≤ limit }
    requires head { (head : RequestHead) × HasHead buffer.old request head }
    ensures reads { Reads buffer.old buffer.new (I.told input.old).left (I.told input.new).left
        taken.old taken.new }
    ensures within { taken.new ≤ limit }
    ensures is { IsAwaited limit buffer.new (I.told input.new) taken.new result }
    ensures later { (I.told input.old).faults ≤ (I.told input.new).faults }
    ensures fault { result ≡ Awaited.Stopped Stop.NoRead
        → RoseBy 1 (I.told input.old).faults (I.told input.new).faults }
    ensures last { has_failed (I.told input.old) ≡ false
        → has_failed (I.told input.new) ≡ failed_read result }
{
    'bodies: while buffer.as_slice().len() < request.body.end {
        if let Err(stop) = read_more(input, buffer, taken, limit) {
            return Awaited::Stopped(stop);
        }
    }
    Awaited::Found(request)
}

// Reads until the buffer begins with a request, or tells why there is none. What was searched for
// empty lines or for the end of a prefix isn't searched again. So the cost grows with the bytes
// that are read, and with those of at most 66 prefixes that are judged after the empty lines, in
// whatever pieces they come.
pub(crate) fn await_request<I: Source>(
    input: &mut I,
    buffer: &mut Buffer,
    taken: &mut u64,
    limit: u64,
) -> Awaited
    requires { taken.old ≤ limit }
    ensures reads { Reads buffer.old buffer.new (I.told input.old).left (I.told input.new).left
        taken.old taken.new }
    ensures within { taken.new ≤ limit }
    ensures is { IsAwaited limit buffer.new (I.told input.new) taken.new result }
    ensures later { (I.told input.old).faults ≤ (I.told input.new).faults }
    ensures fault { result ≡ Awaited.Stopped Stop.NoRead
        → RoseBy 1 (I.told input.old).faults (I.told input.new).faults }
    ensures last { has_failed (I.told input.old) ≡ false
        → has_failed (I.told input.new) ≡ failed_read result }
{
    match await_head(input, buffer, taken, limit) {
        Awaited::Found(request) => await_body(input, buffer, taken, limit, request),
        Awaited::Stopped(stop) => Awaited::Stopped(stop),
    }
}
