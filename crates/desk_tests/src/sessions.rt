//! Sessions over bytes, with a handler that echoes.
ghost use Rattle.std.specs.Prelude.{◌≡◌, ◌<◌, ◌+◌, ◌%◌, ◌++◌, [], ◌∷◌, IfOk, OnOk, OnErr};
ghost use Rattle.http_heads.specs.Heads.{Asked};
ghost use Rattle.http_session.specs.Requests.{IsRequest, BeginsWith};

use crate::listed::numbers;
use api_types::Rows;
use http_session::{Answer, BadBytes, Handler, Request, SessionEnd, session};
use keeper_core::{
    Keeper, KeeperRefusal, MemoryKeeper, MemorySink, MemorySource, SureKeeper, SureSink, SureSource,
};
use net_addr::{Bytes, OutOfMemory};
use std::alloc::Global;
use std::marker::Model;
use std::test::Fail;

/// Answers each request with a digit, its body and a semicolon, after it asked the keeper for its
/// rows. The digits go from 0 to 9 and on from 0.
#[derive(Drop)]
struct Echo {
    digit: u8,
}

impl Model for Echo {
    ghost use Rattle.std.specs.Prelude.{ℕ, ◌<◌};

    ghost Value = { ℕ };

    ghost view = { λ e. e.digit };

    ghost invariant = { λ e. e.digit < 10 };
}

fn text(alloc: Global, text: &[u8]) -> Result<Bytes, OutOfMemory>
    ensures { IfOk result (λ bytes. bytes ≡ text.now) }
{
    Ok(Bytes::from_vec(Vec::from_slice(alloc, text)?))
}

fn body_of(bytes: &[u8], request: Request) -> &[u8]
    requires { BeginsWith bytes.now request }
    ensures { (asked : Asked) → IsRequest bytes.now request asked → result.now ≡ asked.body }
{
    &bytes[request.body.start..request.body.end]
}

fn echoed(alloc: Global, digit: u8, body: &[u8]) -> Result<Bytes, OutOfMemory>
    requires { digit < 10 }
    ensures { IfOk result (λ reply. reply ≡ (48 + digit) ∷ (body.now ++ 59 ∷ [])) }
{
    let mut reply = Vec::new(alloc);
    reply.push(b'0' + digit)?;
    reply.extend_from_slice(body)?;
    reply.push(b';')?;
    Ok(Bytes::from_vec(reply))
}

impl Echo {
    fn make() -> Echo
        ensures { result ≡ 0 }
    {
        Echo { digit: 0 }
    }

    /// The reply with this body, after which the digit is the next one.
    fn echo(&mut self, alloc: Global, body: &[u8]) -> Result<Bytes, OutOfMemory>
        ensures reply { IfOk result (λ reply. reply ≡ (48 + self.old) ∷ (body.now ++ 59 ∷ [])) }
        ensures ok { OnOk result ((self.old < 10) × (self.new ≡ (self.old + 1) % 10)) }
        ensures err { OnErr result (self.new ≡ self.old) }
    {
        let reply = echoed(alloc, self.digit, body)?;
        self.digit = (self.digit + 1) % 10;
        Ok(reply)
    }
}

impl Handler for Echo {
    type World = Echo;

    ghost use Rattle.std.specs.Prelude.{codes, ◌≡◌, ◌<◌, ◌+◌, ◌%◌, ◌++◌, [], ◌∷◌, true};
    ghost use Rattle.api_types.specs.Rows.{no_rows};
    ghost use Rattle.http_session.specs.BadBytes.{bad_number};

    ghost steps = { λ old asked reply new. (old < 10)
        × (reply ≡ (48 + old) ∷ (asked.body ++ 59 ∷ [])) × (new ≡ (old + 1) % 10) };

    ghost fixed = { record {
      store_failed = λ close. codes "store failed;";
      no_memory = λ close. codes "no memory;";
      refusal = λ bad. codes "refused " ++ (48 + bad_number bad) ∷ 59 ∷ [];
      changes = λ old asked. true;
      may_want = true;
    } };

    ghost rows = { λ _. no_rows };

    fn make(_alloc: Global) -> Result<Echo, OutOfMemory> {
        Ok(Echo::make())
    }

    fn answer<K: Keeper>(
        &self,
        world: &mut Echo,
        alloc: Global,
        keeper: &mut K,
        bytes: &[u8],
        request: Request,
    ) -> Answer {
        match keeper.load(alloc) {
            Ok(_) => match world.echo(alloc, body_of(bytes, request)) {
                Ok(reply) => Answer::Reply(reply),
                Err(_) => Answer::NoMemory,
            },
            Err(KeeperRefusal::Failed) => match text(alloc, b"store failed;") {
                Ok(reply) => Answer::StoreFault(reply),
                Err(_) => Answer::NoMemory,
            },
            Err(KeeperRefusal::OutOfMemory) => Answer::NoMemory,
        }
    }

    fn no_memory(_close: bool) -> &'static [u8] {
        b"no memory;"
    }

    fn refusal(alloc: Global, bad: BadBytes) -> Result<Bytes, OutOfMemory> {
        match bad {
            BadBytes::Malformed => text(alloc, b"refused 1;"),
            BadBytes::HeadLarge => text(alloc, b"refused 2;"),
            BadBytes::BodyLarge => text(alloc, b"refused 3;"),
            BadBytes::NoLength => text(alloc, b"refused 4;"),
        }
    }
}

/// Whether a session over these bytes, in pieces of this many, writes this and ends so.
fn serves(
    alloc: Global,
    input: &[u8],
    piece: usize,
    limit: u64,
    wanted: &[u8],
    end: SessionEnd,
) -> Result<bool, OutOfMemory>
    requires { 0 < piece }
{
    let mut source = SureSource::make(text(alloc, input)?, piece);
    let mut keeper = SureKeeper::make(Rows::empty(alloc)?);
    let mut sink = SureSink::make(alloc);
    let ended = session::<Echo, _, _, _>(
        alloc,
        &mut Echo::make(),
        &mut keeper,
        &mut source,
        &mut sink,
        limit,
    );
    Ok(ended == end && sink.as_slice() == wanted)
}

/// The same in pieces of 1, 7 and many bytes, of a session without a limit that is done.
fn serves_all(alloc: Global, input: &[u8], wanted: &[u8]) -> Result<bool, OutOfMemory> {
    let end = SessionEnd::Done;
    Ok(
        serves(alloc, input, 1, u64::MAX, wanted, end)?
            && serves(alloc, input, 7, u64::MAX, wanted, end)?
            && serves(alloc, input, 100_000, u64::MAX, wanted, end)?,
    )
}

// Whole requests, refusals of heads, and inputs that end anywhere.
const STREAMS: [(&[u8], &[u8]); 12] = [
    (b"", b""),
    (b"GET / HTTP/1.1\r\n\r\n", b"0;"),
    (
        b"POST /a HTTP/1.1\r\nContent-Length: 3\r\n\r\nabc\
            GET / HTTP/1.1\r\n\r\nPUT / HTTP/1.1\nContent-Length: 1\n\nd",
        b"0abc;1;2d;",
    ),
    (b"\r\n\nGET / HTTP/1.1\r\n\r\n", b"0;"),
    (b"GET / HTTP/1.1\r\n", b"refused 1;"),
    (b"GET / HTTP/1.1\r\n\r\nGET", b"0;refused 1;"),
    (
        b"POST / HTTP/1.1\r\nContent-Length: 3\r\n\r\nab",
        b"refused 1;",
    ),
    (b"GET / HTTP/1.0\r\n\r\nGET / HTTP/1.1\r\n\r\n", b"0;"),
    (
        b"GET / HTTP/1.1\r\nConnection: close\r\n\r\nGET / HTTP/1.1\r\n\r\n",
        b"0;",
    ),
    (
        b"POST / HTTP/1.1\r\n\r\nGET / HTTP/1.1\r\n\r\n",
        b"refused 4;",
    ),
    (
        b"PUT / HTTP/1.1\r\nContent-Length: 65537\r\n\r\nGET / HTTP/1.1\r\n\r\n",
        b"refused 3;",
    ),
    (
        b"GET / HTTP/1.1\r\n\r\nGET  / HTTP/1.1\r\n\r\nGET / HTTP/1.1\r\n\r\n",
        b"0;refused 1;",
    ),
];

#[test]
fn streams(rt: HostRuntime) -> Result<(), Fail> {
    let alloc = rt.alloc();
    for (input, wanted) in STREAMS {
        assert!(rt; serves_all(alloc, input, wanted)?);
    }
    Ok(())
}

const TWICE: &[u8] = b"GET / HTTP/1.1\r\n\r\nGET / HTTP/1.1\r\n\r\n";

// The limit counts where more would have to be read.
const BUDGETS: [(u64, &[u8], SessionEnd); 6] = [
    (0, b"", SessionEnd::Budget),
    (17, b"", SessionEnd::Budget),
    (18, b"0;", SessionEnd::Budget),
    (35, b"0;", SessionEnd::Budget),
    (36, b"0;1;", SessionEnd::Budget),
    (37, b"0;1;", SessionEnd::Done),
];

#[test]
fn budgets(rt: HostRuntime) -> Result<(), Fail> {
    let alloc = rt.alloc();
    for (limit, wanted, end) in BUDGETS {
        assert!(rt; serves(alloc, TWICE, 1, limit, wanted, end)?);
        assert!(rt; serves(alloc, TWICE, 100, limit, wanted, end)?);
    }
    Ok(())
}

// Two requests, of which one read gives the first.
const TWO: &[u8] = b"GET / HTTP/1.1\r\n\r\nPUT / HTTP/1.1\r\nContent-Length: 3\r\n\r\nabc";

/// The reads, the writes and flushes, and the calls of the keeper that fail in a session over two
/// requests, what it writes, and how it ends.
type Failure = (
    &'static [u64],
    &'static [u64],
    &'static [u64],
    &'static [u8],
    SessionEnd,
);

// Reads, writes, flushes and the keeper failing in mid-stream.
const FAILURES: [Failure; 9] = [
    (&[], &[], &[], b"0;1abc;", SessionEnd::Done),
    (&[1], &[], &[], b"", SessionEnd::ReadFault),
    (&[2], &[], &[], b"0;", SessionEnd::ReadFault),
    (&[3], &[], &[], b"0;", SessionEnd::ReadFault),
    (&[], &[1], &[], b"", SessionEnd::WriteFault),
    (&[], &[2], &[], b"0;", SessionEnd::WriteFault),
    (&[], &[3], &[], b"0;", SessionEnd::WriteFault),
    (&[], &[], &[1], b"store failed;0abc;", SessionEnd::Done),
    (
        &[],
        &[],
        &[1, 2],
        b"store failed;store failed;",
        SessionEnd::Done,
    ),
];

fn fails(alloc: Global, failure: &Failure) -> Result<bool, OutOfMemory> {
    let (reads, writes, loads, wanted, end) = *failure;
    let mut sink = MemorySink::make(alloc, numbers(alloc, writes)?);
    let reads = numbers(alloc, reads)?;
    let mut source = MemorySource::make(text(alloc, TWO)?, 18, reads);
    let loads = numbers(alloc, loads)?;
    let mut keeper = MemoryKeeper::make(alloc, Rows::empty(alloc)?, loads)?;
    let ended = session::<Echo, _, _, _>(
        alloc,
        &mut Echo::make(),
        &mut keeper,
        &mut source,
        &mut sink,
        u64::MAX,
    );
    Ok(ended == end && sink.as_slice() == wanted)
}

#[test]
fn failures(rt: HostRuntime) -> Result<(), Fail> {
    let alloc = rt.alloc();
    for failure in &FAILURES {
        assert!(rt; fails(alloc, failure)?);
    }
    Ok(())
}

const GET: &[u8] = b"GET / HTTP/1.1\r\n\r\n";

/// These bytes so many times.
fn repeated(alloc: Global, part: &[u8], count: usize) -> Result<Vec<u8>, OutOfMemory> {
    let mut bytes = Vec::new(alloc);
    for _ in 0..count {
        bytes.extend_from_slice(part)?;
    }
    Ok(bytes)
}

// More requests than the buffer has room for.
#[test]
fn long_streams(rt: HostRuntime) -> Result<(), Fail> {
    let alloc = rt.alloc();
    let input = repeated(alloc, GET, 6_000)?;
    let wanted = repeated(alloc, b"0;1;2;3;4;5;6;7;8;9;", 600)?;
    assert!(rt; serves_all(alloc, input.as_slice(), wanted.as_slice())?);
    Ok(())
}

// How many empty lines with this end stand before these bytes, and what is written.
const EMPTY_LINES: [(usize, &[u8], &[u8], &[u8]); 10] = [
    (16_000, b"\n", GET, b"0;"),
    (8_000, b"\r\n", GET, b"0;"),
    (16_366, b"\n", GET, b"0;"),
    (16_367, b"\n", GET, b"refused 2;"),
    (16_383, b"\n", b"", b"refused 1;"),
    (16_384, b"\n", b"", b"refused 2;"),
    (8_191, b"\r\n", b"\r\n", b"refused 2;"),
    (2, b"\r\n", b"\n\r", b"refused 1;"),
    (2, b"\n", b"\r\r\nGET / HTTP/1.1\r\n\r\n", b"refused 1;"),
    (2, b"\r\n", b"\rGET / HTTP/1.1\r\n\r\n", b"refused 1;"),
];

// Empty lines before a request, in pieces of 1, 7 and many bytes.
#[test]
fn empty_lines_first(rt: HostRuntime) -> Result<(), Fail> {
    let alloc = rt.alloc();
    for (count, end, last, wanted) in EMPTY_LINES {
        let mut input = repeated(alloc, end, count)?;
        input.extend_from_slice(last)?;
        assert!(rt; serves_all(alloc, input.as_slice(), wanted)?);
    }
    Ok(())
}
