//! A run over a desk in memory, and what it comes to. What a function owns is dropped at each of
//! its exits, which is long to prove. So all that a run needs is made in one function, the desk
//! last, and then owned as one value.
ghost use Rattle.std.specs.Prelude.{◌<◌, IfOk};
ghost use Rattle.keeper_core.specs.Desk.{IsNoneOut, failing_told};

use crate::desk::{Connection, bytes, make_desk, numbers};
use crate::requests::joined;
use keeper_core::{DeskAsk, MemoryDesk, MemorySink, MemorySource, Source};
use net_addr::{OutOfMemory, Text};
use neutron_serve::run;
use std::alloc::Global;

/// The numbers of the calls that fail, counted from 1: of the desk, of its stores, reads, and
/// writes and flushes.
pub(crate) type Failing = [&'static [u64]; 4];

/// No call fails.
pub(crate) const NOTHING: Failing = [&[], &[], &[], &[]];

// What a run needs.
struct Outside {
    words: Vec<Text>,
    input: MemorySource,
    output: MemorySink,
    desk: MemoryDesk,
}

impl Drop for Outside {
    fn drop(self) {
        let Outside {
            words: _,
            input: _,
            output: _,
            desk: _,
        } = self;
    }
}

/// What a run comes to.
pub(crate) struct Outcome {
    pub(crate) status: u8,
    pub(crate) written: Vec<u8>,
    /// What the desk was asked for: `rows` is a store without a name.
    pub(crate) asks: String,
    /// How many bytes of the input one more read gives, 1,024 at most.
    pub(crate) left: usize,
    /// What was written to each connection that was handed back.
    pub(crate) replies: Vec<Vec<u8>>,
}

impl Drop for Outcome {
    fn drop(self) {
        let Outcome {
            status: _,
            written: _,
            asks: _,
            left: _,
            replies: _,
        } = self;
    }
}

fn texts(alloc: Global, words: &[&str]) -> Result<Vec<Text>, OutOfMemory> {
    let mut texts = Vec::new(alloc);
    for word in words {
        texts.push(Text::of(alloc, word)?)?;
    }
    Ok(texts)
}

// What a run with these arguments needs, over requests of which one read gives this many bytes.
fn set_up(
    alloc: Global,
    words: &[&str],
    failing: Failing,
    connections: &[Connection],
    requests: &[u8],
    piece: usize,
) -> Result<Outside, OutOfMemory>
    requires { 0 < piece }
    ensures { IfOk result (λ outside. IsNoneOut (failing_told outside.desk)) }
{
    let [calls, stores, reads, writes] = failing;
    let words = texts(alloc, words)?;
    let output = MemorySink::make(alloc, numbers(alloc, writes)?);
    let reads = numbers(alloc, reads)?;
    let input = MemorySource::make(bytes(alloc, requests)?, piece, reads);
    let desk = make_desk(alloc, connections, calls, stores)?;
    Ok(Outside {
        words,
        input,
        output,
        desk,
    })
}

fn name_of(ask: &DeskAsk) -> &'static str {
    match ask {
        DeskAsk::Settings(_) => "settings",
        DeskAsk::Store(Some(_)) => "store",
        DeskAsk::Store(None) => "rows",
        DeskAsk::Listen(_) => "listen",
        DeskAsk::Next => "next",
    }
}

fn names_of(alloc: Global, asks: &[DeskAsk]) -> Result<String, OutOfMemory> {
    let mut names = String::new(alloc);
    for ask in asks {
        if !names.is_empty() {
            names.push_str(" ")?;
        }
        names.push_str(name_of(ask))?;
    }
    Ok(names)
}

fn left(input: &mut MemorySource) -> usize {
    let mut rest = [0; 1_024];
    match input.read(&mut rest) {
        Ok(count) => count,
        Err(_) => 0,
    }
}

fn replies_of(
    alloc: Global,
    ended: &[(MemorySource, MemorySink)],
) -> Result<Vec<Vec<u8>>, OutOfMemory> {
    let mut replies = Vec::new(alloc);
    for (_, output) in ended {
        replies.push(Vec::from_slice(alloc, output.as_slice())?)?;
    }
    Ok(replies)
}

fn replies_at(alloc: Global, desk: &MemoryDesk) -> Result<Vec<Vec<u8>>, OutOfMemory> {
    match desk.ended() {
        Some(ended) => replies_of(alloc, ended),
        None => Ok(Vec::new(alloc)),
    }
}

fn outcome_of(alloc: Global, status: u8, outside: &mut Outside) -> Result<Outcome, OutOfMemory> {
    let left = left(&mut outside.input);
    let written = Vec::from_slice(alloc, outside.output.as_slice())?;
    let asks = names_of(alloc, outside.desk.asks())?;
    let replies = replies_at(alloc, &outside.desk)?;
    Ok(Outcome {
        status,
        written,
        asks,
        left,
        replies,
    })
}

/// A run with these arguments over requests of which one read gives this many bytes, at a desk with
/// these connections to come.
pub(crate) fn run_over(
    alloc: Global,
    words: &[&str],
    failing: Failing,
    connections: &[Connection],
    requests: &[u8],
    piece: usize,
) -> Result<Outcome, OutOfMemory>
    requires { 0 < piece }
{
    let mut outside = set_up(alloc, words, failing, connections, requests, piece)?;
    let status = run(
        alloc,
        outside.words.as_slice(),
        &mut outside.desk,
        &mut outside.input,
        &mut outside.output,
    );
    outcome_of(alloc, status, &mut outside)
}

/// The same at a desk without connections.
pub(crate) fn run_alone(
    alloc: Global,
    words: &[&str],
    failing: Failing,
    requests: &[u8],
    piece: usize,
) -> Result<Outcome, OutOfMemory>
    requires { 0 < piece }
{
    run_over(alloc, words, failing, &[], requests, piece)
}

/// Whether such a run has this status, and writes these replies.
pub(crate) fn comes_to(
    alloc: Global,
    words: &[&str],
    failing: Failing,
    requests: &[&[u8]],
    piece: usize,
    status: u8,
    replies: &[&[u8]],
) -> Result<bool, OutOfMemory>
    requires { 0 < piece }
{
    let requests = joined(alloc, requests)?;
    let replies = joined(alloc, replies)?;
    let outcome = run_alone(alloc, words, failing, requests.as_slice(), piece)?;
    Ok(outcome.status == status && outcome.written.as_slice() == replies.as_slice())
}
