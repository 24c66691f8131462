//! The outside in memory: sources, sinks, keepers and desks, and the adapters of std's ends.
ghost use Rattle.std.specs.Prelude.{◌<◌, IfOk};
ghost use Rattle.keeper_core.specs.Desk.{IsNoneOut, failing_told, sure_told};
ghost use Rattle.api_types.specs.Rows.{Fits, no_rows};

use crate::listed::numbers;
use api_types::{Change, Item, Kind, ProjectRow, Row, Rows};
use keeper_core::{
    Desk, DeskRefusal, EndsList, Failed, Keeper, MemoryDesk, MemoryKeeper, MemorySink,
    MemorySource, Named, NamedBytes, ReaderSource, Sink, Source, SureDesk, SureEnds, SureKeeper,
    SureSink, SureSource, WriterSink,
};
use net_addr::{Bytes, OutOfMemory, Seq, Text};
use std::alloc::Global;
use std::test::Fail;

fn bytes(alloc: Global, text: &str) -> Result<Bytes, OutOfMemory> {
    Ok(Bytes::from_vec(Vec::from_slice(alloc, text.as_bytes())?))
}

/// What three reads into a buffer of four bytes give, and whether one of them fails.
struct ThreeReads {
    bytes: Vec<u8>,
    failed: bool,
}

impl Drop for ThreeReads {
    fn drop(self) {
        let ThreeReads {
            bytes: _,
            failed: _,
        } = self;
    }
}

impl ThreeReads {
    fn of<I: Source>(alloc: Global, input: &mut I) -> Result<ThreeReads, OutOfMemory> {
        let mut bytes = Vec::new(alloc);
        let mut failed = false;
        for _ in 0..3u8 {
            let mut buf = [0; 4];
            match input.read(&mut buf) {
                Ok(count) => bytes.extend_from_slice(&buf[..count])?,
                Err(Failed) => failed = true,
            }
        }
        Ok(ThreeReads { bytes, failed })
    }

    fn are(&self, text: &str, failed: bool) -> bool {
        self.bytes.as_slice() == text.as_bytes() && self.failed == failed
    }
}

fn read_sure(alloc: Global) -> Result<ThreeReads, OutOfMemory> {
    let mut sure = SureSource::make(bytes(alloc, "abcde")?, 2);
    ThreeReads::of(alloc, &mut sure)
}

fn read_memory(alloc: Global) -> Result<ThreeReads, OutOfMemory> {
    let listed = numbers(alloc, &[2])?;
    let mut memory = MemorySource::make(bytes(alloc, "abcde")?, 2, listed);
    ThreeReads::of(alloc, &mut memory)
}

fn read_reader(alloc: Global) -> Result<ThreeReads, OutOfMemory> {
    let text: &[u8] = b"abcde";
    ThreeReads::of(alloc, &mut ReaderSource::make(text))
}

#[test]
fn sources_give_pieces(rt: HostRuntime) -> Result<(), Fail> {
    let alloc = rt.alloc();
    assert!(rt; read_sure(alloc)?.are("abcde", false));
    assert!(rt; read_memory(alloc)?.are("abcd", true));
    assert!(rt; read_reader(alloc)?.are("abcde", false));
    Ok(())
}

/// Writes two texts and flushes, and tells how many of the calls succeeded.
fn write_twice<O: Sink>(output: &mut O) -> u8 {
    let first = output.write(b"ab").is_ok();
    let second = output.write(b"cd").is_ok();
    let flushed = output.flush().is_ok();
    first as u8 + second as u8 + flushed as u8
}

fn sure_takes(alloc: Global) -> bool {
    let mut sure = SureSink::make(alloc);
    let done = write_twice(&mut sure);
    done == 3 && sure.as_slice() == b"abcd".as_slice()
}

fn memory_takes(alloc: Global) -> Result<bool, OutOfMemory> {
    let mut memory = MemorySink::make(alloc, numbers(alloc, &[2])?);
    let done = write_twice(&mut memory);
    Ok(done == 2 && memory.as_slice() == b"ab".as_slice())
}

fn writer_takes(alloc: Global) -> bool {
    let mut writer = WriterSink::make(Vec::new(alloc));
    let done = write_twice(&mut writer);
    done == 3 && writer.into_inner().as_slice() == b"abcd".as_slice()
}

// The second write takes nothing, and so it is a fault.
fn full_writer_takes() -> bool {
    let mut room = [0; 2];
    let mut full = WriterSink::make(&mut room[..]);
    write_twice(&mut full) == 2
}

#[test]
fn sinks_take_pieces(rt: HostRuntime) -> Result<(), Fail> {
    let alloc = rt.alloc();
    assert!(rt; sure_takes(alloc));
    assert!(rt; memory_takes(alloc)?);
    assert!(rt; writer_takes(alloc));
    assert!(rt; full_writer_takes());
    Ok(())
}

/// The change that makes a project in no rows.
fn project_made(alloc: Global) -> Result<Change, OutOfMemory>
    ensures { IfOk result (λ change. Fits no_rows change) }
{
    let row = Row::Project(ProjectRow {
        name: Text::of(alloc, "a")?,
        ordinal: 1,
        count: 0,
    });
    let mut change = Seq::new(alloc);
    change.push(Item {
        kind: Kind::Project,
        place: 0,
        before: None,
        after: Some(row),
    })?;
    Ok(change)
}

fn sure_keeper_applies(alloc: Global, change: &Change) -> Result<bool, OutOfMemory>
    requires { Fits no_rows change.now }
{
    let mut sure = SureKeeper::make(Rows::empty(alloc)?);
    let applied = sure.apply(alloc, change).is_ok();
    let loaded = match sure.load(alloc) {
        Ok(rows) => rows.projects().rows().len(),
        Err(_) => 0,
    };
    Ok(applied && loaded == 1)
}

fn memory_keeper_applies(alloc: Global, change: &Change) -> Result<bool, OutOfMemory>
    requires { Fits no_rows change.now }
{
    let listed = numbers(alloc, &[1])?;
    let mut memory = MemoryKeeper::make(alloc, Rows::empty(alloc)?, listed)?;
    let failed = memory.load(alloc).is_err();
    let applied = memory.apply(alloc, change).is_ok();
    Ok(failed && applied && memory.rows().projects().rows().len() == 1)
}

#[test]
fn keepers_apply_changes(rt: HostRuntime) -> Result<(), Fail> {
    let alloc = rt.alloc();
    let change = project_made(alloc)?;
    assert!(rt; sure_keeper_applies(alloc, &change)?);
    assert!(rt; memory_keeper_applies(alloc, &change)?);
    Ok(())
}

/// Makes each call of a desk once, but those for connections.
fn visit<D: Desk>(alloc: Global, desk: &mut D, name: &Text) -> Result<Bytes, DeskRefusal>
    requires { IsNoneOut (D.told desk.old) }
    ensures { IsNoneOut (D.told desk.new) }
{
    let bytes = desk.settings(alloc, name)?;
    let store = desk.store(alloc, Some(name))?;
    desk.close(store);
    desk.listen(alloc, name)?;
    Ok(bytes)
}

/// Takes the next connection, and hands it back.
fn greet<D: Desk>(alloc: Global, desk: &mut D) -> bool
    requires { IsNoneOut (D.told desk.old) }
{
    match desk.next(alloc) {
        Ok(Some((input, output))) => {
            desk.done(input, output);
            true
        }
        Ok(None) => true,
        Err(_) => false,
    }
}

fn files(alloc: Global) -> Result<NamedBytes, OutOfMemory> {
    let mut files = Seq::new(alloc);
    files.push(Named {
        name: Text::of(alloc, "a")?,
        value: bytes(alloc, "x")?,
    })?;
    Ok(files)
}

fn sure_desk(alloc: Global) -> Result<SureDesk, OutOfMemory>
    ensures { IfOk result (λ desk. IsNoneOut (sure_told desk)) }
{
    let input = SureSource::make(bytes(alloc, "y")?, 1);
    let mut ends: SureEnds = Seq::new(alloc);
    ends.push((input, SureSink::make(alloc)))?;
    SureDesk::make(alloc, files(alloc)?, Seq::new(alloc), ends)
}

// Whether these are the bytes of the settings.
fn are_settings(got: Result<Bytes, DeskRefusal>) -> bool {
    match got {
        Ok(bytes) => bytes.as_slice() == b"x".as_slice(),
        Err(_) => false,
    }
}

fn sure_desk_hands_out(alloc: Global) -> Result<bool, OutOfMemory> {
    let name = Text::of(alloc, "a")?;
    let mut desk = sure_desk(alloc)?;
    let visited = are_settings(visit(alloc, &mut desk, &name));
    let greeted = greet(alloc, &mut desk);
    let ended = matches!(desk.ended(), Some(ended) if ended.len() == 1);
    Ok(visited && greeted && ended && desk.asks().len() == 4 && desk.stores().len() == 1)
}

#[test]
fn sure_desks_hand_out(rt: HostRuntime) -> Result<(), Fail> {
    assert!(rt; sure_desk_hands_out(rt.alloc())?);
    Ok(())
}

// No room is kept for a connection that the desk never handed out.
fn unknown_is_not_told(alloc: Global) -> Result<bool, OutOfMemory> {
    let input = SureSource::make(bytes(alloc, "z")?, 1);
    let mut desk = SureDesk::make(alloc, files(alloc)?, Seq::new(alloc), Seq::new(alloc))?;
    let told = matches!(desk.ended(), Some(ended) if ended.is_empty());
    desk.done(input, SureSink::make(alloc));
    Ok(told && desk.ended().is_none())
}

#[test]
fn unknown_connections_are_not_told(rt: HostRuntime) -> Result<(), Fail> {
    assert!(rt; unknown_is_not_told(rt.alloc())?);
    Ok(())
}

// A desk whose second call fails.
fn failing_desk(alloc: Global) -> Result<MemoryDesk, OutOfMemory>
    ensures { IfOk result (λ desk. IsNoneOut (failing_told desk)) }
{
    let listed = numbers(alloc, &[2])?;
    let ends: EndsList = Seq::new(alloc);
    let none = Seq::new(alloc);
    MemoryDesk::make(alloc, files(alloc)?, Seq::new(alloc), ends, listed, none)
}

fn has_made(desk: &MemoryDesk, asks: usize, stores: usize) -> bool {
    desk.asks().len() == asks && desk.stores().len() == stores
}

fn fails_in_listed_calls(alloc: Global) -> Result<bool, OutOfMemory> {
    let name = Text::of(alloc, "a")?;
    let mut desk = failing_desk(alloc)?;
    let failed = visit(alloc, &mut desk, &name).is_err() && has_made(&desk, 2, 0);
    let visited = visit(alloc, &mut desk, &name).is_ok();
    let greeted = greet(alloc, &mut desk);
    Ok(failed && visited && greeted && has_made(&desk, 6, 1))
}

#[test]
fn memory_desks_fail_in_listed_calls(rt: HostRuntime) -> Result<(), Fail> {
    assert!(rt; fails_in_listed_calls(rt.alloc())?);
    Ok(())
}
