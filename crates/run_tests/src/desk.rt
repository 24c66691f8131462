//! Desks in memory, which have two files of settings, and connections to come.
ghost use Rattle.std.specs.Prelude.{[], ◌∷◌, IfOk, IsTrue};
ghost use Rattle.keeper_core.specs.Desk.{IsNoneOut, failing_told, fresh_ends};

use keeper_core::{EndsList, MemoryDesk, MemorySink, MemorySource, Named, NamedBytes};
use net_addr::{Bytes, Numbers, OutOfMemory, Seq, Text};
use std::alloc::Global;

/// Requests on a connection, and which of its reads fail. One read gives seven bytes.
pub(crate) type Connection = (&'static [u8], &'static [u64]);

/// These bytes.
pub(crate) fn bytes(alloc: Global, bytes: &[u8]) -> Result<Bytes, OutOfMemory> {
    Ok(Bytes::from_vec(Vec::from_slice(alloc, bytes)?))
}

/// The numbers of calls that are to fail.
pub(crate) fn numbers(alloc: Global, numbers: &[u64]) -> Result<Numbers, OutOfMemory> {
    Ok(Seq::from_vec(Vec::from_slice(alloc, numbers)?))
}

fn file(alloc: Global, name: &str, text: &str) -> Result<Named<Bytes>, OutOfMemory> {
    let name = Text::of(alloc, name)?;
    let value = bytes(alloc, text.as_bytes())?;
    Ok(Named { name, value })
}

fn files(alloc: Global) -> Result<NamedBytes, OutOfMemory> {
    let mut files = Seq::new(alloc);
    for (name, text) in [("good", "vxlan_first = 7\n"), ("bad", "vxlan_first = 0\n")] {
        files.push(file(alloc, name, text)?)?;
    }
    Ok(files)
}

fn ends_of(
    alloc: Global,
    connection: &Connection,
) -> Result<(MemorySource, MemorySink), OutOfMemory>
    ensures { IfOk result (λ ends. IsTrue (fresh_ends (ends ∷ []))) }
{
    let (requests, failing) = *connection;
    let failing = numbers(alloc, failing)?;
    let requests = bytes(alloc, requests)?;
    let input = MemorySource::make(requests, 7, failing);
    Ok((input, MemorySink::make(alloc, Seq::new(alloc))))
}

fn all_ends(alloc: Global, connections: &[Connection]) -> Result<EndsList, OutOfMemory>
    ensures { IfOk result (λ ends. IsTrue (fresh_ends ends)) }
{
    let mut ends = Seq::new(alloc);
    for connection in connections {
        ends.push(ends_of(alloc, connection)?)?;
    }
    Ok(ends)
}

/// A desk with these connections to come, which fails in these calls, and whose stores fail in
/// those. The connections are made last: what is made before them is dropped with less.
pub(crate) fn make_desk(
    alloc: Global,
    connections: &[Connection],
    failing: &[u64],
    store_failing: &[u64],
) -> Result<MemoryDesk, OutOfMemory>
    ensures { IfOk result (λ desk. IsNoneOut (failing_told desk)) }
{
    let failing = numbers(alloc, failing)?;
    let store_failing = numbers(alloc, store_failing)?;
    let files = files(alloc)?;
    let ends = all_ends(alloc, connections)?;
    MemoryDesk::make(alloc, files, Seq::new(alloc), ends, failing, store_failing)
}
