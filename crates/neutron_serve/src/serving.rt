//! Connections served one after the other.
ghost use Rattle.std.specs.Prelude.{◌≡◌, ◌≤◌};
ghost use Rattle.keeper_core.specs.Counts.{Tells};
ghost use Rattle.keeper_core.specs.Desk.{IsNoneOut};
ghost use Rattle.keeper_core.specs.Kept.{IsStored};
ghost use Rattle.neutron_serve.specs.Connections as connections;

use crate::sessions::session;
use crate::status::Status;
use http_session::SessionEnd;
use keeper_core::{Desk, DeskRefusal};
use lab_world::World;
use std::alloc::Global;

// The most bytes that a session reads: 2^40.
pub(crate) const BUDGET: u64 = 1_099_511_627_776;

// What came of the ask for one connection more.
#[derive(Clone, Copy)]
pub(crate) enum NextConnection {
    // It was served, and its session ended so.
    Served(SessionEnd),
    // None is to come.
    NoneLeft,
    // The desk failed.
    Failed,
    // Memory ran out.
    OutOfMemory,
}

// Serves the next connection, and hands it back.
fn serve_next<D: Desk>(
    alloc: Global,
    desk: &mut D,
    world: &mut World,
    store: &mut D::Store,
) -> NextConnection
    requires kept { Tells (D.Store.told store.old).rows world.old.history.rows }
    requires none_out { IsNoneOut (D.told desk.old) }
    ensures comes { connections.ComesNext D.In.told D.Out.told result
        (connections.carried world.old (D.Store.told store.old) (D.told desk.old))
        (connections.carried world.new (D.Store.told store.new) (D.told desk.new)) }
    ensures kept { IsStored world.new.history.rows (D.Store.told store.old)
        (D.Store.told store.new) }
    ensures none_out { IsNoneOut (D.told desk.new) }
    ensures later { (D.told desk.old).faults ≤ (D.told desk.new).faults }
{
    match desk.next(alloc) {
        Ok(Some((mut input, mut output))) => {
            let end = session(alloc, world, store, &mut input, &mut output, BUDGET);
            desk.done(input, output);
            NextConnection::Served(end)
        }
        Ok(None) => NextConnection::NoneLeft,
        Err(DeskRefusal::Failed) => NextConnection::Failed,
        Err(DeskRefusal::OutOfMemory) => NextConnection::OutOfMemory,
    }
}

// Whether a session ended because memory ran out.
fn is_wanting(end: SessionEnd) -> bool
    ensures { result ≡ connections.is_wanting end }
{
    match end {
        SessionEnd::OutOfMemory => true,
        SessionEnd::Done | SessionEnd::ReadFault | SessionEnd::WriteFault | SessionEnd::Budget =>
            false,
    }
}

/// Serves the connections to come, one after the other and at most this many, over one world. It
/// is done once they were served or none is left. A session that runs out of memory ends it, and so
/// does a desk that fails.
pub(crate) fn serve_all<D: Desk>(
    alloc: Global,
    desk: &mut D,
    world: &mut World,
    store: &mut D::Store,
    most: u64,
) -> Status
    requires kept { Tells (D.Store.told store.old).rows world.old.history.rows }
    requires none_out { IsNoneOut (D.told desk.old) }
    ensures serves { connections.ServesAll D.In.told D.Out.told most result
        (connections.carried world.old (D.Store.told store.old) (D.told desk.old))
        (connections.carried world.new (D.Store.told store.new) (D.told desk.new)) }
    ensures kept { IsStored world.new.history.rows (D.Store.told store.old)
        (D.Store.told store.new) }
    ensures later { (D.told desk.old).faults ≤ (D.told desk.new).faults }
{
    'connections: for _connection in 0..most {
        match serve_next(alloc, desk, world, store) {
            NextConnection::Served(end) => {
                if is_wanting(end) {
                    return Status::OutOfMemory;
                }
            }
            NextConnection::NoneLeft => return Status::Done,
            NextConnection::Failed => return Status::Failed,
            NextConnection::OutOfMemory => return Status::OutOfMemory,
        }
    }
    Status::Done
}
