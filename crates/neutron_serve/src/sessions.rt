//! Sessions over a world.
ghost use Rattle.std.specs.Prelude.{◌≡◌};
ghost use Rattle.http_session.specs.Serves.{scene};
ghost use Rattle.keeper_core.specs.Counts.{RoseBy, Tells};
ghost use Rattle.keeper_core.specs.Kept.{IsStored};
ghost use Rattle.neutron_serve.specs.Promises.{Promises};

use crate::api::Api;
use http_session::SessionEnd;
use keeper_core::{Keeper, Sink, Source};
use lab_world::World;
use std::alloc::Global;

/// Answers the requests of the input, one after the other, and says why it ended.
///
/// At most `limit` bytes are read. A buffer of 81,920 bytes, which the longest request fills, is
/// taken first. What is promised of each request stands in specs/Promises: it is answered by the
/// step of the API or of the lab, whenever every host holds the current version frames come to
/// what the rows say, a tenant's reply depends on its footing alone, and its request leaves what
/// others own alone. Each reply is flushed before more is read. An accepted change is in the rows
/// and in the kept rows, or the reply says that the store failed or that memory ran out, and
/// nothing changed. Bytes that are refused have their reply, and a reply that closes the connection
/// is the last one.
///
/// A request's cost grows with its bytes, in whatever pieces they come, with its reply, and with
/// the rows.
pub fn session<K: Keeper, I: Source, O: Sink>(
    alloc: Global,
    world: &mut World,
    keeper: &mut K,
    input: &mut I,
    output: &mut O,
    limit: u64,
) -> SessionEnd
    requires { Tells (K.told keeper.old).rows world.old.history.rows }
    ensures promises { Promises limit
        (scene world.old (K.told keeper.old) (I.told input.old) (O.told output.old))
        (scene world.new (K.told keeper.new) (I.told input.new) (O.told output.new)) result }
    ensures kept { IsStored world.new.history.rows (K.told keeper.old) (K.told keeper.new) }
    ensures read_fault { result ≡ SessionEnd.ReadFault
        → RoseBy 1 (I.told input.old).faults (I.told input.new).faults }
    ensures write_fault { result ≡ SessionEnd.WriteFault
        → RoseBy 1 (O.told output.old).faults (O.told output.new).faults }
{
    let _rows = world.rows(); // for the proof: hosts follow the rows
    http_session::session::<Api, K, I, O>(alloc, world, keeper, input, output, limit)
}
