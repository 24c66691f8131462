//! The trait `Desk`: settings, stores and connections.

ghost use Rattle.std.specs.Prelude.{IfOk, IfSome, option_copied};
ghost use Rattle.keeper_core.specs.Desk.{AreFresh, AreNamed, Asks, Closes, DeskTold, HandsOut, IsNoneOut, OpensWith, TakesBack, with_opened};

use crate::ask::DeskAsk;
use crate::keeper::Keeper;
use crate::refusal::DeskRefusal;
use crate::sink::Sink;
use crate::source::Source;
use net_addr::{Bytes, Text};
use std::alloc::Global;

/// The desk that hands out settings, stores and connections. Each call of `settings`, `store`,
/// `listen` and `next` is an ask, also where it fails, but not where it runs out of memory. What a
/// call isn't said to change stays as it is.
pub trait Desk {
    type In: Source;

    type Out: Sink;

    type Store: Keeper;

    // its asks, settings, stores and connections, where it tells them, and two counts of faults
    ghost told: { Self → DeskTold (Self.In × Self.Out) };

    /// The bytes of the settings with this name. A desk that tells its settings gives no bytes for
    /// a name that it hasn't.
    fn settings(&mut self, alloc: Global, name: &Text) -> Result<Bytes, DeskRefusal>
        ensures bytes { IfOk result (AreNamed (told self.old).files name.now) }
        ensures asks { Asks (DeskAsk.Settings name.now) result (told self.old) (told self.new) };

    /// Opens the store with this name, or one without a name, which keeps nothing yet. So does one
    /// with a name that a telling desk hasn't.
    fn store(&mut self, alloc: Global, name: Option<&Text>) -> Result<Self::Store, DeskRefusal>
        ensures store { IfOk result (λ store.
            OpensWith (option_copied name.entry) (told self.old).stores (Self.Store.told store)) }
        ensures asks { Asks (DeskAsk.Store (option_copied name.entry)) result
            (with_opened (option_copied name.entry) result (told self.old)) (told self.new) };

    /// Takes back the store that was opened last. The rows that it tells become those with its
    /// name. It takes no memory.
    fn close(&mut self, store: Self::Store)
        ensures { Closes (Self.Store.told store) (told self.old) (told self.new) };

    /// Listens at an address from now on.
    fn listen(&mut self, alloc: Global, address: &Text) -> Result<(), DeskRefusal>
        ensures { Asks (DeskAsk.Listen address.now) result (told self.old) (told self.new) };

    /// The first connection to come, which is then no longer to come. None comes exactly where none
    /// is to come. It is asked for only while no connection is out, so each is served before the
    /// next one is taken.
    fn next(&mut self, alloc: Global) -> Result<Option<(Self::In, Self::Out)>, DeskRefusal>
        requires { IsNoneOut (told self.old) }
        ensures fresh { IfOk result (λ next. IfSome next (λ pair.
            AreFresh (Self.In.told pair.0) (Self.Out.told pair.1))) }
        ensures asks { HandsOut result (told self.old) (told self.new) };

    /// Takes back a connection, which comes last among those that were handed back. It refuses
    /// nothing and takes no memory. A desk that tells them may stop only where none was out, since
    /// it keeps room for each that is.
    fn done(&mut self, input: Self::In, output: Self::Out)
        ensures { TakesBack (input, output) (told self.old) (told self.new) };
}
