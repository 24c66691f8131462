//! The trait `Link`: connections to a server.

ghost use Rattle.std.specs.Prelude.{◌+◌, IfOk};
ghost use Rattle.keeper_core.specs.Desk.{AreFresh};
ghost use Rattle.agent_links.specs.Links.{LinkTold, OpensLink, TakesBackLink};

use keeper_core::{OutsideRefusal, Sink, Source};
use net_addr::Text;
use std::alloc::Global;

/// Why no link was opened.
pub type LinkRefusal = OutsideRefusal;

/// What opens links to a server, and takes them back. What a call isn't said to change stays as it
/// is.
pub trait Link {
    type In: Source;

    type Out: Sink;

    // the links to come and those that were handed back, where it tells them, the address that was
    // opened last, while its link is out, and how many calls failed
    ghost told: { Self → LinkTold (Self.In × Self.Out) };

    /// Opens the first link to come, at an address. Its ends have no faults yet. Where a telling
    /// link has none to come, none is opened.
    fn open(&mut self, alloc: Global, address: &Text) -> Result<(Self::In, Self::Out), LinkRefusal>
        ensures fresh { IfOk result (λ pair.
            AreFresh (Self.In.told pair.0) (Self.Out.told pair.1)) }
        ensures opens { OpensLink address.now result (told self.old) (told self.new) };

    /// Takes back the link that was opened last, which comes last among those that were handed
    /// back. The faults of its ends are added to the count, up to the most that it holds. It
    /// refuses nothing and allocates nothing.
    fn done(&mut self, input: Self::In, output: Self::Out)
        ensures { TakesBackLink (input, output)
            ((Self.In.told input).faults + (Self.Out.told output).faults)
            (told self.old) (told self.new) };
}
