//! Where a look-up leads: a place, a tunnel, a wire, or an end that borrows from the tables.

ghost use Rattle.std.specs.Prelude.{◌≡◌};
ghost use Rattle.plane_types.specs.TableStep.{drops as drop_step, plain as plain_step};
ghost use Rattle.host_plane.specs.Views.{view_of_step, view_of_stepped};

use api_types::{Id, Lease};
use net_addr::{Addr, Mac, Text};
use plane_types::{DropCause, Entry, Frame, Place, Toward};

/// How a frame ends, as an `Outcome` says it, but that a lease is borrowed from the tables.
#[derive(Clone, Copy)]
pub enum FrameEnd<'t> {
    /// A port gets it.
    Delivered {
        port: Id,
        frame: Frame,
    },
    /// An ask for an address is answered.
    Address {
        address: Addr,
        mac: Mac,
    },
    /// An ask for a lease is answered.
    Lease(&'t Lease),
    /// A router is its destination.
    Absorbed {
        router: Id,
    },
    /// It leaves by the physical network of a network.
    Out {
        network: Id,
        toward: Toward,
        frame: Frame,
    },
    Dropped(DropCause),
}

/// The end of a frame at a host.
#[derive(Clone, Copy)]
pub struct Ending<'t> {
    pub ended: FrameEnd<'t>,
    /// The network of the way out, where a router sent the packet on in this look-up.
    pub way: Option<Id>,
}

/// Where a look-up leads.
pub enum Step<'t> {
    /// It goes on at this host.
    Next(Place<'t>),
    /// It goes to another host, under a number of VXLAN.
    ToTunnel {
        host: &'t Text,
        number: u32,
        frame: Frame,
    },
    /// It goes to the wire of a physical network, and out of the network where no host takes it.
    ToWire {
        physical: &'t Text,
        tag: Option<u16>,
        network: Id,
        toward: Toward,
        frame: Frame,
    },
    End(Ending<'t>),
}

impl Drop for Step<'_> {
    fn drop(self) {
        // for the proof: values of these types are at hand where their parts are dropped
        let _toward = Toward::Dhcp;
        let _ending = Ending {
            ended: FrameEnd::Dropped(DropCause::Unknown),
            way: None,
        };
        match self {
            Step::Next(Place::TapIn { port: _, frame: _ }) => {}
            Step::Next(Place::Bridge { tag: _, frame: _ }) => {}
            Step::Next(
                Place::TunnelIn {
                    number: _,
                    frame: _,
                },
            ) => {}
            Step::Next(
                Place::WireIn {
                    physical: _,
                    tag: _,
                    frame: _,
                },
            ) => {}
            Step::Next(
                Place::RouterIn {
                    port: _,
                    router: _,
                    frame: _,
                },
            ) => {}
            Step::Next(Place::DhcpIn { tag: _, frame: _ }) => {}
            Step::Next(Place::TapOut { port: _, frame: _ }) => {}
            Step::ToTunnel {
                host: _,
                number: _,
                frame: _,
            } => {}
            Step::ToWire {
                physical: _,
                tag: _,
                network: _,
                toward: _,
                frame: _,
            } => {}
            Step::End(_) => {}
        }
    }
}

/// A step, with the entry that it makes.
pub(crate) struct Stepped<'t> {
    pub(crate) step: Step<'t>,
    pub(crate) made: Option<Entry>,
}

/// It is dropped.
pub(crate) fn drops<'t>(cause: DropCause) -> Step<'t>
    ensures { view_of_step result ≡ drop_step cause }
{
    Step::End(Ending {
        ended: FrameEnd::Dropped(cause),
        way: None,
    })
}

/// It is dropped, and makes no entry.
pub(crate) fn drop_frame<'t>(cause: DropCause) -> Stepped<'t>
    ensures { view_of_stepped result ≡ plain_step (drop_step cause) }
{
    Stepped {
        step: drops(cause),
        made: None,
    }
}
