//! Asks for addresses and leases, by the rows.

ghost use Rattle.std.specs.Prelude.{◌≡◌, IfOk};
ghost use Rattle.plane_types.specs.Meaning.{lease_outcome as lease_answer, address_outcome as address_asked, lease_asked as lease_asked_of, dhcp_outcome as leased_by, out_of as out_or_dropped};
ghost use Rattle.plane_types.specs.Packets.{address_ask, lease_ask};

use api_types::{Id, Lease, PortRow, Rows};
use net_addr::{Addr4, Mac, OutOfMemory, Text};
use plane_rows::{dhcp_port, has_wire, holder, joined_with, lease_for, port_at};
use plane_types::{AskAnswer, DropCause, Ends, Frame, Outcome, Toward};
use std::alloc::Global;

/// Out on a network that a physical one carries, otherwise dropped.
pub(crate) fn out_of(
    rows: &Rows,
    network: Id,
    toward: Toward,
    frame: Frame,
    cause: DropCause,
) -> Outcome
    ensures { result ≡ out_or_dropped rows.now network toward frame cause }
{
    if has_wire(rows, network) {
        Outcome::Out {
            network,
            toward,
            frame,
        }
    } else {
        Outcome::Dropped(cause)
    }
}

/// What an ask for an address (RFC 826, RFC 4861) by a port of a host comes to: its holder's MAC,
/// where that is joined with the asker.
pub(crate) fn answer_arp(rows: &Rows, network: Id, host: &Text, src: Mac, ends: &Ends) -> Outcome
    ensures { result ≡ address_asked rows.now network host.now (address_ask src ends.now) }
{
    match joined_with(rows, host, holder(rows, network, &ends.destination())) {
        Some(port) => Outcome::Answered(AskAnswer::Arp {
            address: ends.destination(),
            mac: port.mac,
        }),
        None => out_of(
            rows,
            network,
            Toward::Address(ends.destination()),
            Frame::NeighbourAsk { src, ends: *ends },
            DropCause::NoHolder,
        ),
    }
}

fn answer_lease(lease: Option<Lease>) -> Outcome
    ensures { result ≡ lease_answer lease }
{
    match lease {
        Some(lease) => Outcome::Answered(AskAnswer::Lease(lease)),
        None => Outcome::Dropped(DropCause::NoLease),
    }
}

/// What a DHCP port answers to an ask for a lease: what the live port with the MAC is leased.
pub(crate) fn answer_dhcp(
    alloc: Global,
    rows: &Rows,
    network: Id,
    src: Mac,
    from: Addr4,
    dhcp: &PortRow,
) -> Result<Outcome, OutOfMemory>
    ensures { IfOk result (λ o. o ≡ leased_by rows.now network (lease_ask src from) dhcp.now) }
{
    match port_at(rows, network, src) {
        Some(port) => Ok(answer_lease(lease_for(alloc, rows, dhcp, port)?)),
        None => Ok(answer_lease(None)),
    }
}

/// What an ask for a lease (RFC 2131) by a port of a host comes to.
pub(crate) fn lease_asked(
    alloc: Global,
    rows: &Rows,
    network: Id,
    host: &Text,
    src: Mac,
    from: Addr4,
) -> Result<Outcome, OutOfMemory>
    ensures { IfOk result (λ o. o ≡ lease_asked_of rows.now network host.now (lease_ask src from)) }
{
    match joined_with(rows, host, dhcp_port(rows, network)) {
        Some(dhcp) => answer_dhcp(alloc, rows, network, src, from, dhcp),
        None => Ok(out_of(
            rows,
            network,
            Toward::Dhcp,
            Frame::Dhcp { src, from },
            DropCause::NoLease,
        )),
    }
}
