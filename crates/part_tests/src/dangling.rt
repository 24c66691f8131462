//! Tables that lead to what isn't there, which no agent makes: to a host and to a router.
use crate::lab::{Lab, Node};
use fabric_run::send;
use net_addr::{Addr4, OutOfMemory, Seq, Text};
use plane_types::{
    Ascending, BridgeKey, BridgeRow, BridgeTo, DropCause, Ends, Event, Frame, KeyPart, Outcome,
    TableLists, TagRow, Tags, TapRow,
};
use std::alloc::Global;
use std::test::Fail;
use test_rows::{id, mac};

fn tags(alloc: Global) -> Result<Tags, OutOfMemory> {
    let mut tags = Seq::new(alloc);
    tags.push(TagRow {
        network: id(10),
        tag: 1,
        wire: None,
    })?;
    Ok(tags)
}

fn taps(alloc: Global) -> Result<Seq<TapRow>, OutOfMemory> {
    let mut taps = Seq::new(alloc);
    taps.push(TapRow {
        port: id(5),
        tag: 1,
        mac: mac(5),
        secured: false,
        allowed: Seq::new(alloc),
    })?;
    Ok(taps)
}

fn bridge(alloc: Global, to: BridgeTo) -> Result<Ascending<BridgeRow>, OutOfMemory> {
    let mut bridge = Ascending::new(alloc);
    bridge.insert(BridgeRow {
        tag: 1,
        key: BridgeKey::Mac(mac(6)),
        to,
    })?;
    Ok(bridge)
}

// These tables, and no rows in the others.
fn tables(
    alloc: Global,
    tags: Tags,
    taps: Seq<TapRow>,
    bridge: Ascending<BridgeRow>,
) -> TableLists {
    TableLists {
        tags,
        taps,
        filters: Seq::new(alloc),
        sets: Seq::new(alloc),
        bridge,
        inward: Seq::new(alloc),
        neighbours: Ascending::new(alloc),
        routers: Seq::new(alloc),
        routes: Seq::new(alloc),
        floats: Seq::new(alloc),
        leases: Seq::new(alloc),
    }
}

// Tables without rows.
fn empty(alloc: Global) -> TableLists {
    tables(
        alloc,
        Seq::new(alloc),
        Seq::new(alloc),
        Ascending::new(alloc),
    )
}

// An instance that isn't filtered, on a network where one more MAC leads to this.
fn host(alloc: Global, to: BridgeTo) -> Result<TableLists, OutOfMemory> {
    let bridge = bridge(alloc, to)?;
    let tags = tags(alloc)?;
    let taps = taps(alloc)?;
    Ok(tables(alloc, tags, taps, bridge))
}

// Whether a packet to that MAC is dropped since nobody has it.
fn is_unknown(alloc: Global, lab: &Lab) -> Result<bool, OutOfMemory> {
    let event = Event::FromPort {
        port: id(5),
        frame: Frame::Ip {
            src: mac(5),
            dst: mac(6),
            ends: Ends::four(Addr4(0x0a00_0005), Addr4(0x0a00_0006)),
            ttl: 64,
            part: KeyPart::Tcp { sport: 1, dport: 2 },
        },
    };
    let verdict = send(alloc, lab, &event)?;
    Ok(match &verdict.outcome {
        Outcome::Dropped(cause) => *cause == DropCause::Unknown && verdict.path.len() == 1,
        _ => false,
    })
}

fn leads_nowhere(alloc: Global, to: BridgeTo) -> Result<bool, Fail> {
    let second = Node::make(alloc, "c3", empty(alloc))?;
    let first = Node::make(alloc, "c1", host(alloc, to)?)?;
    let lab = Lab::make(first, second)?;
    Ok(is_unknown(alloc, &lab)?)
}

#[test]
fn dangling_rows_lead_nowhere(rt: HostRuntime) -> Result<(), Fail> {
    let alloc = rt.alloc();
    let tunnel = BridgeTo::Tunnel {
        host: Text::of(alloc, "c2")?,
        number: 1,
    };
    assert!(rt; leads_nowhere(alloc, tunnel)?);
    let router = BridgeTo::Router {
        router: id(50),
        port: id(52),
    };
    assert!(rt; leads_nowhere(alloc, router)?);
    Ok(())
}
