//! Stores that break a clause, and what is named of them: the first clause that they break, and the
//! first row that breaks it.
use crate::store::store;
use crate::store_rows::take_port;
use api_check::{Inconsistent, first_broken};
use api_types::{Kind, Row, Rows, Segment};
use net_addr::{OutOfMemory, Text};
use net_settings::default_settings;
use std::alloc::Global;
use std::test::Fail;
use test_rows::{add, id, mac, network, port};

/// Clauses by number, each with the kind of the first row that breaks it in the store that is spoiled
/// so, and what its id is made of.
pub(crate) const CLAUSES: [(u8, Kind, u8); 3] = [
    (4, Kind::Port, 31),
    (10, Kind::Floating, 50),
    (12, Kind::Port, 72),
];

// A second port with the instance's MAC address.
fn copy_mac(alloc: Global, rows: &mut Rows) -> Result<(), OutOfMemory> {
    let mut second = port(alloc, 70, 10)?;
    second.mac = mac(31);
    add(alloc, rows, Row::Port(second))
}

// A port of the project b on a network of the project a.
fn intrude(alloc: Global, rows: &mut Rows) -> Result<(), OutOfMemory> {
    let mut foreign = port(alloc, 72, 10)?;
    foreign.project = Text::of(alloc, "b")?;
    add(alloc, rows, Row::Port(foreign))
}

// Breaks one clause, by its number.
fn spoil(alloc: Global, rows: &mut Rows, rule: u8) -> Result<(), OutOfMemory> {
    match rule {
        4 => copy_mac(alloc, rows),
        // without the router's interface
        10 => take_port(alloc, rows, 2),
        12 => intrude(alloc, rows),
        _ => Ok(()),
    }
}

fn found(alloc: Global, rows: &Rows) -> Result<Option<Inconsistent>, OutOfMemory> {
    let settings = default_settings(alloc)?;
    Ok(first_broken(rows, &settings))
}

/// A store in which one clause is broken.
pub(crate) fn spoiled(alloc: Global, rule: u8) -> Result<Rows, OutOfMemory> {
    let mut rows = store(alloc)?;
    spoil(alloc, &mut rows, rule)?;
    Ok(rows)
}

#[test]
fn broken_clauses_are_named(rt: HostRuntime) -> Result<(), Fail> {
    let alloc = rt.alloc();
    for (rule, kind, n) in CLAUSES {
        let id = id(n);
        let want = Some(Inconsistent { rule, kind, id });
        let rows = spoiled(alloc, rule)?;
        assert!(rt; found(alloc, &rows)? == want, "clause {rule}");
    }
    Ok(())
}

#[test]
fn a_consistent_store_breaks_no_clause(rt: HostRuntime) -> Result<(), Fail> {
    let alloc = rt.alloc();
    let rows = store(alloc)?;
    assert!(rt; found(alloc, &rows)?.is_none());
    Ok(())
}

#[test]
fn the_first_of_two_broken_clauses_is_named(rt: HostRuntime) -> Result<(), Fail> {
    let alloc = rt.alloc();
    let mut rows = store(alloc)?;
    spoil(alloc, &mut rows, 12)?;
    spoil(alloc, &mut rows, 4)?;
    let want = Some(Inconsistent {
        rule: 4,
        kind: Kind::Port,
        id: id(31),
    });
    assert!(rt; found(alloc, &rows)? == want);
    Ok(())
}

#[test]
fn a_missing_dhcp_port_is_named_by_its_network(rt: HostRuntime) -> Result<(), Fail> {
    let alloc = rt.alloc();
    let mut rows = store(alloc)?;
    take_port(alloc, &mut rows, 0)?;
    let want = Some(Inconsistent {
        rule: 9,
        kind: Kind::Network,
        id: id(10),
    });
    assert!(rt; found(alloc, &rows)? == want);
    Ok(())
}

#[test]
fn a_network_of_no_project_is_named(rt: HostRuntime) -> Result<(), Fail> {
    let alloc = rt.alloc();
    let mut rows = Rows::empty(alloc)?;
    let network = network(alloc, 7, Segment::Local)?;
    add(alloc, &mut rows, Row::Network(network))?;
    let want = Some(Inconsistent {
        rule: 1,
        kind: Kind::Network,
        id: id(7),
    });
    assert!(rt; found(alloc, &rows)? == want);
    Ok(())
}
