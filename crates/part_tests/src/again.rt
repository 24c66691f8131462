//! What `find_broken` finds, and `first_broken` too, where a row stands twice, or says what it must
//! not.
use crate::store::store;
use api_check::first_broken;
use api_consistency::find_broken;
use api_types::{Hop, Row, Rows, Segment};
use net_addr::{Copies, OutOfMemory, Text};
use net_settings::default_settings;
use std::alloc::Global;
use std::test::Fail;
use test_rows::{add, four, id, prefix};

// The store with a second row that says what its first row of a kind does, under an id of its own.
fn with_network(alloc: Global) -> Result<Rows, OutOfMemory> {
    let mut rows = store(alloc)?;
    if let Some(row) = rows.networks().rows().first() {
        let mut row = row.get().copy(alloc)?;
        row.id = id(90);
        add(alloc, &mut rows, Row::Network(row))?;
    }
    Ok(rows)
}

fn with_subnet(alloc: Global) -> Result<Rows, OutOfMemory> {
    let mut rows = store(alloc)?;
    if let Some(row) = rows.subnets().rows().first() {
        let mut row = row.get().copy(alloc)?;
        row.id = id(90);
        add(alloc, &mut rows, Row::Subnet(row))?;
    }
    Ok(rows)
}

fn with_group(alloc: Global) -> Result<Rows, OutOfMemory> {
    let mut rows = store(alloc)?;
    if let Some(row) = rows.groups().rows().first() {
        let mut row = row.get().copy(alloc)?;
        row.id = id(90);
        add(alloc, &mut rows, Row::Group(row))?;
    }
    Ok(rows)
}

fn with_rule(alloc: Global) -> Result<Rows, OutOfMemory> {
    let mut rows = store(alloc)?;
    if let Some(row) = rows.rules().rows().first() {
        let mut row = row.get().copy(alloc)?;
        row.id = id(90);
        add(alloc, &mut rows, Row::Rule(row))?;
    }
    Ok(rows)
}

fn with_router(alloc: Global) -> Result<Rows, OutOfMemory> {
    let mut rows = store(alloc)?;
    if let Some(row) = rows.routers().rows().first() {
        let mut row = row.get().copy(alloc)?;
        row.id = id(90);
        add(alloc, &mut rows, Row::Router(row))?;
    }
    Ok(rows)
}

fn with_floating(alloc: Global) -> Result<Rows, OutOfMemory> {
    let mut rows = store(alloc)?;
    if let Some(row) = rows.floatings().rows().first() {
        let mut row = row.get().copy(alloc)?;
        row.id = id(90);
        add(alloc, &mut rows, Row::Floating(row))?;
    }
    Ok(rows)
}

fn with_policy(alloc: Global) -> Result<Rows, OutOfMemory> {
    let mut rows = store(alloc)?;
    if let Some(row) = rows.policies().rows().first() {
        let mut row = row.get().copy(alloc)?;
        row.id = id(90);
        add(alloc, &mut rows, Row::Policy(row))?;
    }
    Ok(rows)
}

// The store with a third project that has the first one's name.
fn with_project(alloc: Global) -> Result<Rows, OutOfMemory> {
    let mut rows = store(alloc)?;
    if let Some(row) = rows.projects().rows().first() {
        let mut row = row.get().copy(alloc)?;
        row.ordinal = 3;
        add(alloc, &mut rows, Row::Project(row))?;
    }
    Ok(rows)
}

// With a network whose tag is too large.
fn with_tag(alloc: Global) -> Result<Rows, OutOfMemory> {
    let mut rows = store(alloc)?;
    if let Some(row) = rows.networks().rows().first() {
        let mut row = row.get().copy(alloc)?;
        row.id = id(90);
        let physical = Text::of(alloc, "physnet1")?;
        row.segment = Segment::Vlan {
            physical,
            tag: 4095,
        };
        add(alloc, &mut rows, Row::Network(row))?;
    }
    Ok(rows)
}

// With a router whose route goes by an address that it doesn't reach.
fn with_route(alloc: Global) -> Result<Rows, OutOfMemory> {
    let mut rows = store(alloc)?;
    let mut router = test_rows::router(alloc, 90)?;
    let destination = prefix(0x0a09_0000, 16);
    let next = four(0x0a08_0001);
    router.routes.push(Hop { destination, next })?;
    add(alloc, &mut rows, Row::Router(router))?;
    Ok(rows)
}

// Which clause both find, 0 if they find different things and 99 if they find none.
fn found(alloc: Global, rows: &Rows) -> Result<u8, OutOfMemory> {
    let settings = default_settings(alloc)?;
    let found = find_broken(alloc, rows, &settings);
    if found != first_broken(rows, &settings) {
        return Ok(0);
    }
    match found {
        Some(broken) => Ok(broken.rule),
        None => Ok(99),
    }
}

#[test]
fn rows_that_stand_twice_are_found(rt: HostRuntime) -> Result<(), Fail> {
    let alloc = rt.alloc();
    assert_eq!(rt; found(alloc, &with_project(alloc)?)?, 1);
    assert_eq!(rt; found(alloc, &with_subnet(alloc)?)?, 6);
    assert_eq!(rt; found(alloc, &with_network(alloc)?)?, 7);
    assert_eq!(rt; found(alloc, &with_router(alloc)?)?, 9);
    assert_eq!(rt; found(alloc, &with_floating(alloc)?)?, 9);
    assert_eq!(rt; found(alloc, &with_group(alloc)?)?, 11);
    assert_eq!(rt; found(alloc, &with_rule(alloc)?)?, 11);
    assert_eq!(rt; found(alloc, &with_policy(alloc)?)?, 13);
    Ok(())
}

#[test]
fn rows_that_say_what_they_must_not_are_found(rt: HostRuntime) -> Result<(), Fail> {
    let alloc = rt.alloc();
    assert_eq!(rt; found(alloc, &with_tag(alloc)?)?, 3);
    assert_eq!(rt; found(alloc, &with_route(alloc)?)?, 14);
    Ok(())
}
