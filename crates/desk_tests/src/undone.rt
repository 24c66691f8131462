//! A change that is put into rows and taken back, which no call does.
ghost use Rattle.api_types.specs.Rows.{Fits, no_rows};

use api_types::{Change, Direction, FitsRows, Item, Kind, Row, Rows, Segment};
use net_addr::{OutOfMemory, Seq};
use std::alloc::Global;
use std::test::Fail;
use test_rows::{group, network, project, rule};

// Makes a row at this place of its kind.
fn make(change: &mut Change, kind: Kind, place: usize, row: Row) -> Result<(), OutOfMemory> {
    change.push(Item {
        kind,
        place,
        before: None,
        after: Some(row),
    })
}

// A project's first network: the project, its default group with four rules, and the network.
fn first_network(alloc: Global) -> Result<Change, OutOfMemory> {
    let mut change = Seq::new(alloc);
    let row = Row::Project(project(alloc, 1, "a")?);
    make(&mut change, Kind::Project, 0, row)?;
    let row = Row::Group(group(alloc, 1, "default")?);
    make(&mut change, Kind::Group, 0, row)?;
    for n in 0..4u8 {
        let row = Row::Rule(rule(alloc, 2 + n, 1, Direction::Egress)?);
        make(&mut change, Kind::Rule, usize::from(n), row)?;
    }
    let row = Row::Network(network(alloc, 6, Segment::Vxlan { number: 1 })?);
    make(&mut change, Kind::Network, 0, row)?;
    Ok(change)
}

fn count(rows: &Rows) -> usize {
    rows.networks().rows().len() + rows.rules().rows().len()
}

// How many networks and rules there are once the change is put into no rows, and once it is taken
// back.
fn put_in_and_taken_back(alloc: Global, change: &Change) -> Result<(usize, usize), OutOfMemory>
    requires { Fits no_rows change.now }
{
    let mut rows = Rows::empty(alloc)?;
    rows.apply_change(alloc, change)?;
    let after = count(&rows);
    rows.undo_change(alloc, change)?;
    Ok((after, count(&rows)))
}

// The same of a change that fits no rows.
fn counts(alloc: Global, change: &Change) -> Result<(usize, usize), Fail> {
    let none = Rows::empty(alloc)?;
    if !change.fits(&none) {
        return Err(Fail::new("the change doesn't fit"));
    }
    Ok(put_in_and_taken_back(alloc, change)?)
}

#[test]
fn a_change_is_undone(rt: HostRuntime) -> Result<(), Fail> {
    let alloc = rt.alloc();
    let change = first_network(alloc)?;
    assert!(rt; counts(alloc, &change)? == (5, 0));
    Ok(())
}
