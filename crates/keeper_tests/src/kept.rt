//! What no call makes is stored and loaded: a project with the last ordinal, which is removed again,
//! and a row that is made again with its id. A count that fits no column makes the whole change fail.
use crate::rows::{gives, push_items};
use api_types::{Change, Row, Segment};
use keeper_core::Keeper;
use keeper_sql::SqlKeeper;
use net_addr::{OutOfMemory, Seq, Text};
use sqlite::{Connection, MemStore};
use std::alloc::Global;
use std::test::Fail;
use test_rows::{network, project};

/// A row that a change makes or takes out, or that a store has after it.
#[derive(Clone, Copy)]
enum Part {
    /// A project with the last ordinal and the last count.
    Last,
    /// A flat network.
    Flat(u8),
    /// A network of VXLAN with the last number.
    Tunnelled(u8),
    /// A project whose count fits no column.
    Uncounted,
}

fn last(alloc: Global) -> Result<Row, OutOfMemory> {
    let mut row = project(alloc, 0xffff_ffff, "a")?;
    row.count = 0x3fff_ffff_ffff_ffff;
    Ok(Row::Project(row))
}

fn flat(alloc: Global, n: u8) -> Result<Row, OutOfMemory> {
    let physical = Text::of(alloc, "physnet1")?;
    Ok(Row::Network(network(alloc, n, Segment::Flat { physical })?))
}

fn tunnelled(alloc: Global, n: u8) -> Result<Row, OutOfMemory> {
    let number = 16_777_215;
    Ok(Row::Network(network(alloc, n, Segment::Vxlan { number })?))
}

fn uncounted(alloc: Global) -> Result<Row, OutOfMemory> {
    let mut row = project(alloc, 2, "b")?;
    row.count = 0x8000_0000_0000_0000;
    Ok(Row::Project(row))
}

fn row_of(alloc: Global, part: Part) -> Result<Row, OutOfMemory> {
    match part {
        Part::Last => last(alloc),
        Part::Flat(n) => flat(alloc, n),
        Part::Tunnelled(n) => tunnelled(alloc, n),
        Part::Uncounted => uncounted(alloc),
    }
}

fn one_row(alloc: Global, row: Row) -> Result<Seq<Row>, OutOfMemory> {
    let mut rows = Seq::new(alloc);
    rows.push(row)?;
    Ok(rows)
}

fn all_rows(alloc: Global, parts: &[Part]) -> Result<Seq<Row>, OutOfMemory> {
    let mut all = Seq::new(alloc);
    for part in parts {
        all.push(row_of(alloc, *part)?)?;
    }
    Ok(all)
}

/// A change of a new store, by rows that are made or taken out; how many of its calls fail; and the
/// rows that it has then.
struct Case {
    change: &'static [(Part, bool)],
    faults: u64,
    rows: &'static [Part],
}

const CASES: [Case; 4] = [
    // the extremes of a project
    Case {
        change: &[(Part::Last, true), (Part::Flat(1), true)],
        faults: 0,
        rows: &[Part::Last, Part::Flat(1)],
    },
    // it is taken out, as no call does
    Case {
        change: &[
            (Part::Last, true),
            (Part::Flat(1), true),
            (Part::Last, false),
        ],
        faults: 0,
        rows: &[Part::Flat(1)],
    },
    // a row that is changed keeps its place, and one that is made again comes last
    Case {
        change: &[
            (Part::Flat(1), true),
            (Part::Flat(2), true),
            (Part::Flat(3), true),
            (Part::Flat(2), false),
            (Part::Tunnelled(1), true),
            (Part::Flat(2), true),
        ],
        faults: 0,
        rows: &[Part::Tunnelled(1), Part::Flat(3), Part::Flat(2)],
    },
    // the last row of the change fits no column
    Case {
        change: &[(Part::Flat(1), true), (Part::Uncounted, true)],
        faults: 1,
        rows: &[],
    },
];

fn change_of(alloc: Global, parts: &[(Part, bool)]) -> Result<Change, OutOfMemory> {
    let mut change = Seq::new(alloc);
    for (part, is_made) in parts {
        push_items(
            &mut change,
            one_row(alloc, row_of(alloc, *part)?)?,
            *is_made,
        )?;
    }
    Ok(change)
}

// A store with its tables, and without rows.
fn new_store(alloc: Global) -> Result<SqlKeeper<MemStore>, Fail> {
    let mut keeper = SqlKeeper::make(Connection::open_in_memory(alloc)?);
    match keeper.load(alloc) {
        Ok(_) => Ok(keeper),
        Err(_) => Err(Fail::new("no rows were loaded")),
    }
}

fn is_met(alloc: Global, case: &Case) -> Result<bool, Fail> {
    let mut keeper = new_store(alloc)?;
    let change = change_of(alloc, case.change)?;
    let is_kept = keeper.apply(alloc, &change).is_ok();
    let gives = gives(alloc, &mut keeper, all_rows(alloc, case.rows)?)?;
    Ok(is_kept == (case.faults == 0) && keeper.faults() == case.faults && gives)
}

#[test]
fn keeps_changes(rt: HostRuntime) -> Result<(), Fail> {
    let alloc = rt.alloc();
    for case in &CASES {
        assert!(rt; is_met(alloc, case)?);
    }
    Ok(())
}
