//! What `find_broken` finds, which looks rows up and sorts them, is what `first_broken` finds, which
//! goes through lists: of stores that break one clause, and of a store in which each row was left
//! out, and each port was given what another one has.
use crate::broken::{CLAUSES, spoiled};
use crate::store::store;
use api_check::{Inconsistent, first_broken};
use api_consistency::find_broken;
use api_types::{Kind, PortRow, RowKind, Rows};
use net_addr::{Copies, OutOfMemory};
use net_settings::default_settings;
use std::alloc::Global;
use std::test::Fail;
use test_rows::{add, id};

const KINDS: [Kind; 9] = [
    Kind::Project,
    Kind::Network,
    Kind::Subnet,
    Kind::Port,
    Kind::Group,
    Kind::Rule,
    Kind::Router,
    Kind::Floating,
    Kind::Policy,
];

fn found(alloc: Global, rows: &Rows) -> Result<Option<Inconsistent>, OutOfMemory> {
    let settings = default_settings(alloc)?;
    Ok(find_broken(alloc, rows, &settings))
}

// Whether both find the same.
fn is_alike(alloc: Global, rows: &Rows) -> Result<bool, OutOfMemory> {
    let settings = default_settings(alloc)?;
    Ok(find_broken(alloc, rows, &settings) == first_broken(rows, &settings))
}

// Adds the rows of a kind, but for one.
fn add_kind<R: RowKind>(
    alloc: Global,
    from: &Rows,
    to: &mut Rows,
    left_out: Option<usize>,
) -> Result<(), OutOfMemory> {
    let rows = R::table(from).rows();
    for place in 0..rows.len() {
        if left_out != Some(place) {
            add(alloc, to, rows[place].get().copy(alloc)?.into_row())?;
        }
    }
    Ok(())
}

fn at_kind(kind: Kind, wanted: Kind, place: usize) -> Option<usize> {
    if kind == wanted { Some(place) } else { None }
}

// The rows without the one at a place of a kind.
fn without(alloc: Global, rows: &Rows, kind: Kind, place: usize) -> Result<Rows, OutOfMemory> {
    let mut left = Rows::empty(alloc)?;
    let at = |wanted: Kind| at_kind(kind, wanted, place);
    add_kind::<api_types::ProjectRow>(alloc, rows, &mut left, at(Kind::Project))?;
    add_kind::<api_types::NetworkRow>(alloc, rows, &mut left, at(Kind::Network))?;
    add_kind::<api_types::SubnetRow>(alloc, rows, &mut left, at(Kind::Subnet))?;
    add_kind::<PortRow>(alloc, rows, &mut left, at(Kind::Port))?;
    add_kind::<api_types::GroupRow>(alloc, rows, &mut left, at(Kind::Group))?;
    add_kind::<api_types::RuleRow>(alloc, rows, &mut left, at(Kind::Rule))?;
    add_kind::<api_types::RouterRow>(alloc, rows, &mut left, at(Kind::Router))?;
    add_kind::<api_types::FloatingRow>(alloc, rows, &mut left, at(Kind::Floating))?;
    add_kind::<api_types::PolicyRow>(alloc, rows, &mut left, at(Kind::Policy))?;
    Ok(left)
}

// Gives a port one of the things that another one has.
fn give(
    alloc: Global,
    port: &mut PortRow,
    other: &PortRow,
    what: usize,
) -> Result<(), OutOfMemory> {
    match what {
        0 => port.network = other.network,
        1 => port.mac = other.mac,
        2 => port.fixed = other.fixed.copy(alloc)?,
        3 => port.device = other.device.copy(alloc)?,
        4 => port.owner = other.owner.copy(alloc)?,
        5 => port.project = other.project.copy(alloc)?,
        6 => port.host = other.host.copy(alloc)?,
        7 => port.vif = other.vif,
        8 => port.secured = other.secured,
        9 => port.groups = other.groups.copy(alloc)?,
        _ => {}
    }
    Ok(())
}

// The rows with a port changed so, or added with a new id.
fn with_given(
    alloc: Global,
    rows: &Rows,
    (place, other, what): (usize, usize, usize),
    is_added: bool,
) -> Result<Rows, OutOfMemory> {
    let mut made = if is_added {
        rows.copy(alloc)?
    } else {
        without(alloc, rows, Kind::Port, place)?
    };
    let ports = rows.ports().rows();
    if let (Some(port), Some(other)) = (ports.get(place), ports.get(other)) {
        let mut given = port.get().copy(alloc)?;
        give(alloc, &mut given, other.get(), what)?;
        if is_added {
            given.id = id(90);
        }
        add(alloc, &mut made, api_types::Row::Port(given))?;
    }
    Ok(made)
}

#[test]
fn each_spoiled_store_is_alike(rt: HostRuntime) -> Result<(), Fail> {
    let alloc = rt.alloc();
    for (rule, kind, n) in CLAUSES {
        let id = id(n);
        let want = Some(Inconsistent { rule, kind, id });
        let rows = spoiled(alloc, rule)?;
        assert!(rt; found(alloc, &rows)? == want, "clause {rule}");
    }
    Ok(())
}

#[test]
fn the_consistent_store_breaks_none(rt: HostRuntime) -> Result<(), Fail> {
    let alloc = rt.alloc();
    let rows = store(alloc)?;
    assert!(rt; found(alloc, &rows)?.is_none());
    Ok(())
}

#[test]
fn each_row_left_out_is_found_alike(rt: HostRuntime) -> Result<(), Fail> {
    let alloc = rt.alloc();
    let rows = store(alloc)?;
    for kind in KINDS {
        for place in 0..5 {
            let left = without(alloc, &rows, kind, place)?;
            assert!(rt; is_alike(alloc, &left)?, "{kind:?} {place}");
        }
    }
    Ok(())
}

#[test]
fn each_port_with_anothers_is_found_alike(rt: HostRuntime) -> Result<(), Fail> {
    let alloc = rt.alloc();
    let rows = store(alloc)?;
    for place in 0..5 {
        for other in 0..5 {
            for what in 0..11 {
                let changed = with_given(alloc, &rows, (place, other, what), false)?;
                assert!(rt; is_alike(alloc, &changed)?, "{place} {other} {what}");
                let added = with_given(alloc, &rows, (place, other, what), true)?;
                assert!(rt; is_alike(alloc, &added)?, "{place} {other} {what}, added");
            }
        }
    }
    Ok(())
}
