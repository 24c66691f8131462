//! Networks in the store.

ghost use Rattle.std.specs.Prelude.{◌≡◌, OnOk};
ghost use Rattle.keeper_sql.specs.Whole.{CommitsNothing, Runs};

use crate::column::{bytes_at, flag_at, id_at, text_if};
use crate::names::{Names, names_at};
use crate::statement::execute;
use crate::stored::Stored;
use crate::trouble::Trouble;
use api_types::{NetworkRow, Segment};
use net_addr::Text;
use sqlite::types::{ToSql, ValueRef};
use sqlite::{Alter, Row, Transaction};
use std::alloc::Global;

const UPSERT: &str = "INSERT INTO networks (id, project_id, name, description, admin_state_up,
    network_type, physical_network, segmentation_id) VALUES (?1, ?2, ?3, ?4, ?5, ?6, ?7, ?8)
    ON CONFLICT (id) DO UPDATE SET project_id = excluded.project_id, name = excluded.name,
    description = excluded.description, admin_state_up = excluded.admin_state_up,
    network_type = excluded.network_type, physical_network = excluded.physical_network,
    segmentation_id = excluded.segmentation_id";

/// Deletes the row with an id.
pub(crate) const DELETE: &str = "DELETE FROM networks WHERE id = ?1";

// The segment's columns: type, physical network and number.
fn parts(segment: &Segment) -> (&'static str, Option<&str>, Option<u32>) {
    match segment {
        Segment::Local => ("local", None, None),
        Segment::Flat { physical } => ("flat", Some(physical.as_str()), None),
        Segment::Vlan { physical, tag } => {
            ("vlan", Some(physical.as_str()), Some(u32::from(*tag)))
        }
        Segment::Vxlan { number } => ("vxlan", None, Some(*number)),
    }
}

// The columns' values.
fn values<'r>(row: &'r NetworkRow, id: &'r Text) -> [ValueRef<'r>; 8] {
    let (kind, physical, number) = parts(&row.segment);
    [
        id.as_str().to_sql(),
        row.project.as_str().to_sql(),
        row.name.as_str().to_sql(),
        row.description.as_str().to_sql(),
        row.up.to_sql(),
        kind.to_sql(),
        physical.to_sql(),
        number.to_sql(),
    ]
}

/// Replaces the row with its id, or adds it last.
pub(crate) fn write<S: Alter>(
    alloc: Global,
    to: &mut Transaction<'_, S>,
    row: &NetworkRow,
) -> Result<(), Trouble>
    ensures same_reference { to.new.conn.ghost_name ≡ to.old.conn.ghost_name }
    ensures inside { CommitsNothing S.Store to.old.conn.now to.new.conn.now }
    ensures ran { OnOk result (Runs S.Store to.old.conn.now to.new.conn.now) }
{
    let id = row.id.print(alloc)?;
    execute(to, UPSERT, &values(row, &id))
}

fn tag_of(number: u32) -> Result<u16, Trouble> {
    match u16::try_from(number) {
        Ok(tag) => Ok(tag),
        Err(_) => Err(Trouble::Fault),
    }
}

// The segment, if its type is spelled by this word.
fn spelled_by(word: &[u8], kind: &[u8], segment: Segment) -> Result<Segment, Trouble> {
    if kind == word {
        Ok(segment)
    } else {
        Err(Trouble::Fault)
    }
}

// What other columns a segment has tells its type.
fn segment_of(
    kind: &[u8],
    physical: Option<Text>,
    number: Option<u32>,
) -> Result<Segment, Trouble> {
    match (physical, number) {
        (None, None) => spelled_by(b"local".as_slice(), kind, Segment::Local),
        (Some(physical), None) => spelled_by(b"flat".as_slice(), kind, Segment::Flat { physical }),
        (Some(physical), Some(number)) => {
            let tag = tag_of(number)?;
            spelled_by(b"vlan".as_slice(), kind, Segment::Vlan { physical, tag })
        }
        (None, Some(number)) => spelled_by(b"vxlan".as_slice(), kind, Segment::Vxlan { number }),
    }
}

fn segment_at(row: &Row, number: Option<u32>) -> Result<Segment, Trouble> {
    let kind = bytes_at(row, 5)?;
    let physical = text_if(row, 6)?;
    segment_of(kind, physical, number)
}

impl Stored for NetworkRow {
    fn select() -> &'static str {
        "SELECT id, project_id, name, description, admin_state_up, network_type,
            physical_network, segmentation_id FROM networks ORDER BY place"
    }

    fn read(_alloc: Global, row: &Row) -> Result<NetworkRow, Trouble> {
        let id = id_at(row, 0)?;
        let up = flag_at(row, 4)?;
        let number: Option<u32> = row.get(7)?;
        let names = names_at(row, 2, 3)?;
        let segment = segment_at(row, number)?;
        let Names {
            project,
            name,
            description,
        } = names;
        Ok(NetworkRow {
            id,
            project,
            name,
            description,
            up,
            segment,
        })
    }
}
