//! Rules of security groups in the store.

ghost use Rattle.std.specs.Prelude.{◌≡◌, OnOk};
ghost use Rattle.keeper_sql.specs.Whole.{CommitsNothing, Runs};

use crate::column::{byte_if, bytes_at, id_at, id_if, prefix_if, short_if, text_at};
use crate::statement::execute;
use crate::stored::Stored;
use crate::trouble::Trouble;
use api_types::{Direction, Ethertype, Id, RuleRow};
use net_addr::{OutOfMemory, Prefix, Text};
use sqlite::types::{ToSql, ValueRef};
use sqlite::{Alter, Row, Transaction};
use std::alloc::Global;

const UPSERT: &str = "INSERT INTO security_group_rules (id, project_id, security_group_id,
    description, direction, ethertype, protocol, port_range_min, port_range_max, remote_ip_prefix,
    remote_group_id)
    VALUES (?1, ?2, ?3, ?4, ?5, ?6, ?7, ?8, ?9, ?10, ?11)
    ON CONFLICT (id) DO UPDATE SET project_id = excluded.project_id,
    security_group_id = excluded.security_group_id, description = excluded.description,
    direction = excluded.direction, ethertype = excluded.ethertype, protocol = excluded.protocol,
    port_range_min = excluded.port_range_min, port_range_max = excluded.port_range_max,
    remote_ip_prefix = excluded.remote_ip_prefix, remote_group_id = excluded.remote_group_id";

/// Deletes the row with an id.
pub(crate) const DELETE: &str = "DELETE FROM security_group_rules WHERE id = ?1";

fn direction_word(direction: Direction) -> &'static str {
    match direction {
        Direction::Ingress => "ingress",
        Direction::Egress => "egress",
    }
}

// A direction.
fn direction_at(row: &Row, at: usize) -> Result<Direction, Trouble> {
    let word = bytes_at(row, at)?;
    if word == b"ingress".as_slice() {
        Ok(Direction::Ingress)
    } else if word == b"egress".as_slice() {
        Ok(Direction::Egress)
    } else {
        Err(Trouble::Fault)
    }
}

fn ethertype_word(ethertype: Ethertype) -> &'static str {
    match ethertype {
        Ethertype::Ipv4 => "IPv4",
        Ethertype::Ipv6 => "IPv6",
    }
}

// A version of IP.
fn ethertype_at(row: &Row, at: usize) -> Result<Ethertype, Trouble> {
    let word = bytes_at(row, at)?;
    if word == b"IPv4".as_slice() {
        Ok(Ethertype::Ipv4)
    } else if word == b"IPv6".as_slice() {
        Ok(Ethertype::Ipv6)
    } else {
        Err(Trouble::Fault)
    }
}

fn prefix_text(alloc: Global, prefix: Option<Prefix>) -> Result<Option<Text>, OutOfMemory> {
    match prefix {
        Some(prefix) => Ok(Some(prefix.print(alloc)?)),
        None => Ok(None),
    }
}

/// An id's text, where there is one.
pub(crate) fn id_text(alloc: Global, id: Option<Id>) -> Result<Option<Text>, OutOfMemory> {
    match id {
        Some(id) => Ok(Some(id.print(alloc)?)),
        None => Ok(None),
    }
}

// The columns that are printed.
#[derive(Drop)]
struct RuleTexts {
    id: Text,
    group: Text,
    prefix: Option<Text>,
    remote: Option<Text>,
}

fn rule_texts(alloc: Global, row: &RuleRow) -> Result<RuleTexts, OutOfMemory> {
    Ok(RuleTexts {
        id: row.id.print(alloc)?,
        group: row.group.print(alloc)?,
        prefix: prefix_text(alloc, row.remote_prefix)?,
        remote: id_text(alloc, row.remote_group)?,
    })
}

// The columns' values.
fn values<'r>(row: &'r RuleRow, texts: &'r RuleTexts) -> [ValueRef<'r>; 11] {
    [
        texts.id.as_str().to_sql(),
        row.project.as_str().to_sql(),
        texts.group.as_str().to_sql(),
        row.description.as_str().to_sql(),
        direction_word(row.direction).to_sql(),
        ethertype_word(row.ethertype).to_sql(),
        row.protocol.map(u32::from).to_sql(),
        row.low.map(u32::from).to_sql(),
        row.high.map(u32::from).to_sql(),
        texts.prefix.as_ref().map(Text::as_str).to_sql(),
        texts.remote.as_ref().map(Text::as_str).to_sql(),
    ]
}

/// Replaces the row with its id, or adds it last.
pub(crate) fn write<S: Alter>(
    alloc: Global,
    to: &mut Transaction<'_, S>,
    row: &RuleRow,
) -> Result<(), Trouble>
    ensures same_reference { to.new.conn.ghost_name ≡ to.old.conn.ghost_name }
    ensures inside { CommitsNothing S.Store to.old.conn.now to.new.conn.now }
    ensures ran { OnOk result (Runs S.Store to.old.conn.now to.new.conn.now) }
{
    let texts = rule_texts(alloc, row)?;
    execute(to, UPSERT, &values(row, &texts))
}

/// The columns of a rule that are the same in each format and own no memory.
#[derive(Clone, Copy)]
pub(crate) struct RuleFacts {
    pub id: Id,
    pub group: Id,
    pub direction: Direction,
    pub ethertype: Ethertype,
    pub protocol: Option<u8>,
    pub low: Option<u16>,
    pub high: Option<u16>,
    pub remote_group: Option<Id>,
}

/// What these columns spell.
pub(crate) fn facts_at(row: &Row) -> Result<RuleFacts, Trouble> {
    Ok(RuleFacts {
        id: id_at(row, 0)?,
        group: id_at(row, 2)?,
        direction: direction_at(row, 4)?,
        ethertype: ethertype_at(row, 5)?,
        protocol: byte_if(row, 6)?,
        low: short_if(row, 7)?,
        high: short_if(row, 8)?,
        remote_group: id_if(row, 10)?,
    })
}

impl Stored for RuleRow {
    fn select() -> &'static str {
        "SELECT id, project_id, security_group_id, description, direction, ethertype, protocol,
            port_range_min, port_range_max, remote_ip_prefix, remote_group_id
        FROM security_group_rules ORDER BY place"
    }

    fn read(_alloc: Global, row: &Row) -> Result<RuleRow, Trouble> {
        let facts = facts_at(row)?;
        let remote_prefix = prefix_if(row, 9)?;
        let project = text_at(row, 1)?;
        let description = text_at(row, 3)?;
        Ok(RuleRow {
            id: facts.id,
            project,
            group: facts.group,
            description,
            direction: facts.direction,
            ethertype: facts.ethertype,
            protocol: facts.protocol,
            low: facts.low,
            high: facts.high,
            remote_prefix,
            remote_group: facts.remote_group,
        })
    }
}
