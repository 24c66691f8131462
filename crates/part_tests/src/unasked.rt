//! What no request comes to: members out of their order, a list of projects, a null that a grammar
//! doesn't have.
use api_shown::listed;
use api_types::{Answer, Caller, Kind, MemberName, Members, Printed, Query, Row, Rows, Shown};
use json_replies::write_reply;
use json_values::{GrammarName, allows};
use net_addr::{OutOfMemory, Seq, Text};
use plane_types::Reply;
use serde_json::Value;
use std::alloc::Global;
use std::test::Fail;
use test_rows::{add, project};

// Adds a member with a text.
fn add_word(
    alloc: Global,
    members: &mut Members,
    name: &'static str,
    word: &str,
) -> Result<(), OutOfMemory> {
    let word = Printed::Word(Text::of(alloc, word)?);
    members.push((MemberName::of(name), word))
}

// A network whose members come in another order than they are printed in.
fn unordered(alloc: Global) -> Result<Shown, OutOfMemory> {
    let mut members = Seq::new(alloc);
    let subnets = MemberName::of("subnets");
    members.push((subnets, Printed::Items(Vec::new(alloc))))?;
    add_word(alloc, &mut members, "name", "n1")?;
    members.push((MemberName::of("shared"), Printed::Truth(false)))?;
    add_word(alloc, &mut members, "description", "")?;
    Ok(Shown {
        kind: Kind::Network,
        members,
    })
}

#[test]
fn members_are_printed_in_order(rt: HostRuntime) -> Result<(), Fail> {
    let alloc = rt.alloc();
    let reply = Reply::Done(Answer::Created(unordered(alloc)?));
    let body = write_reply(alloc, &reply)?;
    let wanted =
        b"{\"network\":{\"description\":\"\",\"name\":\"n1\",\"shared\":false,\"subnets\":[]}}";
    assert!(rt; body.as_slice() == wanted.as_slice());
    Ok(())
}

// How many projects an administrator is listed, of one.
fn projects(alloc: Global) -> Result<usize, Fail> {
    let mut rows = Rows::empty(alloc)?;
    add(alloc, &mut rows, Row::Project(project(alloc, 1, "a")?))?;
    let caller = Caller {
        project: Text::of(alloc, "a")?,
        admin: true,
    };
    let query = Query {
        filters: Seq::new(alloc),
        limit: None,
        marker: None,
        fields: Seq::new(alloc),
    };
    match listed(alloc, &rows, &caller, Kind::Project, &query) {
        Ok(list) => Ok(list.len()),
        Err(_) => Err(Fail::new("no list")),
    }
}

#[test]
fn projects_are_not_listed(rt: HostRuntime) -> Result<(), Fail> {
    assert_eq!(rt; projects(rt.alloc())?, 0);
    Ok(())
}

// Attributes may be null beside their grammar, which has none.
#[test]
fn no_mode_is_null(rt: HostRuntime) -> Result<(), Fail> {
    let alloc = rt.alloc();
    let Ok(null) = Value::from_str(alloc, "null") else {
        return Err(Fail::new("no value"));
    };
    assert!(rt; !allows(alloc, GrammarName::AddressMode, &null)?);
    Ok(())
}
