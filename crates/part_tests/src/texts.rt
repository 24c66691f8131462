//! Texts of changes and of rows, read and written again.

use crate::text_rows::{RENAMING, SEVEN_ROWS};
use net_addr::OutOfMemory;
use std::alloc::Global;
use std::test::Fail;
use wire_text::{TextRefusal, read_change, read_rows, write_change, write_rows};

/// Whether a change is written so, and is written so again once it is read.
fn is_change(alloc: Global, text: &str) -> Result<bool, OutOfMemory> {
    match read_change(alloc, text.as_bytes()) {
        Ok(change) => Ok(write_change(alloc, &change)?.as_slice() == text.as_bytes()),
        Err(TextRefusal::BadText) => Ok(false),
        Err(TextRefusal::OutOfMemory) => Err(OutOfMemory),
    }
}

fn are_rows(alloc: Global, text: &str) -> Result<bool, OutOfMemory> {
    match read_rows(alloc, text.as_bytes()) {
        Ok(rows) => Ok(write_rows(alloc, &rows)?.as_slice() == text.as_bytes()),
        Err(TextRefusal::BadText) => Ok(false),
        Err(TextRefusal::OutOfMemory) => Err(OutOfMemory),
    }
}

/// Rows of each kind, with and without what may be null.
const ROWS: [(&str, &str); 14] = [
    ("no rows", "[]"),
    ("the first network with its project's group", SEVEN_ROWS),
    (
        "a network without a number",
        r#"[{"kind":"Network","row":{"description":"d","id":"00000001-0000-8000-8000-000000000006","name":"","project":"a","segment":{"number":null,"physical":null,"type":"Local"},"up":false}}]"#,
    ),
    (
        "a flat network",
        r#"[{"kind":"Network","row":{"description":"","id":"00000001-0000-8000-8000-000000000006","name":"","project":"a","segment":{"number":null,"physical":"physnet1","type":"Flat"},"up":true}}]"#,
    ),
    (
        "a network of a VLAN",
        r#"[{"kind":"Network","row":{"description":"","id":"00000001-0000-8000-8000-000000000006","name":"","project":"a","segment":{"number":100,"physical":"physnet1","type":"Vlan"},"up":true}}]"#,
    ),
    (
        "a subnet of version 4",
        r#"[{"kind":"Subnet","row":{"address_mode":null,"description":"","dhcp":true,"dns":["8.8.8.8","2001:db8::1"],"gateway":"10.0.0.1","host_routes":[{"destination":"10.1.0.0/16","nexthop":"10.0.0.9"}],"id":"00000001-0000-8000-8000-000000000007","name":"","network":"00000001-0000-8000-8000-000000000006","pools":[{"end":"10.0.0.254","start":"10.0.0.2"}],"prefix":"10.0.0.0/24","project":"a","ra_mode":null}}]"#,
    ),
    (
        "a subnet of version 6",
        r#"[{"kind":"Subnet","row":{"address_mode":"Slaac","description":"","dhcp":true,"dns":[],"gateway":null,"host_routes":[],"id":"00000001-0000-8000-8000-000000000007","name":"","network":"00000001-0000-8000-8000-000000000006","pools":[],"prefix":"2001:db8::/64","project":"a","ra_mode":"Stateless"}}]"#,
    ),
    (
        "a port",
        r#"[{"kind":"Port","row":{"by_admin":false,"description":"","device":"vm","fixed":[{"address":"10.0.0.3","subnet":"00000001-0000-8000-8000-000000000007"}],"groups":["00000001-0000-8000-8000-000000000001"],"host":"c1","id":"00000001-0000-8000-8000-000000000009","mac":"fa:16:3e:00:00:00","name":"p1","network":"00000001-0000-8000-8000-000000000006","owner":"compute:nova","pairs":[{"mac":"fa:16:3e:00:00:01","prefix":"10.0.0.64/26"}],"project":"a","secured":true,"up":true,"vif":"Ovs"}}]"#,
    ),
    (
        "a rule with all its parts",
        r#"[{"kind":"Rule","row":{"description":"","direction":"Ingress","ethertype":"Ipv4","group":"00000001-0000-8000-8000-000000000001","high":65535,"id":"00000001-0000-8000-8000-000000000002","low":0,"project":"a","protocol":6,"remote_group":null,"remote_prefix":"0.0.0.0/0"}}]"#,
    ),
    (
        "a router",
        r#"[{"kind":"Router","row":{"description":"","gateway":{"network":"00000001-0000-8000-8000-000000000006","port":"00000001-0000-8000-8000-000000000009","snat":false},"host":"c1","id":"00000001-0000-8000-8000-00000000000a","name":"","project":"a","routes":[],"up":true}}]"#,
    ),
    (
        "a router without gateway and host",
        r#"[{"kind":"Router","row":{"description":"","gateway":null,"host":null,"id":"00000001-0000-8000-8000-00000000000a","name":"","project":"a","routes":[{"destination":"0.0.0.0/0","nexthop":"10.0.0.1"}],"up":true}}]"#,
    ),
    (
        "a floating address that leads somewhere",
        r#"[{"kind":"Floating","row":{"address":"203.0.113.3","description":"","id":"00000001-0000-8000-8000-00000000000b","network":"00000001-0000-8000-8000-000000000006","own_port":"00000001-0000-8000-8000-00000000000c","project":"a","target":{"fixed":"10.0.0.3","port":"00000001-0000-8000-8000-000000000009","router":"00000001-0000-8000-8000-00000000000a"}}}]"#,
    ),
    (
        "a policy",
        r#"[{"kind":"Policy","row":{"action":"External","id":"00000001-0000-8000-8000-00000000000d","object":"00000001-0000-8000-8000-000000000006","project":"a","target":"*"}}]"#,
    ),
    (
        "an id with ordinal and count 0, and a text with escapes",
        r#"[{"kind":"Group","row":{"description":"\"\\\n\u0001ä","id":"00000000-0000-8000-8000-000000000000","is_default":false,"name":"","project":""}}]"#,
    ),
];

#[test]
fn rows_are_read_back(rt: HostRuntime) -> Result<(), Fail> {
    let alloc = rt.alloc();
    for (name, text) in ROWS.iter() {
        if !are_rows(alloc, *text)? {
            assert!(rt; *name == "is read back");
        }
    }
    Ok(())
}

/// Texts that are almost those of rows.
const NO_ROWS: [(&str, &str); 15] = [
    ("nothing", ""),
    ("no list", "{}"),
    ("a space", "[ ]"),
    ("something after it", "[]x"),
    (
        "an item without its kind",
        r#"[{"row":{"count":6,"name":"a","ordinal":1}}]"#,
    ),
    (
        "another kind",
        r#"[{"kind":"Network","row":{"count":6,"name":"a","ordinal":1}}]"#,
    ),
    (
        "no kind",
        r#"[{"kind":"Projects","row":{"count":6,"name":"a","ordinal":1}}]"#,
    ),
    (
        "a member too few",
        r#"[{"kind":"Project","row":{"count":6,"name":"a"}}]"#,
    ),
    (
        "a member too many",
        r#"[{"kind":"Project","row":{"count":6,"name":"a","ordinal":1,"x":1}}]"#,
    ),
    (
        "another order",
        r#"[{"kind":"Project","row":{"name":"a","count":6,"ordinal":1}}]"#,
    ),
    (
        "a number of 33 bits",
        r#"[{"kind":"Project","row":{"count":6,"name":"a","ordinal":4294967296}}]"#,
    ),
    (
        "a fraction",
        r#"[{"kind":"Project","row":{"count":6.0,"name":"a","ordinal":1}}]"#,
    ),
    (
        "an escape that isn't needed",
        r#"[{"kind":"Project","row":{"count":6,"name":"\u0061","ordinal":1}}]"#,
    ),
    (
        "a pool that ends before it begins",
        r#"[{"kind":"Subnet","row":{"address_mode":null,"description":"","dhcp":true,"dns":[],"gateway":null,"host_routes":[],"id":"00000001-0000-8000-8000-000000000007","name":"","network":"00000001-0000-8000-8000-000000000006","pools":[{"end":"10.0.0.2","start":"10.0.0.3"}],"prefix":"10.0.0.0/24","project":"a","ra_mode":null}}]"#,
    ),
    (
        "an id in upper case",
        r#"[{"kind":"Policy","row":{"action":"External","id":"00000001-0000-8000-8000-00000000000D","object":"00000001-0000-8000-8000-000000000006","project":"a","target":"*"}}]"#,
    ),
];

#[test]
fn other_texts_are_no_rows(rt: HostRuntime) -> Result<(), Fail> {
    let alloc = rt.alloc();
    for (name, text) in NO_ROWS.iter() {
        if are_rows(alloc, *text)? {
            assert!(rt; *name == "is refused");
        }
    }
    Ok(())
}

/// An item that adds a project.
const NEW_PROJECT: &str =
    r#"[{"after":{"count":0,"name":"a","ordinal":1},"before":null,"kind":"Project","place":0}]"#;

/// An item that does nothing, at the last place.
const NO_ROW: &str = r#"[{"after":null,"before":null,"kind":"Rule","place":18446744073709551615}]"#;

/// A row of another kind than its item says.
const OTHER_KIND: &str =
    r#"[{"after":{"count":0,"name":"a","ordinal":1},"before":null,"kind":"Group","place":0}]"#;

#[test]
fn changes_are_read_back(rt: HostRuntime) -> Result<(), Fail> {
    let alloc = rt.alloc();
    assert!(rt; is_change(alloc, "[]")?);
    assert!(rt; is_change(alloc, NEW_PROJECT)?);
    assert!(rt; is_change(alloc, NO_ROW)?);
    assert!(rt; is_change(alloc, RENAMING)?);
    assert!(rt; !is_change(alloc, OTHER_KIND)?);
    assert!(rt; !is_change(alloc, "null")?);
    Ok(())
}
