//! A change that the store fails to keep leaves rows, version, tables and entries as they were.
use crate::outcome::{Failing, Outcome, run_alone};
use crate::requests::{NOT_KEPT, joined};
use net_addr::OutOfMemory;
use std::alloc::Global;
use std::test::Fail;

// An administrator makes a network, a port on c1 that may send from 10.0.0.7, and a second one.
const MAKES: &[u8] = b"POST /v2.0/networks HTTP/1.1\r\nX-Project-Id: adm\r\nX-Roles: admin\r\n\
        Content-Length: 14\r\n\r\n\
        {\"network\":{}}\
        POST /v2.0/ports HTTP/1.1\r\nX-Project-Id: adm\r\nX-Roles: admin\r\n\
        Content-Length: 171\r\n\r\n\
        {\"port\":{\"allowed_address_pairs\":[{\"ip_address\":\"10.0.0.7\"}],\
        \"binding:host_id\":\"c1\",\"mac_address\":\"02:00:00:00:00:07\",\
        \"network_id\":\"00000001-0000-8000-8000-000000000006\"}}\
        POST /v2.0/ports HTTP/1.1\r\nX-Project-Id: adm\r\nX-Roles: admin\r\n\
        Content-Length: 149\r\n\r\n\
        {\"port\":{\"binding:host_id\":\"c1\",\"mac_address\":\"02:00:00:00:00:08\",\
        \"network_id\":\"00000001-0000-8000-8000-000000000006\",\
        \"port_security_enabled\":false}}";

// The first port sends to the second.
const SEND: &[u8] = b"POST /lab/v1/frames HTTP/1.1\r\nX-Project-Id: adm\r\nX-Roles: admin\r\n\
        Content-Length: 215\r\n\r\n\
        {\"event\":{\"frame\":{\"kind\":\"ip4\",\"src\":\"02:00:00:00:00:07\",\
        \"dst\":\"02:00:00:00:00:08\",\"from\":\"10.0.0.7\",\"to\":\"10.0.0.8\",\"ttl\":64,\
        \"proto\":\"udp\",\"sport\":1000,\"dport\":2000},\
        \"port\":\"00000001-0000-8000-8000-000000000007\"}}";

// The hosts, the tables of c1, the networks and the ports are shown.
const LOOK: &[u8] = b"GET /lab/v1/hosts HTTP/1.1\r\nX-Project-Id: adm\r\nX-Roles: admin\r\n\r\n\
        GET /lab/v1/hosts/c1/tables HTTP/1.1\r\nX-Project-Id: adm\r\nX-Roles: admin\r\n\r\n\
        GET /v2.0/networks HTTP/1.1\r\nX-Project-Id: adm\r\nX-Roles: admin\r\n\r\n\
        GET /v2.0/ports HTTP/1.1\r\nX-Project-Id: adm\r\nX-Roles: admin\r\n\r\n";

// The first port goes.
const DELETE: &[u8] = b"DELETE /v2.0/ports/00000001-0000-8000-8000-000000000007 HTTP/1.1\r\n\
        X-Project-Id: adm\r\nX-Roles: admin\r\n\r\n";

// Both hosts hold the three changes.
const HELD: &[u8] = b"HTTP/1.1 200 OK\r\nContent-Type: application/json\r\n\
        Content-Length: 57\r\n\r\n\
        {\"hosts\":[{\"held\":3,\"name\":\"c1\"},{\"held\":3,\"name\":\"c2\"}]}";

// The frame comes to the second port, and its entry was there.
const SENT: &[u8] = b"HTTP/1.1 200 OK\r\nContent-Type: application/json\r\n\
        Content-Length: 339\r\n\r\n\
        {\"verdict\":{\"fresh\":[],\"outcome\":{\"frame\":{\"dport\":2000,\
        \"dst\":\"02:00:00:00:00:08\",\"from\":\"10.0.0.7\",\"kind\":\"ip4\",\
        \"proto\":\"udp\",\"sport\":1000,\"src\":\"02:00:00:00:00:07\",\"to\":\"10.0.0.8\",\
        \"ttl\":64},\"kind\":\"Delivered\",\
        \"port\":\"00000001-0000-8000-8000-000000000008\"},\
        \"path\":[\"00000001-0000-8000-8000-000000000006\"],\"trail\":[{\"host\":\"c1\",\
        \"tag\":1}]}}";

const FIRST: &[&[u8]] = &[MAKES, SEND];

const SEEN: &[&[u8]] = &[MAKES, SEND, LOOK, SEND];

const SEEN_AGAIN: &[&[u8]] = &[MAKES, SEND, LOOK, SEND, DELETE, LOOK, SEND];

// A session over these requests where the store fails in its fifth call, which is that of the
// fourth change.
fn run_session(alloc: Global, requests: &[&[u8]]) -> Result<Outcome, OutOfMemory> {
    let requests = joined(alloc, requests)?;
    let failing: Failing = [&[], &[5], &[], &[]];
    run_alone(alloc, &["session"], failing, requests.as_slice(), 100_000)
}

// Whether what is seen after the first replies is as wanted, and is seen again after a change that
// isn't kept.
fn is_unchanged(
    alloc: Global,
    first: &Outcome,
    seen: &Outcome,
    again: &Outcome,
) -> Result<bool, OutOfMemory> {
    let seen = seen.written.as_slice();
    let Some(look) = seen.strip_prefix(first.written.as_slice()) else {
        return Ok(false);
    };
    let wanted = joined(alloc, &[seen, NOT_KEPT, look])?;
    let is_seen = look.starts_with(HELD) && look.ends_with(SENT);
    Ok(is_seen && again.written.as_slice() == wanted.as_slice())
}

#[test]
fn a_change_that_is_not_kept(rt: HostRuntime) -> Result<(), Fail> {
    let alloc = rt.alloc();
    let first = run_session(alloc, FIRST)?;
    // the first frame made an entry
    assert!(rt; !first.written.as_slice().ends_with(SENT));
    let seen = run_session(alloc, SEEN)?;
    let again = run_session(alloc, SEEN_AGAIN)?;
    assert!(rt; is_unchanged(alloc, &first, &seen, &again)?);
    Ok(())
}
