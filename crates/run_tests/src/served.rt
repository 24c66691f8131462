//! Runs that serve connections.

use crate::desk::Connection;
use crate::outcome::{NOTHING, Outcome, run_over};
use crate::requests::{MADE, MAKE};
use net_addr::OutOfMemory;
use std::alloc::Global;
use std::test::Fail;

// The network that was made on an earlier connection is shown.
const SHOW: &[u8] = b"GET /v2.0/networks/00000001-0000-8000-8000-000000000006 HTTP/1.1\r\n\
        X-Project-Id: a\r\n\r\n";

const SHOWN: &[u8] =
    b"HTTP/1.1 200 OK\r\nContent-Type: application/json\r\nContent-Length: 211\r\n\r\n\
        {\"network\":{\"admin_state_up\":true,\"description\":\"\",\
        \"id\":\"00000001-0000-8000-8000-000000000006\",\"name\":\"n1\",\"project_id\":\"a\",\
        \"router:external\":false,\"shared\":false,\"status\":\"ACTIVE\",\"subnets\":[],\
        \"tenant_id\":\"a\"}}";

// Arguments, the connections to come, what the desk is asked for, and what is written to the
// connections.
struct Case {
    name: &'static str,
    words: &'static [&'static str],
    connections: &'static [Connection],
    asks: &'static str,
    replies: &'static [&'static [u8]],
}

const CASES: [Case; 4] = [
    Case {
        name: "two connections over one world; the third isn't asked for",
        words: &["serve", "--listen", "x", "--connections", "2"],
        connections: &[(MAKE, &[]), (SHOW, &[]), (SHOW, &[])],
        asks: "rows listen next next",
        replies: &[MADE, SHOWN],
    },
    Case {
        name: "none is left: that is asked, and told",
        words: &["serve", "--listen", "x", "--connections", "9"],
        connections: &[(MAKE, &[]), (SHOW, &[]), (SHOW, &[])],
        asks: "rows listen next next next next",
        replies: &[MADE, SHOWN, SHOWN],
    },
    // The request before it, which 14 reads of 7 bytes give, is answered, and the next connection
    // is served over what it made.
    Case {
        name: "a failing read ends its connection alone",
        words: &["serve", "--listen=x", "--connections=2"],
        connections: &[(MAKE, &[15]), (SHOW, &[]), (SHOW, &[])],
        asks: "rows listen next next",
        replies: &[MADE, SHOWN],
    },
    Case {
        name: "no connection; listening comes after the store",
        words: &["serve", "--listen=x", "--connections=1"],
        connections: &[],
        asks: "rows listen next",
        replies: &[],
    },
];

// Whether the connections were served as the case says, and neither was the input read nor the
// output written.
fn is_served(outcome: &Outcome, case: &Case) -> bool {
    let replies = outcome.replies.iter().map(|reply| reply.as_slice());
    outcome.status == 0
        && outcome.asks.as_str() == case.asks
        && replies.eq(case.replies.iter().copied())
        && outcome.written.is_empty()
        && outcome.left == MAKE.len()
}

fn serves(alloc: Global, case: &Case) -> Result<bool, OutOfMemory> {
    let connections = case.connections;
    let outcome = run_over(alloc, case.words, NOTHING, connections, MAKE, 100_000)?;
    Ok(is_served(&outcome, case))
}

#[test]
fn connections_are_served(rt: HostRuntime) -> Result<(), Fail> {
    let alloc = rt.alloc();
    for case in &CASES {
        assert!(rt; serves(alloc, case)?, "{}", case.name);
    }
    Ok(())
}
