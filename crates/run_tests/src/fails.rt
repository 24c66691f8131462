//! Runs in which one call of the outside fails.
ghost use Rattle.std.specs.Prelude.{◌<◌};

use crate::outcome::{Failing, comes_to};
use crate::requests::{MADE, MAKE, NOT_KEPT};
use net_addr::OutOfMemory;
use std::alloc::Global;
use std::test::Fail;

// The network is made once more.
const MADE_NEXT: &[u8] =
    b"HTTP/1.1 201 Created\r\nContent-Type: application/json\r\nContent-Length: 211\r\n\r\n\
        {\"network\":{\"admin_state_up\":true,\"description\":\"\",\
        \"id\":\"00000001-0000-8000-8000-000000000007\",\"name\":\"n1\",\"project_id\":\"a\",\
        \"router:external\":false,\"shared\":false,\"status\":\"ACTIVE\",\"subnets\":[],\
        \"tenant_id\":\"a\"}}";

const SESSION: &[&str] = &["session", "--settings=good"];

const SERVE: &[&str] = &["serve", "--listen=x", "--connections=2"];

const ONCE: &[&[u8]] = &[MAKE];

const THRICE: &[&[u8]] = &[MAKE, MAKE, MAKE];

// What fails, the arguments, the calls that fail, the requests, the status, and the replies that
// are written.
type Case = (
    &'static str,
    &'static [&'static str],
    Failing,
    &'static [&'static [u8]],
    u8,
    &'static [&'static [u8]],
);

const BAD_SESSION: &[&str] = &["session", "--settings=bad"];

const CASES: [Case; 15] = [
    ("the settings", SESSION, [&[1], &[], &[], &[]], ONCE, 7, &[]),
    (
        "a store by its desk",
        SESSION,
        [&[2], &[], &[], &[]],
        ONCE,
        7,
        &[],
    ),
    (
        "a store that bad settings come before",
        BAD_SESSION,
        [&[2], &[], &[], &[]],
        ONCE,
        5,
        &[],
    ),
    ("listening", SERVE, [&[2], &[], &[], &[]], ONCE, 7, &[]),
    (
        "a connection by its desk",
        SERVE,
        [&[3], &[], &[], &[]],
        ONCE,
        7,
        &[],
    ),
    (
        "a store's load",
        SESSION,
        [&[], &[1], &[], &[]],
        ONCE,
        7,
        &[],
    ),
    (
        "the first change",
        SESSION,
        [&[], &[2], &[], &[]],
        ONCE,
        0,
        &[NOT_KEPT],
    ),
    (
        "the second change",
        SESSION,
        [&[], &[3], &[], &[]],
        THRICE,
        0,
        &[MADE, NOT_KEPT, MADE_NEXT],
    ),
    (
        "the first read",
        SESSION,
        [&[], &[], &[1], &[]],
        ONCE,
        2,
        &[],
    ),
    (
        "a read after a whole request",
        SESSION,
        [&[], &[], &[2], &[]],
        ONCE,
        2,
        &[MADE],
    ),
    // The reply was flushed before.
    (
        "such a read, and then each write and flush",
        SESSION,
        [&[], &[], &[2], &[3, 4, 5]],
        ONCE,
        2,
        &[MADE],
    ),
    (
        "the first write",
        SESSION,
        [&[], &[], &[], &[1]],
        ONCE,
        3,
        &[],
    ),
    (
        "the first flush",
        SESSION,
        [&[], &[], &[], &[2]],
        ONCE,
        3,
        &[MADE],
    ),
    (
        "the third write",
        SESSION,
        [&[], &[], &[], &[5]],
        THRICE,
        3,
        &[MADE, MADE_NEXT],
    ),
    (
        "what a drill writes",
        &["drill", "7", "1"],
        [&[], &[], &[], &[1]],
        ONCE,
        3,
        &[],
    ),
];

// Of a slow input, four reads of 31 bytes give the first request, and the fifth fails.
const FIFTH_READ: Case = (
    "the fifth read of a slow input",
    SESSION,
    [&[], &[], &[5], &[]],
    THRICE,
    2,
    &[MADE],
);

// Whether a run is as the case says, over an input of which one read gives this many bytes.
fn fails(alloc: Global, case: &Case, piece: usize) -> Result<bool, OutOfMemory>
    requires { 0 < piece }
{
    let (_, words, failing, requests, status, replies) = *case;
    comes_to(alloc, words, failing, requests, piece, status, replies)
}

#[test]
fn one_call_fails(rt: HostRuntime) -> Result<(), Fail> {
    let alloc = rt.alloc();
    for case in &CASES {
        assert!(rt; fails(alloc, case, 100_000)?, "{}", case.0);
    }
    assert!(rt; fails(alloc, &FIFTH_READ, 31)?);
    Ok(())
}
