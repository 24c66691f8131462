//! Requests and refusals in pieces of 1, 7 and all bytes. What whole requests come to is in the
//! streams of tests/corpus.
ghost use Rattle.std.specs.Prelude.{◌<◌};

use crate::outcome::{NOTHING, comes_to};
use net_addr::OutOfMemory;
use std::alloc::Global;
use std::test::Fail;

/// An input, and what is written to it.
type Exchange = (&'static [u8], &'static [u8]);

// A project makes a network, and another one doesn't see it.
const MADE_AND_UNSEEN: Exchange = (
    b"POST /v2.0/networks HTTP/1.1\r\nX-Project-Id: a\r\nContent-Length: 25\r\n\r\n\
        {\"network\":{\"name\":\"n1\"}}\
        GET /v2.0/networks/00000001-0000-8000-8000-000000000006 HTTP/1.1\r\n\
        X-Project-Id: b\r\n\r\n",
    b"HTTP/1.1 201 Created\r\nContent-Type: application/json\r\nContent-Length: 211\r\n\r\n\
        {\"network\":{\"admin_state_up\":true,\"description\":\"\",\
        \"id\":\"00000001-0000-8000-8000-000000000006\",\"name\":\"n1\",\
        \"project_id\":\"a\",\"router:external\":false,\"shared\":false,\
        \"status\":\"ACTIVE\",\"subnets\":[],\"tenant_id\":\"a\"}}\
        HTTP/1.1 404 Not Found\r\nContent-Type: application/json\r\nContent-Length: 132\r\n\
        \r\n{\"NeutronError\":{\"detail\":\"\",\
        \"message\":\"Network 00000001-0000-8000-8000-000000000006 could not be found.\",\
        \"type\":\"NetworkNotFound\"}}",
);

const IN_PIECES: [Exchange; 6] = [
    MADE_AND_UNSEEN,
    // No input.
    (b"", b""),
    // An input that ends in a head.
    (
        b"GET /v2.0/net",
        b"HTTP/1.1 400 Bad Request\r\nContent-Type: application/json\r\nContent-Length: 99\r\n\
            Connection: close\r\n\r\n\
            {\"NeutronError\":{\"detail\":\"\",\"message\":\"The request could not be read.\",\
            \"type\":\"MalformedRequest\"}}",
    ),
    // No such path, and a body that isn't read.
    (
        b"POST /v2.0/nets HTTP/1.1\r\nX-Project-Id: a\r\nContent-Length: 25\r\n\r\n\
            {\"network\":{\"name\":\"n1\"}}",
        b"HTTP/1.1 404 Not Found\r\nContent-Type: application/json\r\nContent-Length: 97\r\n\r\n\
            {\"NeutronError\":{\"detail\":\"\",\"message\":\"The resource could not be found.\",\
            \"type\":\"HTTPNotFound\"}}",
    ),
    // A body that is too large. Nothing after it is answered.
    (
        b"POST /v2.0/networks HTTP/1.1\r\nContent-Length: 65537\r\n\r\n\
            POST /v2.0/networks HTTP/1.1\r\nX-Project-Id: a\r\nContent-Length: 25\r\n\r\n\
            {\"network\":{\"name\":\"n1\"}}",
        b"HTTP/1.1 413 Payload Too Large\r\nContent-Type: application/json\r\n\
            Content-Length: 109\r\nConnection: close\r\n\r\n\
            {\"NeutronError\":{\"detail\":\"\",\
            \"message\":\"The request body is larger than 65536 bytes.\",\
            \"type\":\"BodyTooLarge\"}}",
    ),
    // A body one byte short.
    (
        b"POST /v2.0/networks HTTP/1.1\r\nX-Project-Id: a\r\nContent-Length: 25\r\n\r\n\
            {\"network\":{\"name\":\"n1\"}",
        b"HTTP/1.1 400 Bad Request\r\nContent-Type: application/json\r\nContent-Length: 99\r\n\
            Connection: close\r\n\r\n\
            {\"NeutronError\":{\"detail\":\"\",\"message\":\"The request could not be read.\",\
            \"type\":\"MalformedRequest\"}}",
    ),
];

// Whether a session over the input, of which one read gives this many bytes, writes what is wanted
// and is done.
fn is_answered(alloc: Global, exchange: Exchange, piece: usize) -> Result<bool, OutOfMemory>
    requires { 0 < piece }
{
    let (input, wanted) = exchange;
    comes_to(alloc, &["session"], NOTHING, &[input], piece, 0, &[wanted])
}

#[test]
fn pieces(rt: HostRuntime) -> Result<(), Fail> {
    let alloc = rt.alloc();
    for exchange in IN_PIECES {
        assert!(rt; is_answered(alloc, exchange, 1)?);
        assert!(rt; is_answered(alloc, exchange, 7)?);
        assert!(rt; is_answered(alloc, exchange, 100_000)?);
    }
    Ok(())
}
