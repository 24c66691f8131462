//! The stream.

ghost use Rattle.std.specs.Prelude.{◌≡◌, ◌+◌, ◌%◌, ◌++◌, ◌<◌, ◌≤◌, IfOk, OnOk, min};
ghost use Rattle.drill_gen.specs.Draws.{drawn, state_after, state_behind};
ghost use Rattle.drill_gen.specs.Stream.{frame_request as frame_request_of, frame_requests, host_by, network_requests as network_requests_of, port_request as port_request_of, port_requests, stream};

use crate::bodies::{NETWORK_BODY, frame_body, port_body, subnet_body};
use crate::draws::draw;
use crate::request::request;
use net_addr::{Bytes, OutOfMemory};
use std::alloc::Global;

// The most ports between which frames go.
const MOST_PORTS: u32 = 499;

fn host_of(number: u64) -> &'static str
    ensures { result.now ≡ host_by number }
{
    if number % 2 == 0 { "c1" } else { "c2" }
}

fn port_request(alloc: Global, number: u64) -> Result<Vec<u8>, OutOfMemory>
    ensures { IfOk result (λ v. v.items ≡ port_request_of number) }
{
    let body = port_body(alloc, host_of(number))?;
    request(alloc, "/v2.0/ports", body.as_str())
}

// The number of one of this many ports.
fn port_among(ports: u32, number: u64) -> u32
    requires some { 0 < ports }
    requires few { ports ≤ 10000 }
    ensures { result ≡ 1 + number % ports }
{
    1 + (number % u64::from(ports)) as u32
}

fn frame_request(
    alloc: Global,
    ports: u32,
    from: u64,
    to: u64,
    sport: u64,
) -> Result<Vec<u8>, OutOfMemory>
    requires some { 0 < ports }
    requires few { ports ≤ 10000 }
    ensures { IfOk result (λ v. v.items ≡ frame_request_of ports from to sport) }
{
    let from = port_among(ports, from);
    let to = port_among(ports, to);
    let body = frame_body(alloc, from, to, 1024 + sport % 60_000)?;
    request(alloc, "/lab/v1/frames", body.as_str())
}

// Adds a request for each port, and tells the state that is left.
fn add_ports(alloc: Global, bytes: &mut Vec<u8>, size: u32, start: u64) -> Result<u64, OutOfMemory>
    ensures added { OnOk result (bytes.new.items ≡ bytes.old.items ++ port_requests size start) }
    ensures state { IfOk result (λ s. s ≡ state_behind size start) }
{
    let mut state = start;
    for _port in 0..size {
        let number = draw(&mut state);
        let asked = port_request(alloc, number)?;
        bytes.extend_from_slice(asked.as_slice())?;
    }
    Ok(state)
}

// Adds a request for each frame between this many ports.
fn add_frames(
    alloc: Global,
    bytes: &mut Vec<u8>,
    ports: u32,
    size: u32,
    start: u64,
) -> Result<(), OutOfMemory>
    requires some { 0 < size → 0 < ports }
    requires few { ports ≤ 10000 }
    ensures { OnOk result
        (bytes.new.items ≡ bytes.old.items ++ frame_requests ports size start) }
{
    let mut state = start;
    for _frame in 0..size {
        let from = draw(&mut state);
        let to = draw(&mut state);
        let sport = draw(&mut state);
        let asked = frame_request(alloc, ports, from, to, sport)?;
        bytes.extend_from_slice(asked.as_slice())?;
    }
    Ok(())
}

// The requests for a network and a subnet of it.
fn network_requests(alloc: Global) -> Result<Vec<u8>, OutOfMemory>
    ensures { IfOk result (λ v. v.items ≡ network_requests_of) }
{
    let subnet = subnet_body(alloc)?;
    let second = request(alloc, "/v2.0/subnets", subnet.as_str())?;
    let mut bytes = request(alloc, "/v2.0/networks", NETWORK_BODY)?;
    bytes.extend_from_slice(second.as_slice())?;
    Ok(bytes)
}

/// The requests of a drill: a network, a subnet of it, `size` ports of it and `size` events of
/// frames between the first 499 of them at most. `start` is the state at which the draws start.
/// They are some 480 bytes for each of the size; the cost and the memory grow with it. Want of
/// memory is the only refusal.
pub fn drill(alloc: Global, start: u64, size: u32) -> Result<Bytes, OutOfMemory>
    ensures { IfOk result (λ b. b ≡ stream start size) }
{
    let mut bytes = network_requests(alloc)?;
    let state = add_ports(alloc, &mut bytes, size, start)?;
    add_frames(alloc, &mut bytes, size.min(MOST_PORTS), size, state)?;
    Ok(Bytes::from_vec(bytes))
}
