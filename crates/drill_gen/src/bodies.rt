//! Bodies of requests.

ghost use Rattle.std.specs.Prelude.{◌≡◌, ◌≤◌, IfOk, string_bytes};
ghost use Rattle.drill_gen.specs.Stream.{frame_body as frame_body_of, frame_front as frame_front_of, id_at as id_with, port_address as address_of, port_body as port_body_of, port_id as port_id_of, port_mac as mac_of, subnet_body as the_subnet};

use api_types::Id;
use net_addr::{Addr4, Mac, OutOfMemory, Text};
use std::alloc::Global;

pub(crate) const NETWORK_BODY: &str = "{\"network\":{}}";

// The count of the network's id.
const NETWORK: u64 = 6;

// An id of the project, which is the first one.
fn id_at(alloc: Global, count: u64) -> Result<Text, OutOfMemory>
    requires { count ≤ 10008 }
    ensures { IfOk result (λ t. t ≡ id_with count) }
{
    Id::make(1, count).print(alloc)
}

fn port_id(alloc: Global, port: u32) -> Result<Text, OutOfMemory>
    requires { port ≤ 10000 }
    ensures { IfOk result (λ t. t ≡ port_id_of port) }
{
    id_at(alloc, 8 + u64::from(port))
}

fn port_mac(alloc: Global, port: u32) -> Result<Text, OutOfMemory>
    requires { port ≤ 10000 }
    ensures { IfOk result (λ t. t ≡ mac_of port) }
{
    Mac(0xfa16_3e00_0000 + u64::from(port)).print(alloc)
}

fn port_address(alloc: Global, port: u32) -> Result<Text, OutOfMemory>
    requires { port ≤ 10000 }
    ensures { IfOk result (λ t. t ≡ address_of port) }
{
    Addr4(0x0a00_0002 + port).print(alloc)
}

/// A subnet of the network.
pub(crate) fn subnet_body(alloc: Global) -> Result<String, OutOfMemory>
    ensures { IfOk result (λ s. string_bytes s ≡ the_subnet) }
{
    let network = id_at(alloc, NETWORK)?;
    let mut body = String::new(alloc);
    body.push_str("{\"subnet\":{\"cidr\":\"10.0.0.0/16\",\"ip_version\":4,\"network_id\":\"")?;
    body.push_str(network.as_str())?;
    body.push_str("\"}}")?;
    Ok(body)
}

/// A port of the network on a host.
pub(crate) fn port_body(alloc: Global, host: &str) -> Result<String, OutOfMemory>
    ensures { IfOk result (λ s. string_bytes s ≡ port_body_of host.now) }
{
    let network = id_at(alloc, NETWORK)?;
    let mut body = String::new(alloc);
    body.push_str("{\"port\":{\"binding:host_id\":\"")?;
    body.push_str(host)?;
    body.push_str("\",\"network_id\":\"")?;
    body.push_str(network.as_str())?;
    body.push_str("\"}}")?;
    Ok(body)
}

// The front of a frame's event, up to the port that it is sent from.
#[tactic(auto, unfolding(crate::specs::Stream::frame_front))]
fn frame_front(alloc: Global, from: u32, to: u32, sport: u64) -> Result<String, OutOfMemory>
    requires from { from ≤ 10000 }
    requires to { to ≤ 10000 }
    ensures { IfOk result (λ s. string_bytes s ≡ frame_front_of from to sport) }
{
    let mac = port_mac(alloc, to)?;
    let address = port_address(alloc, from)?;
    let number = format!(in alloc; "{sport}")?;
    let mut front = String::new(alloc);
    front.push_str("{\"event\":{\"frame\":{\"dport\":22,\"dst\":\"")?;
    front.push_str(mac.as_str())?;
    front.push_str("\",\"from\":\"")?;
    front.push_str(address.as_str())?;
    front.push_str("\",\"kind\":\"ip4\",\"proto\":\"tcp\",\"sport\":")?;
    front.push_str(number.as_str())?;
    Ok(front)
}

/// The event of a frame of TCP between two ports, told by their numbers.
pub(crate) fn frame_body(
    alloc: Global,
    from: u32,
    to: u32,
    sport: u64,
) -> Result<String, OutOfMemory>
    requires from { from ≤ 10000 }
    requires to { to ≤ 10000 }
    ensures { IfOk result (λ s. string_bytes s ≡ frame_body_of from to sport) }
{
    let mac = port_mac(alloc, from)?;
    let address = port_address(alloc, to)?;
    let id = port_id(alloc, from)?;
    let mut body = frame_front(alloc, from, to, sport)?;
    body.push_str(",\"src\":\"")?;
    body.push_str(mac.as_str())?;
    body.push_str("\",\"to\":\"")?;
    body.push_str(address.as_str())?;
    body.push_str("\",\"ttl\":64},\"port\":\"")?;
    body.push_str(id.as_str())?;
    body.push_str("\"}}")?;
    Ok(body)
}
