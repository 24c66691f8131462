//! A request and its reply, and bytes one after the other.
use net_addr::OutOfMemory;
use std::alloc::Global;

/// A network is made.
pub(crate) const MAKE: &[u8] =
    b"POST /v2.0/networks HTTP/1.1\r\nX-Project-Id: a\r\nContent-Length: 25\r\n\r\n\
        {\"network\":{\"name\":\"n1\"}}";

pub(crate) const MADE: &[u8] =
    b"HTTP/1.1 201 Created\r\nContent-Type: application/json\r\nContent-Length: 211\r\n\r\n\
        {\"network\":{\"admin_state_up\":true,\"description\":\"\",\
        \"id\":\"00000001-0000-8000-8000-000000000006\",\"name\":\"n1\",\"project_id\":\"a\",\
        \"router:external\":false,\"shared\":false,\"status\":\"ACTIVE\",\"subnets\":[],\
        \"tenant_id\":\"a\"}}";

/// The store failed to keep a change.
pub(crate) const NOT_KEPT: &[u8] =
    b"HTTP/1.1 503 Service Unavailable\r\nContent-Type: application/json\r\n\
        Content-Length: 96\r\n\r\n\
        {\"NeutronError\":{\"detail\":\"\",\"message\":\"The store failed in this request.\",\
        \"type\":\"StoreFault\"}}";

/// These bytes, one after the other.
pub(crate) fn joined(alloc: Global, parts: &[&[u8]]) -> Result<Vec<u8>, OutOfMemory> {
    let mut all = Vec::new(alloc);
    for part in parts {
        all.extend_from_slice(part)?;
    }
    Ok(all)
}
