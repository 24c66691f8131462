//! Lists of the calls that are to fail.
use net_addr::{Numbers, OutOfMemory, Seq};
use std::alloc::Global;

/// These numbers as a list.
pub(crate) fn numbers(alloc: Global, numbers: &[u64]) -> Result<Numbers, OutOfMemory> {
    Ok(Seq::from_vec(Vec::from_slice(alloc, numbers)?))
}
