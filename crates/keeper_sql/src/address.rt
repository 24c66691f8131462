//! Addresses and ids as they are printed.

use api_types::Id;
use net_addr::{Addr, Addr4, Cidr, Mac, Prefix};

/// The id that a text spells.
pub(crate) fn id_of(text: &[u8]) -> Option<Id> {
    Id::read(text)
}

/// The MAC address that a text spells.
pub(crate) fn mac_of(text: &[u8]) -> Option<Mac> {
    match Mac::read(text) {
        Ok(mac) => Some(mac),
        Err(_) => None,
    }
}

/// The address that a text spells.
pub(crate) fn address_of(text: &[u8]) -> Option<Addr> {
    match Addr::read(text) {
        Ok(address) => Some(address),
        Err(_) => None,
    }
}

/// The address of version 4 that a text spells.
pub(crate) fn four_of(text: &[u8]) -> Option<Addr4> {
    match Addr4::read(text) {
        Ok(address) => Some(address),
        Err(_) => None,
    }
}

/// The prefix that a text spells, where no bit is set after its length.
pub(crate) fn prefix_of(text: &[u8]) -> Option<Prefix> {
    match Cidr::read(text) {
        Ok(cidr) => {
            if cidr.is_exact() {
                Some(cidr.prefix())
            } else {
                None
            }
        }
        Err(_) => None,
    }
}
