//! Columns of a row, and the values that they spell.

use crate::address::{address_of, four_of, id_of, mac_of, prefix_of};
use crate::trouble::Trouble;
use api_types::Id;
use net_addr::{Addr, Addr4, Mac, Prefix, Text};
use sqlite::Row;
use sqlite::types::ValueRef;

/// What is there, or a fault.
pub(crate) fn spelled<T: Drop>(value: Option<T>) -> Result<T, Trouble> {
    match value {
        Some(value) => Ok(value),
        None => Err(Trouble::Fault),
    }
}

/// The bytes of a text.
pub(crate) fn bytes_at(row: &Row, at: usize) -> Result<&[u8], Trouble> {
    match row.get_ref(at)? {
        ValueRef::Text(bytes) => Ok(bytes),
        _ => Err(Trouble::Fault),
    }
}

/// The bytes of a text, or none where the column is null.
pub(crate) fn bytes_if(row: &Row, at: usize) -> Result<Option<&[u8]>, Trouble> {
    match row.get_ref(at)? {
        ValueRef::Text(bytes) => Ok(Some(bytes)),
        ValueRef::Null => Ok(None),
        _ => Err(Trouble::Fault),
    }
}

/// A text.
pub(crate) fn text_at(row: &Row, at: usize) -> Result<Text, Trouble> {
    let text: String = row.get(at)?;
    Ok(Text::from_string(text))
}

/// A text, or none where the column is null.
pub(crate) fn text_if(row: &Row, at: usize) -> Result<Option<Text>, Trouble> {
    let text: Option<String> = row.get(at)?;
    Ok(text.map(Text::from_string))
}

/// A truth value, written as 0 or 1.
pub(crate) fn flag_at(row: &Row, at: usize) -> Result<bool, Trouble> {
    match row.get_ref(at)? {
        ValueRef::Int(0) => Ok(false),
        ValueRef::Int(1) => Ok(true),
        _ => Err(Trouble::Fault),
    }
}

/// A truth value, or none where the column is null.
pub(crate) fn flag_if(row: &Row, at: usize) -> Result<Option<bool>, Trouble> {
    match row.get_ref(at)? {
        ValueRef::Int(0) => Ok(Some(false)),
        ValueRef::Int(1) => Ok(Some(true)),
        ValueRef::Null => Ok(None),
        _ => Err(Trouble::Fault),
    }
}

/// A number below 2^16, or none where the column is null.
pub(crate) fn short_if(row: &Row, at: usize) -> Result<Option<u16>, Trouble> {
    let number: Option<u32> = row.get(at)?;
    match number {
        None => Ok(None),
        Some(number) => match u16::try_from(number) {
            Ok(number) => Ok(Some(number)),
            Err(_) => Err(Trouble::Fault),
        },
    }
}

/// A number below 2^8, or none where the column is null.
pub(crate) fn byte_if(row: &Row, at: usize) -> Result<Option<u8>, Trouble> {
    let number: Option<u32> = row.get(at)?;
    match number {
        None => Ok(None),
        Some(number) => match u8::try_from(number) {
            Ok(number) => Ok(Some(number)),
            Err(_) => Err(Trouble::Fault),
        },
    }
}

/// An id.
pub(crate) fn id_at(row: &Row, at: usize) -> Result<Id, Trouble> {
    spelled(id_of(bytes_at(row, at)?))
}

/// An id, or none where the column is null.
pub(crate) fn id_if(row: &Row, at: usize) -> Result<Option<Id>, Trouble> {
    match bytes_if(row, at)? {
        None => Ok(None),
        Some(bytes) => Ok(Some(spelled(id_of(bytes))?)),
    }
}

/// A MAC address.
pub(crate) fn mac_at(row: &Row, at: usize) -> Result<Mac, Trouble> {
    spelled(mac_of(bytes_at(row, at)?))
}

/// A prefix.
pub(crate) fn prefix_at(row: &Row, at: usize) -> Result<Prefix, Trouble> {
    spelled(prefix_of(bytes_at(row, at)?))
}

/// A prefix, or none where the column is null.
pub(crate) fn prefix_if(row: &Row, at: usize) -> Result<Option<Prefix>, Trouble> {
    match bytes_if(row, at)? {
        None => Ok(None),
        Some(bytes) => Ok(Some(spelled(prefix_of(bytes))?)),
    }
}

/// An address, or none where the column is null.
pub(crate) fn address_if(row: &Row, at: usize) -> Result<Option<Addr>, Trouble> {
    match bytes_if(row, at)? {
        None => Ok(None),
        Some(bytes) => Ok(Some(spelled(address_of(bytes))?)),
    }
}

/// An address of version 4.
pub(crate) fn four_at(row: &Row, at: usize) -> Result<Addr4, Trouble> {
    spelled(four_of(bytes_at(row, at)?))
}

/// An address of version 4, or none where the column is null.
pub(crate) fn four_if(row: &Row, at: usize) -> Result<Option<Addr4>, Trouble> {
    match bytes_if(row, at)? {
        None => Ok(None),
        Some(bytes) => Ok(Some(spelled(four_of(bytes))?)),
    }
}
