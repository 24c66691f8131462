//! Values by name.

ghost use Rattle.std.specs.Prelude.{◌≡◌, ◌<◌, vec_len, vec_capacity, option_copied};
ghost use Rattle.std.specs.List.{position_or_len};
ghost use Rattle.keeper_core.specs.Named.{has_name, value_named, with_value};

use api_types::Rows;
use net_addr::{Bytes, Seq, Text};

/// A value under a name.
#[derive(Drop)]
pub struct Named<T> {
    pub name: Text,
    pub value: T,
}

/// Bytes by name, as those of files.
pub type NamedBytes = Seq<Named<Bytes>>;

/// Rows by name, as those of stores.
pub type NamedRows = Seq<Named<Rows>>;

/// The place of the first item with a name, or the number of items.
fn place_of<T>(items: &[Named<T>], name: &Text) -> usize
    ensures { result ≡ position_or_len (has_name name.now) items.now }
{
    for i in 0..items.len() {
        if items[i].name == *name {
            return i;
        }
    }
    items.len()
}

/// The first value with a name. Its cost grows with the items.
pub fn value_of<'a, T>(items: &'a [Named<T>], name: &Text) -> Option<&'a T>
    ensures { option_copied result ≡ value_named name.now items.now }
{
    let place = place_of(items, name);
    if place < items.len() {
        return Some(&items[place].value);
    }
    None
}

/// Puts a value under a name, in place of the first one with the name, otherwise last. It allocates
/// nothing, since there is room for one more. Its cost grows with the items.
pub fn put_value<T: Drop>(items: &mut Vec<Named<T>>, name: Text, value: T)
    requires { vec_len items.old < vec_capacity items.old }
    ensures { items.new.items ≡ with_value name value items.old.items }
{
    let place = place_of(items.as_slice(), &name);
    if place < items.len() {
        items[place].value = value;
        return;
    }
    match items.push(Named { name, value }) {
        Ok(()) => {}
        Err(_) => unreachable!(),
    }
}
