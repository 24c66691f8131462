//! The tags of a host by their networks.

ghost use Rattle.std.specs.Prelude.{◌≡◌, IfOk};
ghost use Rattle.std.specs.HashMap.{get};
ghost use Rattle.api_types.specs.Ident.{Ident};
ghost use Rattle.api_types.specs.Table.{ident_eq};
ghost use Rattle.plane_types.specs.TableRows.{tag_of as tag_given};

use crate::table::TagRow;
use api_types::Id;
use net_addr::OutOfMemory;
use std::alloc::Global;
use std::collections::HashMap;
use std::marker::Model;

/// The tags of a host, to look up by network. Contracts see their list.
#[derive(Drop)]
pub struct TagMap<'t> {
    tags: &'t [TagRow],
    by_network: HashMap<Id, u16>,
}

impl<'t> Model for TagMap<'t> {
    ghost use Rattle.std.specs.Prelude.{◌≡◌, List};
    ghost use Rattle.std.specs.HashMap.{get};
    ghost use Rattle.api_types.specs.Ident.{Ident};
    ghost use Rattle.api_types.specs.Table.{ident_eq};
    ghost use Rattle.plane_types.specs.TableRows.{tag_of};
    ghost use Rattle.plane_types.specs.declared.table.TagRow.{TagRow};

    ghost Value = { List TagRow };

    ghost view = { λ m. m.tags.now };

    ghost invariant = { λ m. (n : Ident) → get ident_eq m.by_network n ≡ tag_of m.tags.now n };
}

// From the last to the first, so that the first tag of a network stays.
fn by_network(alloc: Global, tags: &[TagRow]) -> Result<HashMap<Id, u16>, OutOfMemory>
    ensures { IfOk result (λ m. (n : Ident) → get ident_eq m n ≡ tag_given tags.now n) }
{
    let mut by_network = HashMap::new(alloc);
    let mut left = tags.len();
    while left > 0 {
        left -= 1;
        let row = &tags[left];
        by_network.insert(row.network, row.tag)?;
    }
    Ok(by_network)
}

impl<'t> TagMap<'t> {
    /// These tags. Its cost grows with them.
    pub fn of(alloc: Global, tags: &'t [TagRow]) -> Result<TagMap<'t>, OutOfMemory>
        ensures { IfOk result (λ m. m ≡ tags.now) }
    {
        Ok(TagMap {
            tags,
            by_network: by_network(alloc, tags)?,
        })
    }

    /// The tag of a network. Its cost doesn't grow with the tags.
    pub fn tag_of(&self, network: Id) -> Option<u16>
        ensures { result ≡ tag_given self.now network }
    {
        self.by_network.get(&network).copied()
    }
}
