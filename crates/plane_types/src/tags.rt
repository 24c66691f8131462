//! The tags by which a host tells networks apart.

ghost use Rattle.std.specs.Prelude.{◌≡◌};
ghost use Rattle.plane_types.specs.TableRows.{tag_of as tag_given};

use crate::table::TagRow;
use api_types::Id;

/// The tag that a host gives to a network. Its cost grows with the tags.
pub fn tag_of(tags: &[TagRow], network: Id) -> Option<u16>
    ensures { result ≡ tag_given tags.now network }
{
    for row in tags {
        if network == row.network {
            return Some(row.tag);
        }
    }
    None
}
