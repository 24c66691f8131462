//! Whether the names of each object ascend.
ghost use Rattle.std.specs.Prelude.{◌≡◌, map, None, option_map};
ghost use Rattle.api_types.specs.Printed.{tree_of, trees_of, branches_of, member_of};
ghost use Rattle.json_replies.specs.Straight as straight;

use api_types::{MemberName, Printed};

// Whether a name comes after the last one.
fn is_above(last: Option<&MemberName>, name: &MemberName) -> bool
    ensures { result ≡ straight.is_above (option_map (λ t. t.now) last.entry) name.now }
{
    match last {
        Some(last) => last.as_str() < name.as_str(),
        None => true,
    }
}

#[cycle(ascends)]
fn ascends(printed: &Printed) -> bool
    ensures { result ≡ straight.ascends (tree_of printed.now) }
{
    match printed {
        Printed::Items(items) => items_ascend(items.as_slice()),
        Printed::Object(members) => members_ascend(members.as_slice()),
        Printed::Null | Printed::Truth(_) | Printed::Number(_) => true,
        Printed::Constant(_) | Printed::Word(_) => true,
        Printed::Id(_) | Printed::Mac(_) | Printed::Address(_) | Printed::Prefix(_) => true,
    }
}

#[cycle(ascends)]
fn items_ascend(items: &[Printed]) -> bool
    ensures { result ≡ straight.trees_ascend (trees_of (map tree_of items.now)) }
{
    for item in items {
        if !ascends(item) {
            return false;
        }
    }
    true
}

/// Whether the names of these members ascend, and those of the objects in them.
#[cycle(ascends)]
pub(crate) fn members_ascend(members: &[(MemberName, Printed)]) -> bool
    ensures { result ≡ straight.branches_ascend None (branches_of (map member_of members.now)) }
{
    let mut last = None;
    for (name, member) in members {
        if !is_above(last, name) || !ascends(member) {
            return false;
        }
        last = Some(name);
    }
    true
}
