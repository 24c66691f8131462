//! What the listed prefixes of a group tell.

ghost use Rattle.std.specs.List.{list_any};
ghost use Rattle.std.specs.Prelude.{◌≡◌};
ghost use Rattle.net_addr.specs.Prefixes.{contains};
ghost use Rattle.net_addr.specs.declared.address.Addr.{Addr};
ghost use Rattle.api_types.specs.Ident.{Ident};
ghost use Rattle.api_types.specs.Members.{is_member, members};
ghost use Rattle.api_types.specs.RowLists.{RowLists};

/// Exactly the members of a group are contained in one of the prefixes that list them.
pub fn listed_prefixes_hold_members()
    ensures { (rows : RowLists) (group : Ident) (address : Addr)
        → list_any (λ prefix. contains prefix address) (members rows group)
        ≡ is_member rows group address }
{}
