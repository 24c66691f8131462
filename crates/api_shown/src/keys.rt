//! Keys of rows: members by which rows are looked for, and whose values the row itself holds.

ghost use Rattle.std.specs.Prelude.{◌≡◌, ◌∷◌, [], IfSome, IsTrue, codes, option_copied};
ghost use Rattle.std.specs.Str.{bytes_eq};
ghost use Rattle.api_types.specs.Printed.{word};
ghost use Rattle.api_policy.specs.Trees.{id_word};
ghost use Rattle.api_shown.specs.Keys as keys;

use crate::members::Shows;
use api_types::{
    FloatingRow, GroupRow, Id, NetworkRow, PolicyRow, PortRow, RouterRow, RuleRow, SubnetRow,
};
use net_addr::Text;

/// A key.
#[derive(Clone, Copy)]
pub(crate) enum Key {
    Id,
    Name,
    Project,
    Tenant,
    Network,
    Device,
    Group,
}

/// The key whose member has this name.
pub(crate) fn find_key(name: &Text) -> Option<Key>
    ensures { IfSome result (λ key. IsTrue (bytes_eq name.now (keys.key_name key))) }
{
    let name = name.as_str();
    if name == "id" {
        return Some(Key::Id);
    }
    if name == "name" {
        return Some(Key::Name);
    }
    if name == "project_id" {
        return Some(Key::Project);
    }
    if name == "tenant_id" {
        return Some(Key::Tenant);
    }
    if name == "network_id" {
        return Some(Key::Network);
    }
    if name == "device_id" {
        return Some(Key::Device);
    }
    if name == "security_group_id" {
        return Some(Key::Group);
    }
    None
}

/// A row that is told from others by its keys, before any member is made.
pub(crate) trait HasKeys: Shows {
    ghost use Rattle.api_types.specs.RowLists.{RowLists};
    ghost use Rattle.api_types.specs.declared.call.Caller.{Caller as TheCaller};

    /// The value of the key's member, if the row holds it as a text.
    fn word_at(&self, key: Key) -> Option<&Text>
        ensures { IfSome (option_copied result) (λ t. (rows : RowLists) (caller : TheCaller)
            → keys.values_under (keys.key_name key) (Self.members_of rows caller self.now)
            ≡ word t ∷ []) };

    /// The id whose text is the value of the key's member, if the row holds it as an id.
    fn id_at(&self, key: Key) -> Option<Id>
        ensures { IfSome result (λ i. (rows : RowLists) (caller : TheCaller)
            → keys.values_under (keys.key_name key) (Self.members_of rows caller self.now)
            ≡ id_word i ∷ []) };

    ghost own_id: { (rows : RowLists) (caller : TheCaller) (r : Self)
        → keys.values_under (codes "id") (Self.members_of rows caller r)
        ≡ id_word (Self.id_of r) ∷ [] };
}

impl HasKeys for NetworkRow {
    ghost use Rattle.std.specs.Prelude.{refl};

    ghost own_id = { λ _ _ _. refl };

    fn word_at(&self, key: Key) -> Option<&Text> {
        match key {
            Key::Name => Some(&self.name),
            Key::Project => Some(&self.project),
            Key::Tenant => Some(&self.project),
            Key::Id | Key::Network | Key::Device | Key::Group => None,
        }
    }

    fn id_at(&self, key: Key) -> Option<Id> {
        match key {
            Key::Id => Some(self.id),
            Key::Name | Key::Project | Key::Tenant | Key::Network | Key::Device | Key::Group =>
                None,
        }
    }
}

impl HasKeys for SubnetRow {
    ghost use Rattle.std.specs.Prelude.{refl};

    ghost own_id = { λ _ _ _. refl };

    fn word_at(&self, key: Key) -> Option<&Text> {
        match key {
            Key::Name => Some(&self.name),
            Key::Project => Some(&self.project),
            Key::Tenant => Some(&self.project),
            Key::Id | Key::Network | Key::Device | Key::Group => None,
        }
    }

    fn id_at(&self, key: Key) -> Option<Id> {
        match key {
            Key::Id => Some(self.id),
            Key::Network => Some(self.network),
            Key::Name | Key::Project | Key::Tenant | Key::Device | Key::Group => None,
        }
    }
}

impl HasKeys for PortRow {
    ghost use Rattle.std.specs.Prelude.{refl};

    ghost own_id = { λ _ _ _. refl };

    fn word_at(&self, key: Key) -> Option<&Text> {
        match key {
            Key::Name => Some(&self.name),
            Key::Project => Some(&self.project),
            Key::Tenant => Some(&self.project),
            Key::Device => Some(&self.device),
            Key::Id | Key::Network | Key::Group => None,
        }
    }

    fn id_at(&self, key: Key) -> Option<Id> {
        match key {
            Key::Id => Some(self.id),
            Key::Network => Some(self.network),
            Key::Name | Key::Project | Key::Tenant | Key::Device | Key::Group => None,
        }
    }
}

impl HasKeys for GroupRow {
    ghost use Rattle.std.specs.Prelude.{refl};

    ghost own_id = { λ _ _ _. refl };

    fn word_at(&self, key: Key) -> Option<&Text> {
        match key {
            Key::Name => Some(&self.name),
            Key::Project => Some(&self.project),
            Key::Tenant => Some(&self.project),
            Key::Id | Key::Network | Key::Device | Key::Group => None,
        }
    }

    fn id_at(&self, key: Key) -> Option<Id> {
        match key {
            Key::Id => Some(self.id),
            Key::Name | Key::Project | Key::Tenant | Key::Network | Key::Device | Key::Group =>
                None,
        }
    }
}

impl HasKeys for RuleRow {
    ghost use Rattle.std.specs.Prelude.{refl};

    ghost own_id = { λ _ _ _. refl };

    fn word_at(&self, key: Key) -> Option<&Text> {
        match key {
            Key::Project => Some(&self.project),
            Key::Tenant => Some(&self.project),
            Key::Id | Key::Name | Key::Network | Key::Device | Key::Group => None,
        }
    }

    fn id_at(&self, key: Key) -> Option<Id> {
        match key {
            Key::Id => Some(self.id),
            Key::Group => Some(self.group),
            Key::Name | Key::Project | Key::Tenant | Key::Network | Key::Device => None,
        }
    }
}

impl HasKeys for RouterRow {
    ghost use Rattle.std.specs.Prelude.{refl};

    ghost own_id = { λ _ _ _. refl };

    fn word_at(&self, key: Key) -> Option<&Text> {
        match key {
            Key::Name => Some(&self.name),
            Key::Project => Some(&self.project),
            Key::Tenant => Some(&self.project),
            Key::Id | Key::Network | Key::Device | Key::Group => None,
        }
    }

    fn id_at(&self, key: Key) -> Option<Id> {
        match key {
            Key::Id => Some(self.id),
            Key::Name | Key::Project | Key::Tenant | Key::Network | Key::Device | Key::Group =>
                None,
        }
    }
}

impl HasKeys for FloatingRow {
    ghost use Rattle.std.specs.Prelude.{refl};

    ghost own_id = { λ _ _ _. refl };

    fn word_at(&self, key: Key) -> Option<&Text> {
        match key {
            Key::Project => Some(&self.project),
            Key::Tenant => Some(&self.project),
            Key::Id | Key::Name | Key::Network | Key::Device | Key::Group => None,
        }
    }

    fn id_at(&self, key: Key) -> Option<Id> {
        match key {
            Key::Id => Some(self.id),
            Key::Name | Key::Project | Key::Tenant | Key::Network | Key::Device | Key::Group =>
                None,
        }
    }
}

impl HasKeys for PolicyRow {
    ghost use Rattle.std.specs.Prelude.{refl};

    ghost own_id = { λ _ _ _. refl };

    fn word_at(&self, key: Key) -> Option<&Text> {
        match key {
            Key::Project => Some(&self.project),
            Key::Tenant => Some(&self.project),
            Key::Id | Key::Name | Key::Network | Key::Device | Key::Group => None,
        }
    }

    fn id_at(&self, key: Key) -> Option<Id> {
        match key {
            Key::Id => Some(self.id),
            Key::Name | Key::Project | Key::Tenant | Key::Network | Key::Device | Key::Group =>
                None,
        }
    }
}
