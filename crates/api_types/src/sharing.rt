//! What policies let projects use, and whose rows are.

ghost use Rattle.std.specs.Prelude.{◌≡◌};
ghost use Rattle.api_types.specs.Consistent.InForm as in_form;
ghost use Rattle.api_types.specs.Consistent.Named as named_rows;
ghost use Rattle.api_types.specs.Sharing as sharing;

use crate::id::Id;
use crate::policy::{Action, PolicyRow};
use crate::port::PortRow;
use crate::rows::Rows;
use net_addr::Text;

impl PolicyRow {
    // Whether it lets a project do that with a network.
    fn grants(&self, action: Action, network: Id, project: &Text) -> bool
        ensures { result ≡ sharing.grants action network project.now self.now }
    {
        network == self.object
            && action == self.action
            && (self.target == *project || self.target.as_str() == "*")
    }
}

impl Rows {
    fn is_granted(&self, action: Action, network: Id, project: &Text) -> bool
        ensures { result ≡ sharing.is_granted self.now.policies action network project.now }
    {
        self.policies()
            .rows()
            .iter()
            .any(|policy| policy.grants(action, network, project))
    }

    /// Whether a network is shared with a project: a policy lets the project, or everyone, use it
    /// as its own. Its cost grows with the policies.
    pub fn is_shared_with(&self, network: Id, project: &Text) -> bool
        ensures { result ≡ sharing.is_shared_with self.now.policies network project.now }
    {
        self.is_granted(Action::Shared, network, project)
    }

    /// Whether a network is external to a project: a policy lets the project, or everyone, use it
    /// as an external one. Its cost grows with the policies.
    pub fn is_external_to(&self, network: Id, project: &Text) -> bool
        ensures { result ≡ sharing.is_external_to self.now.policies network project.now }
    {
        self.is_granted(Action::External, network, project)
    }

    /// Whether a network with this id is there and is the project's. Its cost grows with the
    /// networks.
    pub fn is_network_of(&self, project: &Text, id: Id) -> bool
        ensures { result ≡ in_form.is_network_of self.now.networks project.now id }
    {
        self.networks()
            .rows()
            .iter()
            .any(|network| id == network.id && network.project == *project)
    }

    /// Whether a security group with this id is there and is the project's. Its cost grows with the
    /// groups.
    pub fn is_group_of(&self, project: &Text, id: Id) -> bool
        ensures { result ≡ in_form.is_group_of self.now.groups project.now id }
    {
        self.groups()
            .rows()
            .iter()
            .any(|group| id == group.id && group.project == *project)
    }

    /// Whether a floating address names the port as its own. Its cost grows with the floating
    /// addresses.
    pub fn is_own_port(&self, port: &PortRow) -> bool
        ensures { result ≡ named_rows.is_own_port self.now.floatings port.now.id }
    {
        self.floatings()
            .rows()
            .iter()
            .any(|floating| port.id == floating.own_port)
    }
}
