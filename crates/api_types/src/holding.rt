//! What a port holds and names: subnets, addresses and security groups.

ghost use Rattle.std.specs.Prelude.{◌≡◌, ◌&&◌};
ghost use Rattle.api_types.specs.Holders as holders;
ghost use Rattle.api_types.specs.Members as members;
ghost use Rattle.api_types.specs.Owners as owners;
ghost use Rattle.api_types.specs.RouterWays as ways;
ghost use Rattle.net_addr.specs.Prefixes.{contains, overlaps};

use crate::id::Id;
use crate::port::PortRow;
use crate::shared::Shared;
use crate::subnet::SubnetRow;
use net_addr::{Addr, Prefix};

impl PortRow {
    /// Whether it holds an address in a subnet. Its cost grows with the port's addresses.
    pub fn holds_in(&self, subnet: Id) -> bool
        ensures { result ≡ owners.holds_in subnet self.now }
    {
        self.fixed.iter().any(|fixed| subnet == fixed.subnet)
    }

    /// Whether it names the security group. Its cost grows with the port's groups.
    pub fn names_group(&self, group: Id) -> bool
        ensures { result ≡ members.names_group group self.now.groups }
    {
        self.groups.iter().any(|named| group == *named)
    }

    /// Whether it holds the address. Its cost grows with the port's addresses.
    pub fn holds(&self, address: &Addr) -> bool
        ensures { result ≡ holders.holds self.now address.now }
    {
        self.fixed.iter().any(|fixed| fixed.address == *address)
    }

    // Whether it holds an address in a subnet, and that contains another one.
    fn reaches_in(&self, subnet: &SubnetRow, address: &Addr) -> bool
        ensures { result
            ≡ (owners.holds_in subnet.now.id self.now && contains subnet.now.prefix address.now) }
    {
        self.holds_in(subnet.id) && subnet.prefix.contains(*address)
    }

    /// Whether it holds an address in a subnet that contains the address: what it can be sent to
    /// there as a next hop. Its cost grows with the subnets, times the port's addresses.
    pub fn reaches(&self, subnets: &[Shared<SubnetRow>], address: &Addr) -> bool
        ensures { result ≡ ways.reaches subnets.now address.now self.now }
    {
        subnets
            .iter()
            .any(|subnet| self.reaches_in(subnet, address))
    }

    // Whether it holds an address in a subnet, and that overlaps a prefix.
    fn touches_in(&self, subnet: &SubnetRow, prefix: &Prefix) -> bool
        ensures { result
            ≡ (owners.holds_in subnet.now.id self.now && overlaps prefix.now subnet.now.prefix) }
    {
        self.holds_in(subnet.id) && prefix.overlaps(subnet.prefix)
    }

    /// Whether it holds an address in a subnet that overlaps the prefix. Its cost grows with the
    /// subnets, times the port's addresses.
    pub fn touches(&self, subnets: &[Shared<SubnetRow>], prefix: &Prefix) -> bool
        ensures { result ≡ ways.touches subnets.now prefix.now self.now }
    {
        subnets.iter().any(|subnet| self.touches_in(subnet, prefix))
    }
}
