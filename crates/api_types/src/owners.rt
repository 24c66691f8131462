//! Whose a port is, by its `device_owner` and its `device_id`.

ghost use Rattle.std.specs.Prelude.{◌≡◌};
ghost use Rattle.api_types.specs.Owners as owners;

use crate::id::Id;
use crate::port::PortRow;
use crate::router::RouterRow;
use net_addr::Text;
use uuid::Uuid;

impl Id {
    /// Whether a text is the id as it is printed, in lower case.
    #[tactic(auto, unfolding(crate::specs::Ident::ident_text, crate::specs::Owners::device_is))]
    pub fn is_printed(self, text: &Text) -> bool
        ensures { result ≡ owners.device_is text.now self }
    {
        let mut buffer = Uuid::encode_buffer();
        let printed = self.uuid().hyphenated().encode_lower(&mut buffer);
        text.as_str() == printed
    }
}

impl PortRow {
    /// Whether its `device_id` is the printed id of that router, network or floating address.
    pub fn has_device(&self, id: Id) -> bool
        ensures { result ≡ owners.device_is self.now.device id }
    {
        id.is_printed(&self.device)
    }

    /// Whether it is a router's interface (`network:router_interface`).
    #[tactic(auto, unfolding(crate::specs::Owners::is_interface))]
    pub fn is_interface(&self) -> bool
        ensures { result ≡ owners.is_interface self.now.owner }
    {
        self.owner.as_str() == "network:router_interface"
    }

    /// Whether it is a router's gateway (`network:router_gateway`).
    #[tactic(auto, unfolding(crate::specs::Owners::is_gateway))]
    pub fn is_gateway(&self) -> bool
        ensures { result ≡ owners.is_gateway self.now.owner }
    {
        self.owner.as_str() == "network:router_gateway"
    }

    /// Whether it serves DHCP (`network:dhcp`).
    #[tactic(auto, unfolding(crate::specs::Owners::is_dhcp))]
    pub fn is_dhcp(&self) -> bool
        ensures { result ≡ owners.is_dhcp self.now.owner }
    {
        self.owner.as_str() == "network:dhcp"
    }

    /// Whether it holds a floating address (`network:floatingip`).
    #[tactic(auto, unfolding(crate::specs::Owners::is_floating))]
    pub fn is_floating(&self) -> bool
        ensures { result ≡ owners.is_floating self.now.owner }
    {
        self.owner.as_str() == "network:floatingip"
    }

    /// Whether it is a service's, as of DHCP, a router or a floating address: its `device_owner`
    /// begins with `network:`.
    pub fn is_service(&self) -> bool
        ensures { result ≡ owners.is_service self.now.owner }
    {
        self.owner.as_str().as_bytes().starts_with(b"network:")
    }

    /// Whether it is a router's, interface or gateway.
    pub fn is_router_port(&self) -> bool
        ensures { result ≡ owners.is_router_port self.now.owner }
    {
        self.is_interface() || self.is_gateway()
    }

    /// Whether it is a port of that router: by its `device_owner` a router's, by its `device_id`
    /// this one's.
    pub fn is_of(&self, router: &RouterRow) -> bool
        ensures { result ≡ owners.is_port_of router.now self.now }
    {
        self.is_router_port() && self.has_device(router.id)
    }
}
