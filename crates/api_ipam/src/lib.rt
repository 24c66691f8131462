//! Which addresses and MAC addresses ports take.
//!
//! It stands on the rows of `api_types`. `default_gateway` and `default_pools` give what a subnet
//! has for which none are named, `choose_mac` the MAC address of a port, and `choose` its
//! addresses. Its parts are there for plans, which refuse other things in between: `asked_places`,
//! `are_placed`, `first_known` and `next_known` come before the held addresses are looked at,
//! `first_held` tells one that is held, and `first_addresses`, `next_addresses`,
//! `gateway_addresses` and `floating_address` choose. `HeldAddresses` are gathered once, in one
//! pass over the ports, as a list, by `survey_ports` together with a MAC address; from then on a look-up
//! passes over the list once, and so does a choice, which marks its addresses once more if they
//! don't stand in their order. Nothing grows with a pool's size.
#![tactic(auto)]

mod asked;
mod choosing;
mod defaults;
mod euis;
mod filling;
mod free;
mod held;
mod least;
mod macs;
mod marks;
mod places;
mod pools;
mod survey;

pub use asked::{
    addresses_of, first_addresses, first_known, next_addresses, next_known, old_renewed,
};
pub use choosing::{IpamRefusal, Wanted, choose, first_held};
pub use defaults::{default_gateway, default_pools};
pub use euis::{eui_of, is_eui, makes_eui};
pub use filling::all_filled;
pub use free::{first_euis, floating_address, gateway_addresses, gateway_euis, with_euis};
pub use held::HeldAddresses;
pub use least::least_free_address;
pub use macs::choose_mac;
pub use places::{Place, are_placed, asked_places, known_addresses, subnets_on};
pub use pools::are_pools;
pub use survey::{Survey, survey_ports};
