//! Who sees what, who may do what, and what is in use.
//!
//! It stands on `api_types` and on the quotas of `net_settings`. `sees` tells of an id whether a
//! caller sees the row, and `network_seen` and its like give it: an administrator sees every row, a
//! project its own rows, the networks that are shared with it or external to it, the subnets of
//! networks that are its own or shared with it, and each port on its own networks. `may` names the
//! rule of policy that forbids a call; `admin_only` and its like refuse by one rule. `within_quota`
//! counts what a project has. The others refuse what a row uses, each by one use, and tell the
//! using row where the caller sees it; `ensure_version_left` refuses a change for which no version is left.
//! What is printed of rows, and what is shown and listed of them, is defined in specs/. No call
//! takes memory.
#![tactic(auto)]

mod aim_uses;
mod device_uses;
mod empty;
mod marked;
mod permits;
mod policy_rules;
mod policy_uses;
mod port_uses;
mod quotas;
mod reserved;
mod router_uses;
mod seen;
mod standing;
mod told;
mod versions;
mod visible;

pub use aim_uses::{aim_in_use, leading};
pub use device_uses::{named_by_device, port_in_use, service_in_use};
pub use empty::is_empty;
pub use marked::{is_marked, may_use};
pub use permits::{admin_only, network_access, network_owner, owner_only, port_delete};
pub use policy_rules::{Forbidden, may};
pub use policy_uses::{open_in_use, policy_in_use, policy_user};
pub use port_uses::{
    default_in_use, group_in_use, network_in_use, old_gateway_in_use, router_in_use, subnet_in_use,
};
pub use quotas::{OverQuota, over_quota, within_quota};
pub use reserved::{
    floating_for_admin, is_snat_asked, network_for_admin, policy_for_admin, port_for_admin,
    port_for_owner, router_for_admin,
};
pub use router_uses::{
    floating_by, floating_in_use, floating_through, gateway_in_use, gateway_use, loses_route,
    route_in_use,
};
pub use seen::{
    floating_seen, group_seen, named, network_seen, policy_seen, port_seen, router_seen, rule_seen,
    subnet_seen,
};
pub use standing::Standing;
pub use versions::ensure_version_left;
pub use visible::{Visible, sees};
