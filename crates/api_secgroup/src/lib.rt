//! Security groups: what their rules say of packets, and who is a member of one.
//!
//! `rule_of` tells what a rule is asked to say, or which attribute is wrong, and `equal_rules`
//! whether two rules say the same. A rule may speak of the members of a remote group: the fixed
//! addresses, and the prefixes of the allowed address pairs, of all ports that name it. `is_member`
//! tells of an address whether it is among them, and `Memberships` lists them as prefixes. It
//! stands on the rows and the definitions of `api_types`.
#![tactic(auto)]

mod equal;
mod given;
mod laws;
mod listed;
mod member;
mod memberships;
mod parts;

pub use equal::{equal_rule, equal_rules};
pub use laws::listed_prefixes_hold_members;
pub use member::is_member;
pub use memberships::Memberships;
pub use parts::{BadPart, RuleAttribute, RuleParts, rule_of};
