//! Clauses of consistency: what each asks of a row of its kind, among all rows.
//!
//! A clause is a type with the trait `Clause`, which has its number, the kind of its rows and its
//! test: whether a row's id is drawn and its own, what it names is there, its values are in form,
//! nobody else holds its addresses or its segment, services have the ports that they should have,
//! and policies permit it. Each test is answered by its definition, and allocates nothing.
#![tactic(auto)]

mod clause;
mod disjoint;
mod floating;
mod forms;
mod groups;
mod held;
mod modes;
mod named;
mod numbered;
mod permitted;
mod segments;
mod services;
mod words;

pub use clause::Clause;
pub use disjoint::{ApartPort, ApartSubnet};
pub use floating::LeadingFloating;
pub use forms::{FormedNetwork, FormedPort, FormedRouter, FormedRule, FormedSubnet};
pub use groups::{GroupedPort, GroupedProject, GroupedRule};
pub use held::{HostAddresses, OnlyHolder};
pub use named::{
    NamedFloating, NamedGroup, NamedNetwork, NamedPolicy, NamedPort, NamedRouter, NamedRule,
    NamedSubnet,
};
pub use numbered::{Numbered, is_numbered_project};
pub use permitted::{AllowedPort, OnlyPolicy, PermittedFloating, PermittedRouter, ReachedRoutes};
pub use segments::OwnSegment;
pub use services::{ServedFloating, ServedNetwork, ServedRouter, ServingPort};
