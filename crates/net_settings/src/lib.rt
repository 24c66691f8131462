//! The settings of a server: drivers, numbers of vxlan networks, quotas and hosts.
//!
//! `read_settings` reads them from TOML and names the first key that breaks its rule.
//! `default_settings` gives those of a server that has no file. The crate stands on `net_addr` and
//! `toml`. Every `Settings` meets all rules, so nothing above tests them again; what was read is
//! exactly what the document says.
#![tactic(auto)]

mod defaults;
mod document;
mod drivers;
mod hosts;
mod names;
mod numbers;
mod quotas;
mod refusal;
mod settings;
mod texts;
mod unknown;

pub use defaults::default_settings;
pub use document::read_settings;
pub use refusal::SettingsRefusal;
pub use settings::{Driver, Host, Limit, Quotas, Settings};
