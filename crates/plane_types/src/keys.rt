//! The keys by which rows of tables are looked up.

use crate::keyed::Keyed;
use crate::table::{
    Carrier, FilterRow, FloatRow, InwardRow, LeaseRow, RouteRow, RouterTable, SetRow, TagRow,
    TapRow,
};
use api_types::Id;
use net_addr::Mac;

/// By what rows of what comes inward are looked up.
#[derive(Clone, Copy, PartialEq, Eq, Hash)]
pub(crate) enum InwardKey {
    /// The number of a tunnel.
    Tunnel(u32),
    /// The tag of a wire, whichever its physical network.
    Tag(Option<u16>),
}

/// For whom a lease is.
#[derive(Clone, Copy, PartialEq, Eq, Hash)]
pub(crate) struct LeaseKey {
    pub(crate) tag: u16,
    pub(crate) mac: Mac,
}

impl Keyed for TagRow {
    ghost use Rattle.std.specs.Prelude.{◌==◌};

    type Key = u16;

    ghost is_at = { λ tag r. r.tag == tag };

    fn key(&self) -> Option<u16> {
        Some(self.tag)
    }
}

impl Keyed for TapRow {
    ghost use Rattle.api_types.specs.Table.{ident_eq};

    type Key = Id;

    ghost is_at = { λ port r. ident_eq port r.port };

    #[tactic(auto, using(crate::proofs::RunLemmas::ident_turned))]
    fn key(&self) -> Option<Id> {
        Some(self.port)
    }
}

impl Keyed for FilterRow {
    ghost use Rattle.api_types.specs.Table.{ident_eq};

    type Key = Id;

    ghost is_at = { λ port r. ident_eq port r.port };

    #[tactic(auto, using(crate::proofs::RunLemmas::ident_turned))]
    fn key(&self) -> Option<Id> {
        Some(self.port)
    }
}

impl Keyed for SetRow {
    ghost use Rattle.api_types.specs.Table.{ident_eq};

    type Key = Id;

    ghost is_at = { λ group r. ident_eq group r.group };

    #[tactic(auto, using(crate::proofs::RunLemmas::ident_turned))]
    fn key(&self) -> Option<Id> {
        Some(self.group)
    }
}

impl Keyed for RouterTable {
    ghost use Rattle.api_types.specs.Table.{ident_eq};

    type Key = Id;

    ghost is_at = { λ router r. ident_eq router r.router };

    #[tactic(auto, using(crate::proofs::RunLemmas::ident_turned))]
    fn key(&self) -> Option<Id> {
        Some(self.router)
    }
}

impl Keyed for RouteRow {
    ghost use Rattle.api_types.specs.Table.{ident_eq};

    type Key = Id;

    ghost is_at = { λ router r. ident_eq router r.router };

    #[tactic(auto, using(crate::proofs::RunLemmas::ident_turned))]
    fn key(&self) -> Option<Id> {
        Some(self.router)
    }
}

impl Keyed for FloatRow {
    ghost use Rattle.api_types.specs.Table.{ident_eq};

    type Key = Id;

    ghost is_at = { λ router r. ident_eq router r.router };

    #[tactic(auto, using(crate::proofs::RunLemmas::ident_turned))]
    fn key(&self) -> Option<Id> {
        Some(self.router)
    }
}

impl Keyed for InwardRow {
    ghost use Rattle.plane_types.specs.InwardKeys.{is_inward_at};

    type Key = InwardKey;

    ghost is_at = { is_inward_at };

    fn key(&self) -> Option<InwardKey> {
        match &self.carrier {
            Carrier::Tunnel(number) => Some(InwardKey::Tunnel(*number)),
            Carrier::Wire(wire) => Some(InwardKey::Tag(wire.tag)),
        }
    }
}

impl Keyed for LeaseRow {
    ghost use Rattle.std.specs.Prelude.{◌==◌, ◌&&◌};

    type Key = LeaseKey;

    ghost is_at = { λ key r. (r.tag == key.tag) && (r.mac == key.mac) };

    fn key(&self) -> Option<LeaseKey> {
        Some(LeaseKey {
            tag: self.tag,
            mac: self.mac,
        })
    }
}
