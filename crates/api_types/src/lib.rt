//! Ids, rows of all kinds, changes, calls and answers.
//!
//! What the Networking API keeps and says. It stands on `net_addr`, `uuid` and `indexmap`. `Rows`
//! is seen as a record of nine lists in order of creation. A change is put into rows, and taken
//! back, exactly as its definition says, or nothing changes. Beside the rows stand the questions
//! that many ask of them: whose a port is and what it holds, what policies let projects use, which
//! of two goes first; in specs/ what consistent rows are, and what frames and rows ask alike.
#![tactic(auto)]

mod answer;
mod call;
mod change;
mod counts;
mod edit;
mod fits;
mod floating;
mod form;
mod group;
mod holding;
mod id;
mod kind;
mod lease;
mod network;
mod order;
mod owners;
mod page;
mod policy;
mod port;
mod project;
mod refusal;
mod route;
mod router;
mod row_kind;
mod rows;
mod shared;
mod sharing;
mod subnet;
mod table;
mod wire;

pub use answer::{Answer, MemberName, Members, Printed, Shown, ShownList};
pub use call::{Call, Caller, Filter, IdText, InterfaceBy, Query};
pub use change::{Change, Item};
pub use fits::FitsRows;
pub use floating::{FloatingRow, Target};
pub use form::{
    FixedAsked, FloatingForm, Form, GatewayAsked, Given, GroupForm, IpVersion, NetworkForm,
    NetworkType, ObjectType, PairAsked, PolicyForm, PortForm, RouterForm, RuleForm, SubnetForm,
    VnicType,
};
pub use group::{Direction, Ethertype, GroupRow, RuleRow};
pub use id::Id;
pub use kind::{Kind, Row};
pub use lease::Lease;
pub use network::{NetworkRow, Segment};
pub use order::{Ordered, ascending};
pub use page::{PageRow, PageRows};
pub use policy::{Action, PolicyRow};
pub use port::{Fixed, FixedList, Pair, PortRow, Vif};
pub use project::ProjectRow;
pub use refusal::{PolicyRule, Refusal, UseRule, Value};
pub use route::RouteRank;
pub use router::{Gateway, RouterRow};
pub use row_kind::RowKind;
pub use rows::Rows;
pub use shared::Shared;
pub use subnet::{Hop, Ipv6Mode, Routes, SubnetRow};
pub use table::{Keyed, Table};
pub use wire::Wire;
