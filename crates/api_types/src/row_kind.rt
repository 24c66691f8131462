//! What each kind of row is: its kind, its part of a row of any kind, and its table.

ghost use Rattle.std.specs.Prelude.{◌≡◌, option_copied};
ghost use Rattle.api_types.specs.Parts.{project_of, network_of, subnet_of, port_of, group_of, rule_of, router_of, floating_of, policy_of};

use crate::floating::FloatingRow;
use crate::group::{GroupRow, RuleRow};
use crate::kind::{Kind, Row};
use crate::network::NetworkRow;
use crate::policy::PolicyRow;
use crate::port::PortRow;
use crate::project::ProjectRow;
use crate::router::RouterRow;
use crate::rows::Rows;
use crate::subnet::SubnetRow;
use crate::table::{Keyed, Table};
use net_addr::Same;

/// A kind of row, with the table in which its rows stand.
pub trait RowKind: Keyed + Same {
    ghost use Rattle.std.specs.Prelude.{List, Option};
    ghost use Rattle.api_types.specs.RowLists.{RowLists};
    ghost use Rattle.api_types.specs.declared.kind.Kind.{Kind as TheKind};
    ghost use Rattle.api_types.specs.declared.kind.Row.{Row as TheRow};
    ghost use Rattle.api_types.specs.RowKinds.{IsRowKind};

    ghost kind_is: { TheKind };

    ghost part_of: { TheRow → Option Self };

    ghost into_of: { Self → TheRow };

    ghost list_of: { RowLists → List Self };

    ghost with_list: { RowLists → List Self → RowLists };

    /// The kind.
    fn kind() -> Kind
        ensures { result ≡ kind_is };

    /// The row, where a row of any kind is of this one.
    fn part(row: &Row) -> Option<&Self>
        ensures { option_copied result ≡ part_of row.now };

    /// The row, as one of any kind.
    fn into_row(self) -> Row
        ensures { result ≡ into_of self };

    /// The rows of the kind.
    fn table(rows: &Rows) -> &Table<Self>
        ensures { result.now ≡ list_of rows.now };

    ghost edits: { IsRowKind kind_is into_of list_of with_list part_of Self.id_of };
}

impl RowKind for ProjectRow {
    ghost use Rattle.std.specs.Prelude.{refl};
    ghost use Rattle.api_types.specs.declared.kind.Kind.TheVariants.{Project as KindOf};
    ghost use Rattle.api_types.specs.declared.kind.Row.TheVariants.{Project as RowOf};

    ghost kind_is = { KindOf };

    ghost part_of = { project_of };

    ghost into_of = { RowOf };

    ghost list_of = { λ rows. rows.projects };

    ghost with_list = { λ rows list. record rows { projects = list } };

    fn kind() -> Kind {
        Kind::Project
    }

    fn part(row: &Row) -> Option<&ProjectRow> {
        match row {
            Row::Project(row) => Some(row),
            _ => None,
        }
    }

    fn into_row(self) -> Row {
        Row::Project(self)
    }

    fn table(rows: &Rows) -> &Table<ProjectRow> {
        rows.projects()
    }

    ghost edits = { record {
      part_is = λ r. refl;
      fits = λ rows place old new fits. fits;
      leads = λ rows place old new. refl;
      added = λ rows r. refl;
      put = λ rows r. refl;
      gone = λ rows i. refl;
      itself = λ rows. refl;
    } };
}

impl RowKind for NetworkRow {
    ghost use Rattle.std.specs.Prelude.{refl};
    ghost use Rattle.api_types.specs.declared.kind.Kind.TheVariants.{Network as KindOf};
    ghost use Rattle.api_types.specs.declared.kind.Row.TheVariants.{Network as RowOf};

    ghost kind_is = { KindOf };

    ghost part_of = { network_of };

    ghost into_of = { RowOf };

    ghost list_of = { λ rows. rows.networks };

    ghost with_list = { λ rows list. record rows { networks = list } };

    fn kind() -> Kind {
        Kind::Network
    }

    fn part(row: &Row) -> Option<&NetworkRow> {
        match row {
            Row::Network(row) => Some(row),
            _ => None,
        }
    }

    fn into_row(self) -> Row {
        Row::Network(self)
    }

    fn table(rows: &Rows) -> &Table<NetworkRow> {
        rows.networks()
    }

    ghost edits = { record {
      part_is = λ r. refl;
      fits = λ rows place old new fits. fits;
      leads = λ rows place old new. refl;
      added = λ rows r. refl;
      put = λ rows r. refl;
      gone = λ rows i. refl;
      itself = λ rows. refl;
    } };
}

impl RowKind for SubnetRow {
    ghost use Rattle.std.specs.Prelude.{refl};
    ghost use Rattle.api_types.specs.declared.kind.Kind.TheVariants.{Subnet as KindOf};
    ghost use Rattle.api_types.specs.declared.kind.Row.TheVariants.{Subnet as RowOf};

    ghost kind_is = { KindOf };

    ghost part_of = { subnet_of };

    ghost into_of = { RowOf };

    ghost list_of = { λ rows. rows.subnets };

    ghost with_list = { λ rows list. record rows { subnets = list } };

    fn kind() -> Kind {
        Kind::Subnet
    }

    fn part(row: &Row) -> Option<&SubnetRow> {
        match row {
            Row::Subnet(row) => Some(row),
            _ => None,
        }
    }

    fn into_row(self) -> Row {
        Row::Subnet(self)
    }

    fn table(rows: &Rows) -> &Table<SubnetRow> {
        rows.subnets()
    }

    ghost edits = { record {
      part_is = λ r. refl;
      fits = λ rows place old new fits. fits;
      leads = λ rows place old new. refl;
      added = λ rows r. refl;
      put = λ rows r. refl;
      gone = λ rows i. refl;
      itself = λ rows. refl;
    } };
}

impl RowKind for PortRow {
    ghost use Rattle.std.specs.Prelude.{refl};
    ghost use Rattle.api_types.specs.declared.kind.Kind.TheVariants.{Port as KindOf};
    ghost use Rattle.api_types.specs.declared.kind.Row.TheVariants.{Port as RowOf};

    ghost kind_is = { KindOf };

    ghost part_of = { port_of };

    ghost into_of = { RowOf };

    ghost list_of = { λ rows. rows.ports };

    ghost with_list = { λ rows list. record rows { ports = list } };

    fn kind() -> Kind {
        Kind::Port
    }

    fn part(row: &Row) -> Option<&PortRow> {
        match row {
            Row::Port(row) => Some(row),
            _ => None,
        }
    }

    fn into_row(self) -> Row {
        Row::Port(self)
    }

    fn table(rows: &Rows) -> &Table<PortRow> {
        rows.ports()
    }

    ghost edits = { record {
      part_is = λ r. refl;
      fits = λ rows place old new fits. fits;
      leads = λ rows place old new. refl;
      added = λ rows r. refl;
      put = λ rows r. refl;
      gone = λ rows i. refl;
      itself = λ rows. refl;
    } };
}

impl RowKind for GroupRow {
    ghost use Rattle.std.specs.Prelude.{refl};
    ghost use Rattle.api_types.specs.declared.kind.Kind.TheVariants.{Group as KindOf};
    ghost use Rattle.api_types.specs.declared.kind.Row.TheVariants.{Group as RowOf};

    ghost kind_is = { KindOf };

    ghost part_of = { group_of };

    ghost into_of = { RowOf };

    ghost list_of = { λ rows. rows.groups };

    ghost with_list = { λ rows list. record rows { groups = list } };

    fn kind() -> Kind {
        Kind::Group
    }

    fn part(row: &Row) -> Option<&GroupRow> {
        match row {
            Row::Group(row) => Some(row),
            _ => None,
        }
    }

    fn into_row(self) -> Row {
        Row::Group(self)
    }

    fn table(rows: &Rows) -> &Table<GroupRow> {
        rows.groups()
    }

    ghost edits = { record {
      part_is = λ r. refl;
      fits = λ rows place old new fits. fits;
      leads = λ rows place old new. refl;
      added = λ rows r. refl;
      put = λ rows r. refl;
      gone = λ rows i. refl;
      itself = λ rows. refl;
    } };
}

impl RowKind for RuleRow {
    ghost use Rattle.std.specs.Prelude.{refl};
    ghost use Rattle.api_types.specs.declared.kind.Kind.TheVariants.{Rule as KindOf};
    ghost use Rattle.api_types.specs.declared.kind.Row.TheVariants.{Rule as RowOf};

    ghost kind_is = { KindOf };

    ghost part_of = { rule_of };

    ghost into_of = { RowOf };

    ghost list_of = { λ rows. rows.rules };

    ghost with_list = { λ rows list. record rows { rules = list } };

    fn kind() -> Kind {
        Kind::Rule
    }

    fn part(row: &Row) -> Option<&RuleRow> {
        match row {
            Row::Rule(row) => Some(row),
            _ => None,
        }
    }

    fn into_row(self) -> Row {
        Row::Rule(self)
    }

    fn table(rows: &Rows) -> &Table<RuleRow> {
        rows.rules()
    }

    ghost edits = { record {
      part_is = λ r. refl;
      fits = λ rows place old new fits. fits;
      leads = λ rows place old new. refl;
      added = λ rows r. refl;
      put = λ rows r. refl;
      gone = λ rows i. refl;
      itself = λ rows. refl;
    } };
}

impl RowKind for RouterRow {
    ghost use Rattle.std.specs.Prelude.{refl};
    ghost use Rattle.api_types.specs.declared.kind.Kind.TheVariants.{Router as KindOf};
    ghost use Rattle.api_types.specs.declared.kind.Row.TheVariants.{Router as RowOf};

    ghost kind_is = { KindOf };

    ghost part_of = { router_of };

    ghost into_of = { RowOf };

    ghost list_of = { λ rows. rows.routers };

    ghost with_list = { λ rows list. record rows { routers = list } };

    fn kind() -> Kind {
        Kind::Router
    }

    fn part(row: &Row) -> Option<&RouterRow> {
        match row {
            Row::Router(row) => Some(row),
            _ => None,
        }
    }

    fn into_row(self) -> Row {
        Row::Router(self)
    }

    fn table(rows: &Rows) -> &Table<RouterRow> {
        rows.routers()
    }

    ghost edits = { record {
      part_is = λ r. refl;
      fits = λ rows place old new fits. fits;
      leads = λ rows place old new. refl;
      added = λ rows r. refl;
      put = λ rows r. refl;
      gone = λ rows i. refl;
      itself = λ rows. refl;
    } };
}

impl RowKind for FloatingRow {
    ghost use Rattle.std.specs.Prelude.{refl};
    ghost use Rattle.api_types.specs.declared.kind.Kind.TheVariants.{Floating as KindOf};
    ghost use Rattle.api_types.specs.declared.kind.Row.TheVariants.{Floating as RowOf};

    ghost kind_is = { KindOf };

    ghost part_of = { floating_of };

    ghost into_of = { RowOf };

    ghost list_of = { λ rows. rows.floatings };

    ghost with_list = { λ rows list. record rows { floatings = list } };

    fn kind() -> Kind {
        Kind::Floating
    }

    fn part(row: &Row) -> Option<&FloatingRow> {
        match row {
            Row::Floating(row) => Some(row),
            _ => None,
        }
    }

    fn into_row(self) -> Row {
        Row::Floating(self)
    }

    fn table(rows: &Rows) -> &Table<FloatingRow> {
        rows.floatings()
    }

    ghost edits = { record {
      part_is = λ r. refl;
      fits = λ rows place old new fits. fits;
      leads = λ rows place old new. refl;
      added = λ rows r. refl;
      put = λ rows r. refl;
      gone = λ rows i. refl;
      itself = λ rows. refl;
    } };
}

impl RowKind for PolicyRow {
    ghost use Rattle.std.specs.Prelude.{refl};
    ghost use Rattle.api_types.specs.declared.kind.Kind.TheVariants.{Policy as KindOf};
    ghost use Rattle.api_types.specs.declared.kind.Row.TheVariants.{Policy as RowOf};

    ghost kind_is = { KindOf };

    ghost part_of = { policy_of };

    ghost into_of = { RowOf };

    ghost list_of = { λ rows. rows.policies };

    ghost with_list = { λ rows list. record rows { policies = list } };

    fn kind() -> Kind {
        Kind::Policy
    }

    fn part(row: &Row) -> Option<&PolicyRow> {
        match row {
            Row::Policy(row) => Some(row),
            _ => None,
        }
    }

    fn into_row(self) -> Row {
        Row::Policy(self)
    }

    fn table(rows: &Rows) -> &Table<PolicyRow> {
        rows.policies()
    }

    ghost edits = { record {
      part_is = λ r. refl;
      fits = λ rows place old new fits. fits;
      leads = λ rows place old new. refl;
      added = λ rows r. refl;
      put = λ rows r. refl;
      gone = λ rows i. refl;
      itself = λ rows. refl;
    } };
}
