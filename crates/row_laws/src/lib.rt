//! How the edits that calls make keep rows consistent.
//!
//! For each kind of row what one more, a changed one or fewer do to each clause of consistency,
//! then whole consistency for the edits of calls. Crates above cite the lemmas in proofs/; the
//! functions here do nothing, and their contracts are the laws. It stands on the rows of
//! `api_types` alone.
#![tactic(auto)]

ghost use Rattle.std.specs.Prelude.{◌≡◌, ◌+◌, ◌<◌, ◌≤◌, ◌^◌, ℕ, Bool, true, false, List, Some, not, slice_get, filter};
ghost use Rattle.net_addr.specs.declared.address.Addr.{Addr};
ghost use Rattle.api_types.specs.Ident.{Ident, IsDrawable};
ghost use Rattle.api_types.specs.Lists.{Each, is_empty};
ghost use Rattle.api_types.specs.Owners.{is_port_of};
ghost use Rattle.api_types.specs.Registration.{Drawing, draw_of};
ghost use Rattle.api_types.specs.RowLists.{RowLists};
ghost use Rattle.api_types.specs.Table.{ident_eq};
ghost use Rattle.api_types.specs.Rows.{AreTables};
ghost use Rattle.api_types.specs.Consistent.{IsConsistent};
ghost use Rattle.api_types.specs.Consistent.Numbered.{times_in};
ghost use Rattle.api_types.specs.Consistent.InForm.{is_subnet_form};
ghost use Rattle.api_types.specs.declared.network.NetworkRow.{NetworkRow};
ghost use Rattle.api_types.specs.declared.subnet.SubnetRow.{SubnetRow};
ghost use Rattle.api_types.specs.declared.port.PortRow.{PortRow};
ghost use Rattle.api_types.specs.declared.group.GroupRow.{GroupRow};
ghost use Rattle.api_types.specs.declared.group.RuleRow.{RuleRow};
ghost use Rattle.api_types.specs.declared.router.RouterRow.{RouterRow};
ghost use Rattle.api_types.specs.declared.router.Gateway.{Gateway};
ghost use Rattle.api_types.specs.declared.floating.FloatingRow.{FloatingRow};
ghost use Rattle.api_types.specs.declared.policy.PolicyRow.{PolicyRow};
ghost use Rattle.row_laws.specs.NewRows.{with_network, with_subnet, with_port, with_group, with_rule, with_router, with_policy, IsNewSubnet, IsNewPort, IsNewGroup, IsNewRule, IsNewRouter, IsNewPolicy};
ghost use Rattle.row_laws.specs.Replaced.{with_network_at, with_subnet_at, with_port_at, with_group_at, with_rule_at, with_router_at, with_floating_at, with_policy_at, IsRenamedNetwork, IsReplacedSubnet, IsReplacedPort, IsRenamedPort, IsRenamedGroup, IsRedescribedRule, IsReplacedRouter, IsRerouted, IsReplacedFloating, IsRedirected, IsRetargetedPolicy};
ghost use Rattle.row_laws.specs.Gone.{with_subnets_kept, with_ports_kept, with_rules_kept, with_routers_kept, with_policies_kept, without_network, without_group, IsUnusedSubnet, IsOfNoUse, IsUnused, IsUnusedGroup, IsUnusedRouter, ArePermittedStill};
ghost use Rattle.row_laws.specs.Leased.{leased_at, leased_by_new, outside, unleased_at, BeginsLeased, EndsLeased, IsNewDhcpPort};
ghost use Rattle.row_laws.specs.Gateways.{with_gateway_on, with_gateway_off, without_router, IsNewGateway, IsFreeGateway, HasNoInterface};
ghost use Rattle.row_laws.specs.Interfaces.{IsNewInterface, IsTakenOver, IsFreeInterface};
ghost use Rattle.row_laws.specs.OwnPorts.{with_own_port, without_floating, with_floatings_freed, IsNewFloating};
ghost use Rattle.row_laws.specs.Drawn.{IsDrawing, AreNew};
ghost use Rattle.row_laws.specs.NewNetwork.{IsMadeNetwork};

/// In consistent rows no two of a kind have the same id.
pub fn consistent_rows_are_tables()
    ensures { (rows : RowLists) → IsConsistent rows → AreTables rows }
{}

/// Ids drawn for a project with a name, which is registered with its default group where it is new,
/// leave rows consistent and are no row's.
pub fn drawing_keeps()
    ensures kept { (rows : RowLists) (name : List ℕ) (many : ℕ) (d : Drawing) → IsConsistent rows
        → not (is_empty name) ≡ true → 5 + many < 2 ^ 62 → draw_of rows name many ≡ Some d
        → IsDrawing rows name many d }
    ensures new_ids { (rows : RowLists) (name : List ℕ) (many : ℕ) (d : Drawing)
        → IsConsistent rows → not (is_empty name) ≡ true → 5 + many < 2 ^ 62
        → draw_of rows name many ≡ Some d → AreNew many d }
{}

/// A network that is made for a project leaves rows consistent.
pub fn network_created_keeps()
    ensures { (rows : RowLists) (name : List ℕ) (many : ℕ) (d : Drawing) (n : NetworkRow)
        → IsConsistent rows → not (is_empty name) ≡ true → 1 ≤ many → 5 + many < 2 ^ 62
        → draw_of rows name many ≡ Some d → IsMadeNetwork rows name d n
        → IsConsistent (with_network d.rows n) }
{}

/// A network that is given another name, description or state leaves rows consistent, and so does
/// one that goes with its subnets, its policies and its DHCP port.
pub fn network_edits_keep()
    ensures replaced { (rows : RowLists) (place : ℕ) (old new : NetworkRow) → IsConsistent rows
        → slice_get rows.networks place ≡ Some old → IsRenamedNetwork old new
        → IsConsistent (with_network_at rows place new) }
    ensures gone { (rows : RowLists) (i : Ident) → IsConsistent rows → IsUnused rows i
        → IsConsistent (without_network rows i) }
{}

/// A port of no service that is added, changed or taken out leaves rows consistent, and so does a
/// port of any owner that is given another name or description.
pub fn port_edits_keep()
    ensures pushed { (rows : RowLists) (p : PortRow) → IsConsistent rows → IsNewPort rows p
        → IsConsistent (with_port rows p) }
    ensures replaced { (rows : RowLists) (place : ℕ) (old new : PortRow) → IsConsistent rows
        → slice_get rows.ports place ≡ Some old → IsReplacedPort rows place old new
        → IsConsistent (with_port_at rows place new) }
    ensures renamed { (rows : RowLists) (place : ℕ) (old new : PortRow) → IsConsistent rows
        → slice_get rows.ports place ≡ Some old → IsRenamedPort old new
        → IsConsistent (with_port_at rows place new) }
    ensures gone { (rows : RowLists) (keep : PortRow → Bool) → IsConsistent rows
        → Each (λ p. keep p ≡ false → IsOfNoUse rows.floatings p) rows.ports
        → IsConsistent (with_ports_kept keep rows) }
{}

/// A subnet without DHCP that is added, a subnet that is changed and subnets that nothing uses and
/// that go leave rows consistent.
pub fn subnet_edits_keep()
    ensures pushed { (rows : RowLists) (s : SubnetRow) → IsConsistent rows → IsNewSubnet rows s
        → IsConsistent (with_subnet rows s) }
    ensures replaced { (rows : RowLists) (place : ℕ) (old new : SubnetRow) → IsConsistent rows
        → slice_get rows.subnets place ≡ Some old → IsReplacedSubnet rows.ports old new
        → new.dhcp ≡ old.dhcp → is_subnet_form new ≡ true
        → IsConsistent (with_subnet_at rows place new) }
    ensures gone { (rows : RowLists) (keep : SubnetRow → Bool) → IsConsistent rows
        → Each (λ s. keep s ≡ false → IsUnusedSubnet rows.ports s) rows.subnets
        → IsConsistent (with_subnets_kept keep rows) }
{}

/// A subnet that begins to be leased by DHCP leaves rows consistent, where its network's DHCP port
/// takes a free address of it, or a new DHCP port does. So does a subnet that is leased no more,
/// where the port gives its address there back, or goes with its last one.
pub fn dhcp_edits_keep()
    ensures begun { (rows : RowLists) (place k : ℕ) (old new : SubnetRow) (p : PortRow) (x : Addr)
        → IsConsistent rows → slice_get rows.subnets place ≡ Some old
        → slice_get rows.ports k ≡ Some p → BeginsLeased rows old new p x
        → IsConsistent (leased_at rows place new k p x) }
    ensures begun_by_new { (rows : RowLists) (place : ℕ) (old new : SubnetRow) (p : PortRow)
        (x : Addr) → IsConsistent rows → slice_get rows.subnets place ≡ Some old
        → IsNewDhcpPort rows p → BeginsLeased rows old new p x
        → IsConsistent (leased_by_new rows place new p x) }
    ensures ended { (rows : RowLists) (place k : ℕ) (old new : SubnetRow) (p : PortRow)
        → IsConsistent rows → slice_get rows.subnets place ≡ Some old
        → slice_get rows.ports k ≡ Some p → EndsLeased rows old new p
        → IsConsistent (unleased_at rows place new k p (outside old.id p.fixed)) }
{}

/// A router without gateway and routes that is added, a router that is changed but for the network
/// and the port of its gateway, and routers that nothing uses and that go leave rows consistent.
pub fn router_edits_keep()
    ensures pushed { (rows : RowLists) (r : RouterRow) → IsConsistent rows → IsNewRouter rows r
        → IsConsistent (with_router rows r) }
    ensures replaced { (rows : RowLists) (place : ℕ) (old new : RouterRow) → IsConsistent rows
        → slice_get rows.routers place ≡ Some old → IsReplacedRouter old new
        → IsRerouted rows old new → IsConsistent (with_router_at rows place new) }
    ensures gone { (rows : RowLists) (keep : RouterRow → Bool) → IsConsistent rows
        → Each (λ r. keep r ≡ false → IsUnusedRouter rows.ports rows.floatings r) rows.routers
        → IsConsistent (with_routers_kept keep rows) }
{}

/// In consistent rows no port names a router of a new id, where ids are drawable ones, whose texts
/// differ.
pub fn new_routers_are_unnamed()
    ensures { (rows : RowLists) (r : RouterRow) → IsConsistent rows → times_in rows r.id ≡ 0
        → IsDrawable r.id → Each (λ q. IsDrawable q.id) rows.routers
        → Each (λ p. is_port_of r p ≡ false) rows.ports }
{}

/// A gateway that a router gets with its port, one that it loses with its port, and a router
/// without interfaces that goes with its gateway's port leave rows consistent.
pub fn gateway_edits_keep()
    ensures on { (rows : RowLists) (place : ℕ) (r : RouterRow) (p : PortRow) (snat : Bool)
        → IsConsistent rows → slice_get rows.routers place ≡ Some r → IsNewGateway rows r p
        → IsConsistent (with_gateway_on rows place r p snat) }
    ensures off { (rows : RowLists) (place : ℕ) (r : RouterRow) (g : Gateway) → IsConsistent rows
        → slice_get rows.routers place ≡ Some r → IsFreeGateway rows r g
        → IsConsistent (with_gateway_off rows place r g) }
    ensures gone { (rows : RowLists) (place : ℕ) (r : RouterRow) → IsConsistent rows
        → slice_get rows.routers place ≡ Some r → HasNoInterface rows.ports r
        → IsConsistent (without_router rows r) }
{}

/// A router's new interface, a port that is taken over as one, and one that goes leave rows
/// consistent.
pub fn interface_edits_keep()
    ensures pushed { (rows : RowLists) (place : ℕ) (r : RouterRow) (p : PortRow)
        → IsConsistent rows → slice_get rows.routers place ≡ Some r → IsNewInterface rows r p
        → IsConsistent (with_port rows p) }
    ensures replaced { (rows : RowLists) (place k : ℕ) (r : RouterRow) (old new : PortRow)
        → IsConsistent rows → slice_get rows.routers place ≡ Some r
        → slice_get rows.ports k ≡ Some old → IsTakenOver rows r old new
        → IsConsistent (with_port_at rows k new) }
    ensures gone { (rows : RowLists) (place k : ℕ) (r : RouterRow) (p : PortRow)
        → IsConsistent rows → slice_get rows.routers place ≡ Some r
        → slice_get rows.ports k ≡ Some p → IsFreeInterface rows r p
        → IsConsistent (with_ports_kept (λ q. not (ident_eq p.id q.id)) rows) }
{}

/// A floating address that is added or goes with the port that holds it, one that is led elsewhere,
/// or nowhere, and any that are disassociated leave rows consistent.
pub fn floating_edits_keep()
    ensures pushed { (rows : RowLists) (f : FloatingRow) (p : PortRow) → IsConsistent rows
        → IsNewFloating rows f p → IsConsistent (with_own_port rows f p) }
    ensures replaced { (rows : RowLists) (place : ℕ) (old new : FloatingRow) → IsConsistent rows
        → slice_get rows.floatings place ≡ Some old → IsReplacedFloating old new
        → IsRedirected rows place new → IsConsistent (with_floating_at rows place new) }
    ensures gone { (rows : RowLists) (place : ℕ) (f : FloatingRow) → IsConsistent rows
        → slice_get rows.floatings place ≡ Some f → IsConsistent (without_floating rows f) }
    ensures freed { (rows : RowLists) (test : FloatingRow → Bool) → IsConsistent rows
        → IsConsistent (with_floatings_freed test rows) }
{}

/// A policy that is added leaves rows consistent, and so do one that is changed and policies that
/// go where what was permitted to rows that stand still is.
pub fn policy_edits_keep()
    ensures pushed { (rows : RowLists) (l : PolicyRow) → IsConsistent rows → IsNewPolicy rows l
        → IsConsistent (with_policy rows l) }
    ensures replaced { (rows : RowLists) (place : ℕ) (old new : PolicyRow) → IsConsistent rows
        → slice_get rows.policies place ≡ Some old → IsRetargetedPolicy rows place old new
        → IsConsistent (with_policy_at rows place new) }
    ensures gone { (rows : RowLists) (keep : PolicyRow → Bool) → IsConsistent rows
        → ArePermittedStill rows (filter keep rows.policies)
        → IsConsistent (with_policies_kept keep rows) }
{}

/// A group that is added leaves rows consistent, and so do one that is given another name or
/// description and one that goes with its rules.
pub fn group_edits_keep()
    ensures pushed { (rows : RowLists) (g : GroupRow) → IsConsistent rows → IsNewGroup rows g
        → IsConsistent (with_group rows g) }
    ensures replaced { (rows : RowLists) (place : ℕ) (old new : GroupRow) → IsConsistent rows
        → slice_get rows.groups place ≡ Some old → IsRenamedGroup old new
        → IsConsistent (with_group_at rows place new) }
    ensures gone { (rows : RowLists) (i : Ident) → IsConsistent rows → IsUnusedGroup rows i
        → IsConsistent (without_group rows i) }
{}

/// A rule that is added, one that is given another description, and rules that go leave rows
/// consistent.
pub fn rule_edits_keep()
    ensures pushed { (rows : RowLists) (r : RuleRow) → IsConsistent rows → IsNewRule rows r
        → IsConsistent (with_rule rows r) }
    ensures replaced { (rows : RowLists) (place : ℕ) (old new : RuleRow) → IsConsistent rows
        → slice_get rows.rules place ≡ Some old → IsRedescribedRule old new
        → IsConsistent (with_rule_at rows place new) }
    ensures gone { (rows : RowLists) (keep : RuleRow → Bool) → IsConsistent rows
        → IsConsistent (with_rules_kept keep rows) }
{}
