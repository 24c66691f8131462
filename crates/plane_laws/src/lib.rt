//! What the tables of hosts make of frames is what the rows say.
//!
//! Laws over the definitions of `plane_types` alone, for consistent rows and hosts that hold them.
//! The functions here do nothing, and their contracts are the laws; crates above cite the
//! definitions, so nothing is proved twice.
#![tactic(auto)]

ghost use Rattle.std.specs.Prelude.{◌≡◌, ◌≤◌, ℕ, Bool, true, false, List, count_by, map};
ghost use Rattle.api_types.specs.Consistent.{IsConsistent};
ghost use Rattle.api_types.specs.Consistent.Named.{is_own_port};
ghost use Rattle.api_types.specs.Lists.{Each};
ghost use Rattle.api_types.specs.RowLists.{RowLists};
ghost use Rattle.api_types.specs.declared.network.Segment.{Segment};
ghost use Rattle.plane_types.specs.Crossing.{CrossesAtRouters};
ghost use Rattle.plane_types.specs.Hosts.{Host, all_entries, is_named};
ghost use Rattle.api_types.specs.Live.{is_live};
ghost use Rattle.plane_types.specs.Attached.{IsAttached};
ghost use Rattle.plane_types.specs.PortSecurity.{AreLetOut, IsLetIn, IsLetOut};
ghost use Rattle.plane_types.specs.Verdicts.{fabric_verdict, fabric_verdicts, hosts_after, hosts_after_all, rows_verdict, rows_verdicts, without_hosts};
ghost use Rattle.plane_types.specs.declared.entry.Entry.{Entry};
ghost use Rattle.plane_types.specs.declared.event.Event.{Event};
ghost use Rattle.plane_laws.specs.Bounds.{HasEightBits, IsBounded};
ghost use Rattle.plane_laws.specs.Held.{HoldRows};

/// Where all hosts hold the rows, what their tables make of an event has exactly the outcome, the
/// path and the fresh entries that the rows give.
pub fn tables_mean_rows()
    ensures { (carries : List ℕ → Segment → Bool) (rows : RowLists) (hosts : List Host)
        → HoldRows carries rows hosts → (event : Event)
        → without_hosts (fabric_verdict hosts event) ≡ rows_verdict rows (all_entries hosts) event }
{}

/// The same for events one after the other, where each host keeps the entries that it made: the
/// verdicts are those that the rows give with all hosts' entries joined, and the hosts hold the
/// rows still.
pub fn event_lists_mean_rows()
    ensures verdicts { (carries : List ℕ → Segment → Bool) (rows : RowLists) (hosts : List Host)
        → HoldRows carries rows hosts → (events : List Event)
        → map without_hosts (fabric_verdicts hosts events)
        ≡ rows_verdicts rows (all_entries hosts) events }
    ensures held { (carries : List ℕ → Segment → Bool) (rows : RowLists) (hosts : List Host)
        → HoldRows carries rows hosts → (events : List Event)
        → HoldRows carries rows (hosts_after_all hosts events) }
{}

/// By any tables, the entries of each host stay placed: each is of a tap or router there, and no
/// two translations can be taken for one another.
pub fn entries_stay_placed()
    ensures { (hosts : List Host) → ((name : List ℕ) → count_by (is_named name) hosts ≤ 1)
        → Each IsAttached hosts → (event : Event) → Each IsAttached (hosts_after hosts event) }
{}

/// A frame crosses between networks only at routers that have live ports on both, and ends on the
/// last network of its path: it is delivered to a port there, absorbed by a router that has a live
/// port there, or leaves that network by a wire. So it is with each of frames one after the other.
pub fn paths_cross_at_routers()
    ensures by_rows { (rows : RowLists) → IsConsistent rows
        → (entries : List Entry) (event : Event)
        → CrossesAtRouters rows (rows_verdict rows entries event) }
    ensures by_tables { (carries : List ℕ → Segment → Bool) (rows : RowLists) (hosts : List Host)
        → HoldRows carries rows hosts → (event : Event)
        → CrossesAtRouters rows (fabric_verdict hosts event) }
    ensures by_lists { (carries : List ℕ → Segment → Bool) (rows : RowLists) (hosts : List Host)
        → HoldRows carries rows hosts → (events : List Event)
        → Each (CrossesAtRouters rows) (fabric_verdicts hosts events) }
{}

/// What is delivered to a secured port is allowed in by a rule of its groups, or answers what a
/// rule lets out. What a secured port sends and isn't dropped passed its guard, and is allowed out
/// by a rule, or answers what a rule lets in. This is so whatever entries there are.
pub fn port_security_holds()
    ensures in_by_rows { (rows : RowLists) → IsConsistent rows
        → (entries : List Entry) (event : Event)
        → IsLetIn rows (rows_verdict rows entries event) }
    ensures in_by_tables { (carries : List ℕ → Segment → Bool) (rows : RowLists)
        (hosts : List Host) → HoldRows carries rows hosts → (event : Event)
        → IsLetIn rows (fabric_verdict hosts event) }
    ensures in_by_lists { (carries : List ℕ → Segment → Bool) (rows : RowLists)
        (hosts : List Host) → HoldRows carries rows hosts → (events : List Event)
        → Each (IsLetIn rows) (fabric_verdicts hosts events) }
    ensures out_by_rows { (rows : RowLists) (entries : List Entry) (event : Event)
        → IsLetOut rows event (rows_verdict rows entries event) }
    ensures out_by_tables { (carries : List ℕ → Segment → Bool) (rows : RowLists)
        (hosts : List Host) → HoldRows carries rows hosts → (event : Event)
        → IsLetOut rows event (fabric_verdict hosts event) }
    ensures out_by_lists { (carries : List ℕ → Segment → Bool) (rows : RowLists)
        (hosts : List Host) → HoldRows carries rows hosts → (events : List Event)
        → AreLetOut rows events (fabric_verdicts hosts events) }
{}

/// The port that holds a floating address is never live, so it needs no case of its own among
/// senders.
pub fn floating_ports_are_down()
    ensures { (rows : RowLists) → IsConsistent rows
        → Each (λ p. is_own_port rows.floatings p.id ≡ true → is_live rows p ≡ false) rows.ports }
{}

/// A packet passes at most 254 routers and makes at most 256 entries, by any rows and by any
/// tables.
pub fn paths_are_bounded()
    ensures by_rows { (rows : RowLists) (entries : List Entry) (event : Event)
        → HasEightBits event → IsBounded (rows_verdict rows entries event) }
    ensures by_tables { (hosts : List Host) (event : Event) → HasEightBits event
        → IsBounded (fabric_verdict hosts event) }
{}
