//! Laws of tables: edits at what a change touches lead to the table after it, and are few.

ghost use Rattle.std.specs.Prelude.{◌≡◌, ℕ, Bool, List, Option, Some, false, map, nat_lt, option_and_then};
ghost use Rattle.std.specs.List.{filter_map};
ghost use Rattle.api_types.specs.Holders.{dhcp_port};
ghost use Rattle.api_types.specs.Leases.{lease_for};
ghost use Rattle.api_types.specs.RowLists.{RowLists};
ghost use Rattle.api_types.specs.Rows.{after};
ghost use Rattle.api_types.specs.RowsWith.{router_with};
ghost use Rattle.api_types.specs.declared.change.Item.{Item};
ghost use Rattle.api_types.specs.declared.floating.FloatingRow.{FloatingRow};
ghost use Rattle.api_types.specs.declared.floating.Target.{Target};
ghost use Rattle.api_types.specs.declared.port.PortRow.{PortRow};
ghost use Rattle.api_types.specs.declared.router.RouterRow.{RouterRow};
ghost use Rattle.plane_types.specs.Keyed.{IsTotal, Rises, row_at, rows_by_key};
ghost use Rattle.plane_types.specs.KeyedTables.{FilterKey, SetKey, filter_order, hosted_router, keyed_filters, keyed_floats, keyed_leases, keyed_routers, keyed_sets, keyed_taps, set_order};
ghost use Rattle.plane_types.specs.Numbered.{RowItem, numbered_after, rows_after, with_numbers};
ghost use Rattle.plane_types.specs.NumberedRows.{numbered_rows, numbered_rows_after};
ghost use Rattle.plane_types.specs.TableRows.{filter_rows, float_row_by, float_rows, is_hosted, lease_row, lease_rows, router_rows, set_rows, tap_row, tap_rows};
ghost use Rattle.plane_types.specs.declared.delta.Edit.{Edit};
ghost use Rattle.plane_types.specs.declared.table.FilterRow.{FilterRow};
ghost use Rattle.plane_types.specs.declared.table.FloatRow.{FloatRow};
ghost use Rattle.plane_types.specs.declared.table.LeaseRow.{LeaseRow};
ghost use Rattle.plane_types.specs.declared.table.RouterTable.{RouterTable};
ghost use Rattle.plane_types.specs.declared.table.SetRow.{SetRow};
ghost use Rattle.plane_types.specs.declared.table.TagRow.{TagRow};
ghost use Rattle.plane_types.specs.declared.table.TapRow.{TapRow};
ghost use Rattle.table_edits.specs.EditsAt.{AreEditsAt, KeysDescend, among};
ghost use Rattle.table_edits.specs.Rewires.{Rewires};
ghost use Rattle.table_edits.specs.Untouched.{StaysAlike};

/// Of any keyed tables: edits at keys outside of which two of them agree lead from the rows of the
/// one to those of the other, and write few rows.
pub fn tables_are_rewired<K, R>()
    ensures { (before : K → K → Bool) → IsTotal before → (old new : List (K × R))
        → Rises before old → Rises before new → (ks : List K) (es : List (Edit R))
        → KeysDescend before ks → AreEditsAt before old (λ k. row_at before k new) ks es
        → ((q : K) → among before q ks ≡ false → row_at before q old ≡ row_at before q new)
        → Rewires before old new (map (λ (x : K × R). x.1) old) (map (λ (x : K × R). x.1) new)
        es }
{}

/// Of a table with a row at most for each row of a kind: edits at numbers outside of which the
/// same comes of the rows before and after a change lead from the table to that after it, and
/// write few rows.
pub fn rows_are_rewired<X, R>()
    ensures { (rows : List X) (is : List (RowItem X)) (came comes : X → Option R)
        (ks : List ℕ) (es : List (Edit R)) → KeysDescend nat_lt ks
        → AreEditsAt nat_lt (rows_by_key nat_lt came (with_numbers 0 rows))
        (λ k. option_and_then comes (row_at nat_lt k (numbered_after rows is))) ks es
        → ((k : ℕ) → among nat_lt k ks ≡ false
        → option_and_then came (row_at nat_lt k (with_numbers 0 rows))
        ≡ option_and_then comes (row_at nat_lt k (numbered_after rows is)))
        → Rewires nat_lt (rows_by_key nat_lt came (with_numbers 0 rows))
        (rows_by_key nat_lt comes (numbered_after rows is)) (filter_map came rows)
        (filter_map comes (rows_after rows is)) es }
{}

/// The taps: at all other numbers a port is as before, and its network as up, of the same segment
/// and of the same tag.
pub fn taps_are_rewired()
    ensures { (rows : RowLists) (items : List Item) (host : List ℕ) (old new : List TagRow)
        (ks : List ℕ) (es : List (Edit TapRow)) → KeysDescend nat_lt ks
        → ((k : ℕ) → among nat_lt k ks ≡ false
        → row_at nat_lt k (numbered_rows rows).ports
        ≡ row_at nat_lt k (numbered_rows_after rows items).ports)
        → ((k : ℕ) (p : PortRow) → among nat_lt k ks ≡ false
        → row_at nat_lt k (numbered_rows rows).ports ≡ Some p
        → StaysAlike rows (after rows items) old new p.network)
        → AreEditsAt nat_lt (keyed_taps (numbered_rows rows) host old)
        (λ k. option_and_then (tap_row (after rows items) host new)
        (row_at nat_lt k (numbered_rows_after rows items).ports)) ks es
        → Rewires nat_lt (keyed_taps (numbered_rows rows) host old)
        (keyed_taps (numbered_rows_after rows items) host new) (tap_rows rows host old)
        (tap_rows (after rows items) host new) es }
{}

/// The leases: at all other numbers that holds too, the network is served as before, and the same
/// is leased to the port.
pub fn leases_are_rewired()
    ensures { (rows : RowLists) (items : List Item) (host : List ℕ) (old new : List TagRow)
        (ks : List ℕ) (es : List (Edit LeaseRow)) → KeysDescend nat_lt ks
        → ((k : ℕ) → among nat_lt k ks ≡ false
        → row_at nat_lt k (numbered_rows rows).ports
        ≡ row_at nat_lt k (numbered_rows_after rows items).ports)
        → ((k : ℕ) (p : PortRow) → among nat_lt k ks ≡ false
        → row_at nat_lt k (numbered_rows rows).ports ≡ Some p
        → StaysAlike rows (after rows items) old new p.network)
        → ((k : ℕ) (p : PortRow) → among nat_lt k ks ≡ false
        → row_at nat_lt k (numbered_rows rows).ports ≡ Some p
        → dhcp_port rows p.network ≡ dhcp_port (after rows items) p.network)
        → ((k : ℕ) (p d : PortRow) → among nat_lt k ks ≡ false
        → row_at nat_lt k (numbered_rows rows).ports ≡ Some p
        → lease_for rows d p ≡ lease_for (after rows items) d p)
        → AreEditsAt nat_lt (keyed_leases (numbered_rows rows) host old)
        (λ k. option_and_then (lease_row (after rows items) host new)
        (row_at nat_lt k (numbered_rows_after rows items).ports)) ks es
        → Rewires nat_lt (keyed_leases (numbered_rows rows) host old)
        (keyed_leases (numbered_rows_after rows items) host new) (lease_rows rows host old)
        (lease_rows (after rows items) host new) es }
{}

/// The routers: at all other numbers a router is as before, and so is its row.
pub fn routers_are_rewired()
    ensures { (rows : RowLists) (items : List Item) (host : List ℕ) (old new : List TagRow)
        (ks : List ℕ) (es : List (Edit RouterTable)) → KeysDescend nat_lt ks
        → ((k : ℕ) → among nat_lt k ks ≡ false
        → row_at nat_lt k (numbered_rows rows).routers
        ≡ row_at nat_lt k (numbered_rows_after rows items).routers)
        → ((k : ℕ) (r : RouterRow) → among nat_lt k ks ≡ false
        → row_at nat_lt k (numbered_rows rows).routers ≡ Some r
        → hosted_router (numbered_rows rows) host old r
        ≡ hosted_router (numbered_rows_after rows items) host new r)
        → AreEditsAt nat_lt (keyed_routers (numbered_rows rows) host old)
        (λ k. option_and_then (hosted_router (numbered_rows_after rows items) host new)
        (row_at nat_lt k (numbered_rows_after rows items).routers)) ks es
        → Rewires nat_lt (keyed_routers (numbered_rows rows) host old)
        (keyed_routers (numbered_rows_after rows items) host new) (router_rows rows host old)
        (router_rows (after rows items) host new) es }
{}

/// The floating addresses: at all other numbers one is as before, and the router that it names
/// stands on the host as before.
pub fn floats_are_rewired()
    ensures { (rows : RowLists) (items : List Item) (host : List ℕ)
        (ks : List ℕ) (es : List (Edit FloatRow)) → KeysDescend nat_lt ks
        → ((k : ℕ) → among nat_lt k ks ≡ false
        → row_at nat_lt k (numbered_rows rows).floatings
        ≡ row_at nat_lt k (numbered_rows_after rows items).floatings)
        → ((k : ℕ) (f : FloatingRow) (t : Target) → among nat_lt k ks ≡ false
        → row_at nat_lt k (numbered_rows rows).floatings ≡ Some f → f.target ≡ Some t
        → is_hosted host (router_with rows t.router)
        ≡ is_hosted host (router_with (after rows items) t.router))
        → AreEditsAt nat_lt (keyed_floats (numbered_rows rows) host)
        (λ k. option_and_then
        (λ (f : FloatingRow). float_row_by (after rows items) host f f.target)
        (row_at nat_lt k (numbered_rows_after rows items).floatings)) ks es
        → Rewires nat_lt (keyed_floats (numbered_rows rows) host)
        (keyed_floats (numbered_rows_after rows items) host) (float_rows rows host)
        (float_rows (after rows items) host) es }
{}

/// The filters, by port, group and rule: at all other keys the same row stands before and after.
pub fn filters_are_rewired()
    ensures { (rows : RowLists) (items : List Item) (host : List ℕ)
        (ks : List FilterKey) (es : List (Edit FilterRow)) → KeysDescend filter_order ks
        → AreEditsAt filter_order (keyed_filters (numbered_rows rows) host)
        (λ k. row_at filter_order k (keyed_filters (numbered_rows_after rows items) host)) ks es
        → ((k : FilterKey) → among filter_order k ks ≡ false
        → row_at filter_order k (keyed_filters (numbered_rows rows) host)
        ≡ row_at filter_order k (keyed_filters (numbered_rows_after rows items) host))
        → Rewires filter_order (keyed_filters (numbered_rows rows) host)
        (keyed_filters (numbered_rows_after rows items) host) (filter_rows rows host)
        (filter_rows (after rows items) host) es }
{}

/// The sets, by group and prefix: at all other keys the same row stands before and after.
pub fn sets_are_rewired()
    ensures { (rows : RowLists) (items : List Item) (host : List ℕ)
        (ks : List SetKey) (es : List (Edit SetRow)) → KeysDescend set_order ks
        → AreEditsAt set_order (keyed_sets (numbered_rows rows) host)
        (λ k. row_at set_order k (keyed_sets (numbered_rows_after rows items) host)) ks es
        → ((k : SetKey) → among set_order k ks ≡ false
        → row_at set_order k (keyed_sets (numbered_rows rows) host)
        ≡ row_at set_order k (keyed_sets (numbered_rows_after rows items) host))
        → Rewires set_order (keyed_sets (numbered_rows rows) host)
        (keyed_sets (numbered_rows_after rows items) host)
        (set_rows rows (filter_rows rows host))
        (set_rows (after rows items) (filter_rows (after rows items) host)) es }
{}
