//! Hosts that route between vxlan networks by copies of routers do what the rows say.
//!
//! Laws over the definitions of `dvr_types` and `plane_types` alone, for consistent rows and hosts
//! whose tables and copies stand for them. The functions here do nothing, and their contracts are
//! the laws.
#![tactic(auto)]

ghost use Rattle.std.specs.Prelude.{◌≡◌, Bool, List, [], ◌∷◌, Some, true};
ghost use Rattle.api_types.specs.Consistent.{IsConsistent};
ghost use Rattle.api_types.specs.RowLists.{RowLists};
ghost use Rattle.api_types.specs.RowsWith.{port_with};
ghost use Rattle.api_types.specs.declared.network.Segment.{Segment};
ghost use Rattle.api_types.specs.declared.port.PortRow.{PortRow};
ghost use Rattle.dvr_laws.specs.Held.{HoldCopies};
ghost use Rattle.dvr_laws.specs.NearPaths.{is_near_all_way};
ghost use Rattle.dvr_types.specs.DvrFabric.{DvrHost, dvr_fate};
ghost use Rattle.dvr_types.specs.DvrVerdicts.{dvr_meaning, dvr_meanings, dvr_meant, dvr_meants, entries_of_hosts, names_of_hosts};
ghost use Rattle.dvr_types.specs.Handlers.{handlers, once_in_a_row};
ghost use Rattle.dvr_types.specs.StandFor.{StandFor};
ghost use Rattle.net_addr.specs.Words.{Text};
ghost use Rattle.plane_types.specs.Meaning.{rows_fate};
ghost use Rattle.plane_types.specs.declared.entry.Entry.{Entry};
ghost use Rattle.plane_types.specs.declared.event.Event.{Event};
ghost use Rattle.plane_types.specs.declared.event.Event.TheVariants.{FromPort};
ghost use Rattle.plane_types.specs.declared.frame.Frame.{Frame};
ghost use Rattle.plane_types.specs.declared.verdict.Outcome.TheVariants.{Delivered};

/// If tables, copies and entries of all hosts stand for the rows, an event has exactly the outcome,
/// the path and the fresh entries that the rows give, and is handled by exactly the hosts that the
/// rows say.
pub fn copies_mean_rows()
    ensures { (rows : RowLists) (hosts : List DvrHost) → StandFor rows hosts → (event : Event)
        → dvr_meant (dvr_fate hosts event)
        ≡ dvr_meaning rows (entries_of_hosts hosts) (names_of_hosts hosts) event }
{}

/// The same for events one after the other at hosts that hold the rows, each of which keeps the
/// entries that it made.
pub fn event_lists_mean_rows()
    ensures { (carries : Text → Segment → Bool) (rows : RowLists) (hosts : List DvrHost)
        → HoldCopies carries rows hosts → (events : List Event)
        → dvr_meants hosts events
        ≡ dvr_meanings rows (entries_of_hosts hosts) (names_of_hosts hosts) events }
{}

/// A frame from one port to another that is near at each router on its way is handled by the hosts
/// of the two ports alone: the sender's, then the receiver's.
pub fn near_frames_pass_two_hosts()
    ensures { (rows : RowLists) → IsConsistent rows → (entries : List Entry) (names : List Text)
        (s q : PortRow) (frame end : Frame) → port_with rows s.id ≡ Some s
        → port_with rows q.id ≡ Some q → is_near_all_way rows entries s frame ≡ true
        → (rows_fate rows entries (FromPort s.id frame)).outcome ≡ Delivered q.id end
        → handlers rows entries names (FromPort s.id frame)
        ≡ once_in_a_row (s.host ∷ q.host ∷ []) }
{}
