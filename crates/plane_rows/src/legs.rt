//! The live ports of routers by the texts that name these.

ghost use Rattle.std.specs.Prelude.{◌≡◌, ◌++◌, ◌∷◌, ◌&&◌, [], ℕ, List, IfOk, None, OnOk, Some, if◌then◌else◌, map, option_copied};
ghost use Rattle.std.specs.HashMap.{get_by_text};
ghost use Rattle.std.specs.List.{filter};
ghost use Rattle.std.specs.Str.{bytes_eq};
ghost use Rattle.api_types.specs.Live.{is_live as live_by_rows};
ghost use Rattle.api_types.specs.Owners.{is_router_port as router_port_of};
ghost use Rattle.plane_rows.specs.Named.{is_leg_at};

use crate::live::is_live;
use api_types::{PortRow, Rows};
use net_addr::OutOfMemory;
use std::alloc::Global;
use std::collections::HashMap;
use std::marker::Model;

/// Rows, whose live ports of routers are looked up by the text that they have in their `device_id`.
/// Contracts see the rows.
#[derive(Drop)]
pub struct Legs<'r> {
    rows: &'r Rows,
    by_device: HashMap<String, Vec<&'r PortRow>>,
}

impl<'r> Model for Legs<'r> {
    ghost use Rattle.std.specs.Prelude.{◌≡◌, [], ℕ, List, None, Some, map};
    ghost use Rattle.std.specs.HashMap.{get_by_text};
    ghost use Rattle.std.specs.List.{filter};
    ghost use Rattle.api_types.specs.RowLists.{RowLists};
    ghost use Rattle.plane_rows.specs.Named.{is_leg_at};

    ghost Value = { RowLists };

    ghost view = { λ l. l.rows.now };

    ghost invariant = { λ l. (t : List ℕ)
        → elim (get_by_text l.by_device t) [ None ↦ [] | Some v ↦ map (λ p. p.now) v.items ]
        ≡ filter (is_leg_at l.rows.now t) l.rows.now.ports };
}

// Whether a port is a live one of a router.
fn is_any_leg(rows: &Rows, port: &PortRow) -> bool
    ensures { result ≡ (router_port_of port.now.owner && live_by_rows rows.now port.now) }
{
    port.is_router_port() && is_live(rows, port)
}

// Takes the ports with a device out.
fn take_ports<'r>(
    alloc: Global,
    by_device: &mut HashMap<String, Vec<&'r PortRow>>,
    device: &str,
) -> Vec<&'r PortRow>
    ensures listed { map (λ p. p.now) result.items
        ≡ elim (get_by_text by_device.old device.now)
        [ None ↦ [] | Some v ↦ map (λ p. p.now) v.items ] }
    ensures rest { (t : List ℕ)
        → get_by_text by_device.new t ≡ if bytes_eq device.now t then None
        else get_by_text by_device.old t }
{
    match by_device.remove(device) {
        Some(ports) => ports,
        None => Vec::new(alloc),
    }
}

// Adds a port to those with its device, last.
fn add_port<'r>(
    alloc: Global,
    by_device: &mut HashMap<String, Vec<&'r PortRow>>,
    port: &'r PortRow,
) -> Result<(), OutOfMemory>
    ensures { OnOk result
        ((t : List ℕ)
        → elim (get_by_text by_device.new t) [ None ↦ [] | Some v ↦ map (λ p. p.now) v.items ]
        ≡ elim (get_by_text by_device.old t)
        [ None ↦ [] | Some v ↦ map (λ p. p.now) v.items ]
        ++ (if bytes_eq port.now.device t then port.now ∷ [] else [])) }
{
    let device = String::from_str(alloc, port.device.as_str())?;
    let mut ports = take_ports(alloc, by_device, port.device.as_str());
    ports.push(port)?;
    by_device.insert(device, ports)?;
    Ok(())
}

// The live ports of routers by their devices.
fn ports_by_device<'r>(
    alloc: Global,
    rows: &'r Rows,
) -> Result<HashMap<String, Vec<&'r PortRow>>, OutOfMemory>
    ensures { IfOk result
        (λ m. (t : List ℕ)
        → elim (get_by_text m t) [ None ↦ [] | Some v ↦ map (λ p. p.now) v.items ]
        ≡ filter (is_leg_at rows.now t) rows.now.ports) }
{
    let mut by_device = HashMap::new(alloc);
    for port in rows.ports().rows() {
        if is_any_leg(rows, port) {
            add_port(alloc, &mut by_device, port.get())?;
        }
    }
    Ok(by_device)
}

impl<'r> Legs<'r> {
    /// These rows. Its cost grows with the ports.
    pub fn of(alloc: Global, rows: &'r Rows) -> Result<Legs<'r>, OutOfMemory>
        ensures { IfOk result (λ l. l ≡ rows.now) }
    {
        Ok(Legs {
            rows,
            by_device: ports_by_device(alloc, rows)?,
        })
    }

    /// The rows.
    pub fn rows(&self) -> &'r Rows
        ensures { result.now ≡ self.now }
    {
        self.rows
    }

    /// The live ports of the router whose id is printed so, in order of creation. Its cost is the
    /// same however many ports and routers there are.
    pub fn ports_of(&self, router: &str) -> Option<&Vec<&'r PortRow>>
        ensures { elim (option_copied result) [ None ↦ [] | Some v ↦ map (λ p. p.now) v.items ]
            ≡ filter (is_leg_at self.now router.now) self.now.ports }
    {
        self.by_device.get(router)
    }
}
