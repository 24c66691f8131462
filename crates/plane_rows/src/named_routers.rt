//! Routers by the printed texts of their ids.

ghost use Rattle.std.specs.Prelude.{◌≡◌, ℕ, List, IfOk, find, option_copied, string_bytes};
ghost use Rattle.std.specs.HashMap.{get_by_text};
ghost use Rattle.std.specs.List.{slice_get};
ghost use Rattle.std.specs.Option.{option_and_then};
ghost use Rattle.api_types.specs.Holders.{router_of as router_by_rows};
ghost use Rattle.api_types.specs.Ident.{ident_text};
ghost use Rattle.plane_rows.specs.Named.{is_named};

use api_types::{PortRow, RouterRow, Rows, Shared};
use net_addr::OutOfMemory;
use std::alloc::Global;
use std::collections::HashMap;
use std::marker::Model;

/// Rows, whose routers are looked up by the ports that name them. Contracts see the rows.
#[derive(Drop)]
pub struct NamedRouters<'r> {
    rows: &'r Rows,
    indices: HashMap<String, usize>,
}

impl<'r> Model for NamedRouters<'r> {
    ghost use Rattle.std.specs.Prelude.{◌≡◌, ℕ, List, find};
    ghost use Rattle.std.specs.HashMap.{get_by_text};
    ghost use Rattle.std.specs.List.{slice_get};
    ghost use Rattle.std.specs.Option.{option_and_then};
    ghost use Rattle.api_types.specs.RowLists.{RowLists};
    ghost use Rattle.plane_rows.specs.Named.{is_named};

    ghost Value = { RowLists };

    ghost view = { λ n. n.rows.now };

    ghost invariant = { λ n. (t : List ℕ)
        → option_and_then (slice_get n.rows.now.routers) (get_by_text n.indices t)
        ≡ find (is_named t) n.rows.now.routers };
}

// The text by which ports name a router.
fn name_of(alloc: Global, router: &RouterRow) -> Result<String, OutOfMemory>
    ensures { IfOk result (λ s. string_bytes s ≡ ident_text router.now.id) }
{
    let text = router.id.print(alloc)?;
    Ok(String::from_str(alloc, text.as_str())?)
}

// From the last to the first, so that the place of the first router with a text stays.
fn indices_of(
    alloc: Global,
    routers: &[Shared<RouterRow>],
) -> Result<HashMap<String, usize>, OutOfMemory>
    ensures { IfOk result
        (λ m. (t : List ℕ)
        → option_and_then (slice_get routers.now) (get_by_text m t)
        ≡ find (is_named t) routers.now) }
{
    let mut indices = HashMap::new(alloc);
    let mut left = routers.len();
    while left > 0 {
        left -= 1;
        let router = routers[left].get();
        let name = name_of(alloc, router)?;
        indices.insert(name, left)?;
    }
    Ok(indices)
}

impl<'r> NamedRouters<'r> {
    /// These rows. Its cost grows with the routers.
    pub fn of(alloc: Global, rows: &'r Rows) -> Result<NamedRouters<'r>, OutOfMemory>
        ensures { IfOk result (λ n. n ≡ rows.now) }
    {
        Ok(NamedRouters {
            rows,
            indices: indices_of(alloc, rows.routers().rows())?,
        })
    }

    /// The rows.
    pub fn rows(&self) -> &'r Rows
        ensures { result.now ≡ self.now }
    {
        self.rows
    }

    // The first router whose id is printed so.
    fn find_router(&self, text: &str) -> Option<&'r RouterRow>
        ensures { option_copied result
            ≡ find (is_named text.now) self.now.routers }
    {
        let place = self.indices.get(text).copied()?;
        match self.rows.routers().rows().get(place) {
            Some(router) => Some(router.get()),
            None => None,
        }
    }

    /// The router that a port names by its `device_id`. Its cost doesn't grow with the
    /// routers.
    pub fn router_of(&self, port: &PortRow) -> Option<&'r RouterRow>
        ensures { option_copied result ≡ router_by_rows self.now port.now }
    {
        self.find_router(port.device.as_str())
    }
}
