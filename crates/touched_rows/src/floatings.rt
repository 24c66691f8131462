//! The floating addresses that a change touches.

ghost use Rattle.std.specs.Prelude.{◌≡◌, ◌||◌, ◌++◌, IfOk, OnOk, Some, false, nat_lt, option_copied};
ghost use Rattle.std.specs.HashSet.{contains};
ghost use Rattle.api_types.specs.Ident.{Ident};
ghost use Rattle.api_types.specs.Table.{ident_eq};
ghost use Rattle.api_types.specs.declared.floating.FloatingRow.{FloatingRow as TheFloating};
ghost use Rattle.api_types.specs.declared.floating.Target.{Target as TheTarget};
ghost use Rattle.api_types.specs.declared.router.RouterRow.{RouterRow as TheRouter};
ghost use Rattle.table_edits.specs.EditsAt.{KeysDescend, among};
ghost use Rattle.table_edits.specs.NumbersSeen.{at_after, at_before};
ghost use Rattle.touched_rows.specs.TouchedNumbers.{is_by, is_router, names_any, numbers_from};

use api_types::{FloatingRow, Id, RouterRow, Shared};
use net_addr::OutOfMemory;
use std::alloc::Global;
use std::collections::HashSet;
use table_edits::{Numbers, descending};

// Adds the id of a router.
fn add_id(ids: &mut HashSet<Id>, router: Option<&RouterRow>) -> Result<(), OutOfMemory>
    ensures { OnOk result
        ((n : Ident)
        → contains ident_eq ids.new n
        ≡ (contains ident_eq ids.old n || is_router n (option_copied router.entry))) }
{
    if let Some(router) = router {
        ids.insert(router.id)?;
    }
    Ok(())
}

// The ids of the routers with these numbers, before and after a change.
fn ids_of(
    alloc: Global,
    routers: &Numbers<RouterRow>,
    numbers: &[usize],
) -> Result<HashSet<Id>, OutOfMemory>
    ensures { IfOk result
        (λ s. (n : Ident) → contains ident_eq s n ≡ names_any routers.now numbers.now n) }
{
    let mut ids = HashSet::new(alloc);
    for number in numbers {
        add_id(&mut ids, routers.row(*number))?;
        add_id(&mut ids, routers.row_after(*number))?;
    }
    Ok(ids)
}

// Whether a floating address is associated by one of these routers.
fn is_by_any(floating: &FloatingRow, routers: &HashSet<Id>) -> bool
    ensures { result ≡ is_by (contains ident_eq routers.now) floating.now }
{
    match floating.target {
        Some(target) => routers.contains(&target.router),
        None => false,
    }
}

// Adds the numbers of the floating addresses that are associated by these routers.
fn add_floatings_by(
    numbers: &mut Vec<usize>,
    floatings: &[Shared<FloatingRow>],
    routers: &HashSet<Id>,
) -> Result<(), OutOfMemory>
    ensures { OnOk result
        (numbers.new.items
        ≡ numbers.old.items
        ++ numbers_from (is_by (contains ident_eq routers.now)) 0 floatings.now) }
{
    if routers.is_empty() {
        return Ok(());
    }
    for number in 0..floatings.len() {
        if is_by_any(floatings[number].get(), routers) {
            numbers.push(number)?;
        }
    }
    Ok(())
}

/// The numbers of the floating addresses that a change touches, from the greatest to the least:
/// those that it names, and those that name a touched router. Its cost grows with the items, and
/// with the floating addresses where a router is touched.
pub fn touched_floatings(
    alloc: Global,
    floatings: &Numbers<FloatingRow>,
    routers: &Numbers<RouterRow>,
    touched: &[usize],
) -> Result<Vec<usize>, OutOfMemory>
    ensures down { IfOk result (λ ks. KeysDescend nat_lt ks.items) }
    ensures named { IfOk result
        (λ ks. (k : _) → among nat_lt k ks.items ≡ false
        → at_before floatings.now k ≡ at_after floatings.now k) }
    ensures routers_before { IfOk result
        (λ ks. (k j : _) (f : TheFloating) (t : TheTarget) (r : TheRouter)
        → among nat_lt k ks.items ≡ false → at_before floatings.now k ≡ Some f
        → f.target ≡ Some t → at_before routers.now j ≡ Some r → r.id ≡ t.router
        → among nat_lt j touched.now ≡ false) }
    ensures routers_after { IfOk result
        (λ ks. (k j : _) (f : TheFloating) (t : TheTarget) (r : TheRouter)
        → among nat_lt k ks.items ≡ false → at_before floatings.now k ≡ Some f
        → f.target ≡ Some t → at_after routers.now j ≡ Some r → r.id ≡ t.router
        → among nat_lt j touched.now ≡ false) }
{
    let mut numbers = Vec::from_slice(alloc, floatings.named())?;
    let ids = ids_of(alloc, routers, touched)?;
    add_floatings_by(&mut numbers, floatings.rows(), &ids)?;
    descending(alloc, numbers)
}
