//! The key `drivers`.

ghost use Rattle.std.specs.Prelude.{◌≡◌, IfOk, count_by};
ghost use Rattle.toml.specs.View.{view, table_view};
ghost use Rattle.net_settings.specs.Drivers.{driver_named, drivers_among, is_driver, is_each_once, drivers_of, drivers_in};

use crate::defaults::default_drivers;
use crate::settings::Driver;
use crate::texts::{read_texts, value_at};
use net_addr::{OutOfMemory, Seq, Text};
use std::alloc::Global;
use toml::{Table, Value};

fn driver_named(name: &str) -> Option<Driver>
    ensures { result ≡ driver_named name.now }
{
    if name == "openvswitch" {
        Some(Driver::Openvswitch)
    } else if name == "l2population" {
        Some(Driver::L2population)
    } else {
        None
    }
}

// The drivers, if all names are names of drivers.
fn drivers_among(alloc: Global, names: &[Text]) -> Result<Option<Seq<Driver>>, OutOfMemory>
    ensures { IfOk result (λ r. r ≡ drivers_among names.now) }
{
    let mut drivers = Seq::new(alloc);
    for name in names {
        let Some(driver) = driver_named(name.as_str()) else {
            return Ok(None);
        };
        drivers.push(driver)?;
    }
    Ok(Some(drivers))
}

fn count_of(drivers: &[Driver], driver: Driver) -> usize
    ensures { result ≡ count_by (is_driver driver) drivers.now }
{
    drivers.iter().filter(|d| **d == driver).count()
}

fn is_each_once(drivers: &[Driver]) -> bool
    ensures { result ≡ is_each_once drivers.now }
{
    count_of(drivers, Driver::Openvswitch) <= 1 && count_of(drivers, Driver::L2population) <= 1
}

fn drivers_of(alloc: Global, value: &Value) -> Result<Option<Seq<Driver>>, OutOfMemory>
    ensures { IfOk result (λ r. r ≡ drivers_of (view value.now)) }
{
    let Some(names) = read_texts(alloc, value)? else {
        return Ok(None);
    };
    let Some(drivers) = drivers_among(alloc, names.as_slice())? else {
        return Ok(None);
    };
    if !is_each_once(drivers.as_slice()) {
        return Ok(None);
    }
    Ok(Some(drivers))
}

/// `drivers`, if it keeps its rule.
pub(crate) fn read_drivers(alloc: Global, table: &Table) -> Result<Option<Seq<Driver>>, OutOfMemory>
    ensures { IfOk result (λ r. r ≡ drivers_in (table_view table.now)) }
{
    match value_at(table, "drivers") {
        None => Ok(Some(default_drivers(alloc)?)),
        Some(value) => drivers_of(alloc, value),
    }
}
