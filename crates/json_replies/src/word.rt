//! Truth values, numbers, texts, ids and addresses as JSON.
ghost use Rattle.std.specs.Prelude.{◌≡◌, IfOk};
ghost use Rattle.api_types.specs.Printed.{truth, number, word};
ghost use Rattle.json_replies.specs.Frames.{direction_tree, ethertype_tree};
ghost use Rattle.json_trees.specs.Words.{id_tree, address_tree, four_tree, mac_tree, prefix_tree};

use crate::printed::Prints;
use api_types::{Direction, Ethertype, Id};
use net_addr::{Addr, Addr4, Mac, OutOfMemory, Prefix, Text};
use serde_json::Value;
use std::alloc::Global;

impl Prints for bool {
    ghost tree = { truth };

    fn value(&self, _alloc: Global) -> Result<Value, OutOfMemory> {
        Ok(Value::Bool(*self))
    }
}

impl Prints for u8 {
    ghost tree = { number };

    fn value(&self, _alloc: Global) -> Result<Value, OutOfMemory> {
        Ok(Value::from(*self))
    }
}

impl Prints for u16 {
    ghost tree = { number };

    fn value(&self, _alloc: Global) -> Result<Value, OutOfMemory> {
        Ok(Value::from(*self))
    }
}

impl Prints for u32 {
    ghost tree = { number };

    fn value(&self, _alloc: Global) -> Result<Value, OutOfMemory> {
        Ok(Value::from(*self))
    }
}

impl Prints for u64 {
    ghost tree = { number };

    fn value(&self, _alloc: Global) -> Result<Value, OutOfMemory> {
        Ok(Value::from(*self))
    }
}

impl Prints for &str {
    ghost tree = { λ s. word s.now };

    fn value(&self, alloc: Global) -> Result<Value, OutOfMemory> {
        Ok(Value::try_from_str(alloc, *self)?)
    }
}

impl Prints for Text {
    ghost tree = { word };

    fn value(&self, alloc: Global) -> Result<Value, OutOfMemory> {
        Ok(Value::try_from_str(alloc, self.as_str())?)
    }
}

impl Prints for Id {
    ghost tree = { id_tree };

    fn value(&self, alloc: Global) -> Result<Value, OutOfMemory> {
        self.print(alloc)?.value(alloc)
    }
}

impl Prints for Addr {
    ghost tree = { address_tree };

    fn value(&self, alloc: Global) -> Result<Value, OutOfMemory> {
        self.print(alloc)?.value(alloc)
    }
}

impl Prints for Addr4 {
    ghost tree = { four_tree };

    fn value(&self, alloc: Global) -> Result<Value, OutOfMemory> {
        self.print(alloc)?.value(alloc)
    }
}

impl Prints for Mac {
    ghost tree = { mac_tree };

    fn value(&self, alloc: Global) -> Result<Value, OutOfMemory> {
        self.print(alloc)?.value(alloc)
    }
}

impl Prints for Prefix {
    ghost tree = { prefix_tree };

    fn value(&self, alloc: Global) -> Result<Value, OutOfMemory> {
        self.print(alloc)?.value(alloc)
    }
}

impl Prints for Ethertype {
    ghost tree = { ethertype_tree };

    fn value(&self, alloc: Global) -> Result<Value, OutOfMemory> {
        match *self {
            Ethertype::Ipv4 => "IPv4".value(alloc),
            Ethertype::Ipv6 => "IPv6".value(alloc),
        }
    }
}

impl Prints for Direction {
    ghost tree = { direction_tree };

    fn value(&self, alloc: Global) -> Result<Value, OutOfMemory> {
        match self {
            Direction::Ingress => "ingress".value(alloc),
            Direction::Egress => "egress".value(alloc),
        }
    }
}
