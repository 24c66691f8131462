//! What becomes of a frame, as JSON.
ghost use Rattle.std.specs.Prelude.{◌≡◌, IfOk};
ghost use Rattle.json_replies.specs.Verdicts.{hop_tree, lease_tree, ask_answer_tree, cause_word, toward_text, outcome_tree, made_tree, trail_tree, verdict_tree, heard_tree};

use crate::frame::put;
use crate::printed::Prints;
use api_types::{Hop, Lease};
use net_addr::{OutOfMemory, Text};
use plane_types::{AskAnswer, DropCause, Heard, Made, Outcome, Toward, TrailItem, Verdict};
use serde_json::{Map, Value};
use std::alloc::Global;

impl Prints for Hop {
    ghost tree = { hop_tree };

    fn value(&self, alloc: Global) -> Result<Value, OutOfMemory> {
        let mut map = Map::new(alloc);
        put(&mut map, alloc, "destination", &self.destination)?;
        put(&mut map, alloc, "nexthop", &self.next)?;
        Ok(Value::Object(map))
    }
}

impl Prints for Lease {
    ghost tree = { lease_tree };

    fn value(&self, alloc: Global) -> Result<Value, OutOfMemory> {
        let mut map = Map::new(alloc);
        put(&mut map, alloc, "address", &self.address)?;
        put(&mut map, alloc, "gateway", &self.gateway)?;
        put(&mut map, alloc, "host_routes", &self.host_routes)?;
        put(&mut map, alloc, "length", &self.length)?;
        put(&mut map, alloc, "name_servers", &self.name_servers)?;
        Ok(Value::Object(map))
    }
}

impl Prints for AskAnswer {
    ghost tree = { ask_answer_tree };

    fn value(&self, alloc: Global) -> Result<Value, OutOfMemory> {
        match self {
            AskAnswer::Arp { address, mac } => {
                let mut map = Map::new(alloc);
                put(&mut map, alloc, "address", address)?;
                put(&mut map, alloc, "kind", &"Answered")?;
                put(&mut map, alloc, "mac", mac)?;
                Ok(Value::Object(map))
            }
            AskAnswer::Lease(lease) => {
                let mut map = Map::new(alloc);
                put(&mut map, alloc, "kind", &"Answered")?;
                put(&mut map, alloc, "lease", lease)?;
                Ok(Value::Object(map))
            }
        }
    }
}

// The word of a cause.
fn cause_of(cause: DropCause) -> &'static str
    ensures { result.now ≡ cause_word cause }
{
    match cause {
        DropCause::Dead => "Dead",
        DropCause::Unsupported => "Unsupported",
        DropCause::Spoof => "Spoof",
        DropCause::Egress => "Egress",
        DropCause::Ingress => "Ingress",
        DropCause::Unknown => "Unknown",
        DropCause::NoHolder => "NoHolder",
        DropCause::NoLease => "NoLease",
        DropCause::RouterDown => "RouterDown",
        DropCause::Expired => "Expired",
        DropCause::NoRoute => "NoRoute",
        DropCause::TranslationFull => "TranslationFull",
    }
}

// The text of whom a frame goes toward.
fn toward_of(alloc: Global, toward: Toward) -> Result<Text, OutOfMemory>
    ensures { IfOk result (λ t. t ≡ toward_text toward) }
{
    match toward {
        Toward::Mac(mac) => mac.print(alloc),
        Toward::Address(address) => address.print(alloc),
        Toward::Dhcp => Text::of(alloc, "dhcp"),
    }
}

impl Prints for Outcome {
    ghost tree = { outcome_tree };

    fn value(&self, alloc: Global) -> Result<Value, OutOfMemory> {
        match self {
            Outcome::Delivered { port, frame } => {
                let mut map = Map::new(alloc);
                put(&mut map, alloc, "frame", frame)?;
                put(&mut map, alloc, "kind", &"Delivered")?;
                put(&mut map, alloc, "port", port)?;
                Ok(Value::Object(map))
            }
            Outcome::Answered(answer) => answer.value(alloc),
            Outcome::Absorbed { router } => {
                let mut map = Map::new(alloc);
                put(&mut map, alloc, "kind", &"Absorbed")?;
                put(&mut map, alloc, "router", router)?;
                Ok(Value::Object(map))
            }
            Outcome::Out {
                network,
                toward,
                frame,
            } => {
                let mut map = Map::new(alloc);
                put(&mut map, alloc, "frame", frame)?;
                put(&mut map, alloc, "kind", &"Out")?;
                put(&mut map, alloc, "network", network)?;
                put(&mut map, alloc, "toward", &toward_of(alloc, *toward)?)?;
                Ok(Value::Object(map))
            }
            Outcome::Dropped(cause) => {
                let mut map = Map::new(alloc);
                put(&mut map, alloc, "cause", &cause_of(*cause))?;
                put(&mut map, alloc, "kind", &"Dropped")?;
                Ok(Value::Object(map))
            }
        }
    }
}

impl Prints for Made {
    ghost tree = { made_tree };

    fn value(&self, alloc: Global) -> Result<Value, OutOfMemory> {
        self.entry.value(alloc)
    }
}

impl Prints for TrailItem {
    ghost tree = { trail_tree };

    fn value(&self, alloc: Global) -> Result<Value, OutOfMemory> {
        let mut map = Map::new(alloc);
        put(&mut map, alloc, "host", &self.host)?;
        put(&mut map, alloc, "tag", &self.tag)?;
        Ok(Value::Object(map))
    }
}

impl Prints for Verdict {
    ghost tree = { verdict_tree };

    fn value(&self, alloc: Global) -> Result<Value, OutOfMemory> {
        let mut map = Map::new(alloc);
        put(&mut map, alloc, "fresh", &self.fresh)?;
        put(&mut map, alloc, "outcome", &self.outcome)?;
        put(&mut map, alloc, "path", &self.path)?;
        put(&mut map, alloc, "trail", &self.trail)?;
        Ok(Value::Object(map))
    }
}

impl Prints for Heard {
    ghost tree = { heard_tree };

    fn value(&self, alloc: Global) -> Result<Value, OutOfMemory> {
        match *self {
            Heard::Applied { held } => {
                let mut map = Map::new(alloc);
                put(&mut map, alloc, "heard", &"Applied")?;
                put(&mut map, alloc, "held", &held)?;
                Ok(Value::Object(map))
            }
            Heard::Old { held } => {
                let mut map = Map::new(alloc);
                put(&mut map, alloc, "heard", &"Old")?;
                put(&mut map, alloc, "held", &held)?;
                Ok(Value::Object(map))
            }
            Heard::Gap { held } => {
                let mut map = Map::new(alloc);
                put(&mut map, alloc, "heard", &"Gap")?;
                put(&mut map, alloc, "held", &held)?;
                Ok(Value::Object(map))
            }
            Heard::Asleep => {
                let mut map = Map::new(alloc);
                put(&mut map, alloc, "heard", &"Asleep")?;
                put(&mut map, alloc, "held", &None::<u64>)?;
                Ok(Value::Object(map))
            }
        }
    }
}
