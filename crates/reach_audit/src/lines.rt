//! The lines of an audit.

ghost use Rattle.std.specs.Prelude.{◌≡◌, IfOk, string_bytes};
ghost use Rattle.std.specs.List.{list_all};
ghost use Rattle.reach_audit.specs.AuditLines.{broken_line, held_line, holds, line_of, lines_of, shown_text};

use crate::event_body::print_event;
use net_addr::OutOfMemory;
use plane_types::Event;
use reach_sets::Judgement;
use std::alloc::Global;
use wanted_files::WantedReach;

fn print_held(alloc: Global, name: &str) -> Result<String, OutOfMemory>
    ensures { IfOk result (λ s. string_bytes s ≡ held_line name.now) }
{
    let mut line = String::new(alloc);
    line.push_str("ok ")?;
    line.push_str(name)?;
    line.push_str("\n")?;
    Ok(line)
}

// The event that shows it, as a body, or that there is none.
fn print_shown(alloc: Global, event: &Option<Event>) -> Result<String, OutOfMemory>
    ensures { IfOk result (λ s. string_bytes s ≡ shown_text event.now) }
{
    match event {
        Some(event) => print_event(alloc, event),
        None => {
            let mut text = String::new(alloc);
            text.push_str("none")?;
            Ok(text)
        }
    }
}

fn print_broken(alloc: Global, name: &str, event: &Option<Event>) -> Result<String, OutOfMemory>
    ensures { IfOk result (λ s. string_bytes s ≡ broken_line name.now event.now) }
{
    let shown = print_shown(alloc, event)?;
    let mut line = String::new(alloc);
    line.push_str("fail ")?;
    line.push_str(name)?;
    line.push_str(" ")?;
    line.push_str(shown.as_str())?;
    line.push_str("\n")?;
    Ok(line)
}

fn print_line(alloc: Global, name: &str, judgement: &Judgement) -> Result<String, OutOfMemory>
    ensures { IfOk result (λ s. string_bytes s ≡ line_of name.now judgement.now) }
{
    match judgement {
        Judgement::Held => print_held(alloc, name),
        Judgement::Broken { event } => print_broken(alloc, name, event),
    }
}

/// A line for each table and what became of it, in order. Its cost grows with the tables.
pub(crate) fn print_lines(
    alloc: Global,
    wanted: &[WantedReach],
    judged: &[Judgement],
) -> Result<String, OutOfMemory>
    ensures { IfOk result (λ s. string_bytes s ≡ lines_of wanted.now judged.now) }
{
    let mut lines = String::new(alloc);
    for (table, judgement) in wanted.iter().zip(judged) {
        let line = print_line(alloc, table.name.as_str(), judgement)?;
        lines.push_str(line.as_str())?;
    }
    Ok(lines)
}

fn holds(judgement: &Judgement) -> bool
    ensures { result ≡ holds judgement.now }
{
    match judgement {
        Judgement::Held => true,
        Judgement::Broken { .. } => false,
    }
}

/// Whether each table holds.
pub(crate) fn all_hold(judged: &[Judgement]) -> bool
    ensures { result ≡ list_all holds judged.now }
{
    judged.iter().all(|judgement| holds(judgement))
}
