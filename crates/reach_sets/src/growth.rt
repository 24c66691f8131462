//! Spans that grow from piece to piece.

ghost use Rattle.std.specs.Prelude.{◌≡◌, ◌<◌, IfOk, IfSome, OnOk, false};
ghost use Rattle.reach_sets.specs.Growth.{grown, no_spans};

use crate::spans::{Span, Spans};
use net_addr::OutOfMemory;
use std::alloc::Global;

/// The spans that have ended, and where the one begins that hasn't.
#[derive(Drop)]
pub(crate) struct Growing {
    pub(crate) spans: Spans,
    pub(crate) begun: Option<u32>,
}

impl Growing {
    /// No spans.
    pub(crate) fn new(alloc: Global) -> Growing
        ensures { result ≡ no_spans }
    {
        Growing {
            spans: Spans::new(alloc),
            begun: None,
        }
    }

    /// Adds the piece that begins at `at`, which is reached or not.
    pub(crate) fn add(&mut self, at: u32, reached: bool) -> Result<(), OutOfMemory>
        requires { IfSome self.old.begun (λ first. first < at) }
        ensures { OnOk result (self.new ≡ grown self.old at reached) }
    {
        if reached {
            self.begun = Some(self.begun.unwrap_or(at));
            return Ok(());
        }
        if let Some(first) = self.begun {
            let last = at - 1;
            self.spans.push(Span { first, last })?;
        }
        self.begun = None;
        Ok(())
    }

    /// The spans, of which none goes beyond the end of the numbers.
    pub(crate) fn finish(mut self, end: u32) -> Result<Spans, OutOfMemory>
        requires { IfSome self.begun (λ first. first < end) }
        ensures { IfOk result (λ spans. spans ≡ (grown self end false).spans) }
    {
        self.add(end, false)?;
        Ok(self.spans)
    }
}
