// Spans by the strip of lines in which they lie.
ghost use Rattle.std.specs.Prelude.{◌≡◌, ◌≤◌, [], OnOk};
ghost use Rattle.touch_index.specs.steps.Spans.{IsKept, mark_of};
ghost use Rattle.touch_index.specs.steps.Strips.{AddsMarkTo, AddsMetOn, FindsOn, HasSpan, KeepsStrips, KeepsOtherKeys, TakesMark, AreAllProper};

use crate::spans::{Span, SpanSet, Wanted};
use geda_geom::Key;
use std::alloc::{AllocError, Global};
use std::collections::HashMap;

// So many neighbouring lines are one strip: less than the grid of a drawing, so that most strips
// have one line, and enough that lines off the grid don't take a set of spans each.
const STRIP: u32 = 64;

/// Spans on parallel lines, each under a key. What is asked of a line takes time by what lies in
/// its strip, however many strips there are.
#[derive(Drop)]
pub(crate) struct Strips {
    alloc: Global,
    // No set is empty.
    spans: HashMap<u32, SpanSet>,
}

impl Strips {
    /// No spans. It takes no memory.
    pub fn new(alloc: Global) -> Strips
        ensures empty { result.spans.entries ≡ [] }
    {
        Strips {
            alloc,
            spans: HashMap::new(alloc),
        }
    }

    /// Enters a span under a key.
    pub fn enter(&mut self, span: Span, key: Key) -> Result<(), AllocError>
        ensures entered { OnOk result (HasSpan self.new span key) }
        ensures kept { KeepsStrips self.old self.new }
        ensures only { AddsMarkTo (mark_of span key) self.old self.new }
    {
        let strip = span.line / STRIP;
        if let Some(spans) = self.spans.get_mut(&strip) {
            return spans.enter(span, key);
        }
        let mut spans = SpanSet::new(self.alloc);
        spans.enter(span, key)?;
        self.spans.insert(strip, spans)?;
        Ok(())
    }

    /// Takes out a span under a key, and the strip with its last one. It takes no memory.
    pub fn leave(&mut self, span: Span, key: Key)
        ensures kept { KeepsOtherKeys key self.old self.new }
        ensures only { TakesMark (mark_of span key) self.old self.new }
    {
        let strip = span.line / STRIP;
        let Some(spans) = self.spans.get_mut(&strip) else {
            return;
        };
        spans.leave(span, key);
        if spans.is_empty() {
            self.spans.remove(&strip);
        }
    }

    /// Adds the wanted keys of the spans that meet the span: each span of another key that meets it
    /// is one of those, or meets one where not all are wanted.
    pub fn push_meeting(
        &self,
        span: Span,
        wanted: Wanted,
        keys: &mut Vec<Key>,
    ) -> Result<(), AllocError>
        requires from { span.from ≤ span.to }
        requires proper { AreAllProper self.now }
        ensures kept { OnOk result (IsKept keys.old.items keys.new.items) }
        ensures found { OnOk result
            (FindsOn wanted.all self.now wanted.own keys.new.items span) }
        ensures only { OnOk result
            (AddsMetOn self.now span wanted.own keys.old.items keys.new.items) }
    {
        match self.spans.get(&(span.line / STRIP)) {
            Some(spans) => spans.push_meeting(span, wanted, keys),
            None => Ok(()),
        }
    }
}
