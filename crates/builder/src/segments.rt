// The open segment: where its next instruction goes, its targets, its loops' breaks, and its start and end.
ghost use Rattle.std.specs.Prelude.{◌≡◌, ◌-◌};
ghost use Rattle.builder.specs.Done.{Did};
ghost use Rattle.builder.specs.Steps.{still};
ghost use Rattle.builder.specs.Segments.{within, targeted, breaks_resolved, opened, closed};

use crate::{Builder, State};
use code::segment::{self, Ends};

impl<R: Copy + Drop> State<R> {
    // Where the next instruction goes, counted from the segment's start.
    pub fn place(&self) -> u16
        ensures { result ≡ self.now.code.top - self.now.code.base }
    {
        self.code.top.saturating_sub(self.code.base)
    }

    // A place of the open segment as one of the open code; none lies past 65535.
    fn absolute(&self, at: u16) -> u16
        ensures { result ≡ within self.now.code.base at }
    {
        self.code.base.saturating_add(at)
    }
}

impl<'a, R: Copy + Drop> Builder<'a, R> {
    // Gives the instruction at a place of the open segment its target.
    #[tactic(auto, unfolding(crate::specs::Segments::targeted))]
    pub fn set_target(&mut self, at: u16, target: u32)
        ensures { Did self.old self.new (λ h. (h.0, targeted h.0 at target h.1)) }
    {
        segment::set_target(self.words, self.state.absolute(at), target);
    }

    // Aims the Breaks and Continues from a place of the open segment to its end.
    #[tactic(auto, unfolding(crate::specs::Segments::breaks_resolved))]
    pub fn resolve_breaks(&mut self, at: u16, ends: Ends)
        ensures { Did self.old self.new (λ h. (h.0, breaks_resolved h.0 at ends.check ends.cleanup h.1)) }
    {
        let from = self.state.absolute(at);
        let count = self.state.code.top.saturating_sub(from);
        segment::resolve_breaks(self.words, from, count, ends);
    }

    // An argument's segment begins behind the open one; no Push waits.
    #[tactic(auto, unfolding(crate::specs::Segments::opened))]
    pub fn open_segment(&mut self)
        ensures { Did self.old self.new (still opened) }
    {
        self.state.code.base = self.state.code.top;
        self.state.code.waiting = false;
    }

    // The open segment is finished, and the one that began at `base` is open again.
    #[tactic(auto, unfolding(crate::specs::Segments::closed))]
    pub fn close_segment(&mut self, base: u16, waiting: bool)
        ensures { Did self.old self.new (closed base waiting) }
    {
        let start = self.state.code.base;
        let count = self.state.place();
        let finished = segment::move_segment(self.words, start, count, self.state.code.finished);
        self.state.code.top = start;
        self.state.code.base = base;
        self.state.code.finished = finished;
        self.state.code.waiting = waiting;
    }
}
