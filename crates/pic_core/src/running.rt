//! Events one after another.

ghost use Rattle.std.specs.Prelude.{◌≡◌, ◌<◌, MatchResult, length, take, slice_index_or};
ghost use Rattle.pic_tile.specs.CoreState.{HasCensus};
ghost use Rattle.pic_core.specs.Events.{Allowed, IsRefusedAt, Ran};

use crate::event::Event;
use crate::machine::Core;

impl Core {
    /// Lets events come one after another, up to the first that can't come. It takes no memory.
    ///
    /// # Errors
    /// The place in the list and the event that can't come in the state to which those before it
    /// have led; the core stays in that state.
    pub fn run_events(&mut self, events: &[Event]) -> Result<(), (usize, Event)>
        ensures ran { MatchResult result (λ _. Ran self.old events.now self.new)
            (λ e. IsRefusedAt self.old events.now e.0 e.1 self.new) }
        ensures census { HasCensus self.new }
    {
        for i in 0..events.len() {
            let event = events[i];
            match self.apply(event) {
                Ok(()) => {}
                Err(e) => return Err((i, e.0)),
            }
        }
        self.stands();
        Ok(())
    }
}
