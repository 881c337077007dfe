//! What goes through a lane.

use trace_record::{End, Event};

/// What a reader hands to a checker.
#[derive(Clone, Copy, Debug, PartialEq, Eq)]
pub enum Item {
    /// The next event.
    Event(Event),
    /// The end of the stream, after its last event.
    End(End),
}
