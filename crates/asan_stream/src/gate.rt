//! Following the checkers at their work.

/// Hears of each event that was checked.
pub trait Gate {
    /// The event of this number, counted from 1, of this process was checked. A checker that ran
    /// out of memory calls no more.
    ///
    /// It is called on the thread that checked the event, which goes on when the call returns: a
    /// gate that waits holds up all processes of that checker. Some of the events after this one
    /// may have been checked by then. The events that `settle` still checks are not announced.
    fn checked(&self, process: u32, event: u64);
}

/// A gate that does nothing.
#[derive(Clone, Copy, Debug)]
pub struct OpenGate;

impl Gate for OpenGate {
    fn checked(&self, _process: u32, _event: u64) {}
}
