//! A gate that work passes.

/// What each worker passes before an item of a phase, so that a test can hold workers up.
///
/// It gives nothing back and no contract speaks of it. Phases are 0 analyse, 1 bid, 2 clone and 3 emit; the items of a
/// phase, which are objects or units, are counted from 0.
pub trait Gate {
    fn pass(&self, phase: u32, item: u32);
}

/// The gate that holds nobody up.
#[derive(Clone, Copy, Debug)]
pub struct OpenGate;

impl OpenGate {
    pub fn new() -> OpenGate {
        OpenGate
    }
}

impl Gate for OpenGate {
    fn pass(&self, _phase: u32, _item: u32) {}
}
