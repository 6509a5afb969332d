//! Places of a live run at which it can be held.

/// A place of a live run.
#[derive(Clone, Copy, Debug, PartialEq, Eq)]
pub enum Point {
    /// The firmware is about to ask something of the bus.
    Firmware,
    /// A call on the links was made, or none was due.
    Link,
}

/// What each thread of a live run calls at its place, with no turn of its own.
///
/// It changes nothing that the run shows. A test may wait in it; it returns.
pub trait Gate {
    /// Called at this place.
    fn at(&self, point: Point);
}

/// A gate that does nothing.
#[derive(Clone, Copy, Debug)]
pub struct OpenGate;

impl Gate for OpenGate {
    fn at(&self, _point: Point) {}
}
