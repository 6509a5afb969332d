//! How much a history is meant to hold.

/// The highest limit of a history, in units of weight.
pub const HIGHEST_LIMIT: u64 = 67_108_864;

/// A history of so many events counts as full whatever it weighs: 2^59.
pub const MOST_EVENTS: u64 = 576_460_752_303_423_488;

/// How far a history may go past its limit or [`MOST_EVENTS`], so that a step that began below may end.
pub const MARGIN: u64 = 64;

/// How many bytes of data weigh as much as an event.
pub const BYTES_A_UNIT: u64 = 32;
