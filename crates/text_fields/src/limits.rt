//! The versions and the limits of both formats. Specifications name these numbers themselves.

/// The version of both formats in which masks stay and all processors are on line.
pub const FIRST_VERSION: u8 = 1;

/// The version of both formats in which masks change, and processors go off line and come back.
pub const LAST_VERSION: u8 = 2;

/// The greatest number of processors.
pub const MAX_PROCESSORS: u64 = 64;

/// The greatest number of a processor.
pub const MAX_PROCESSOR: u64 = 63;

/// The greatest priority of a task.
pub const MAX_PRIORITY: u64 = 4_294_967_295;

/// The greatest number of a stream.
pub const MAX_STREAM: u64 = 15;

/// The most units of time that a tick has.
pub const MAX_UNITS: u64 = 1_000_000;

/// The greatest number of events, and of entries of a history.
pub const MAX_EVENTS: usize = 20_000;
