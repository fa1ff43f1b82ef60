//! The limits of the farm. What is beyond one is refused by name.

/// The longest message in octets, with its header.
pub const MESSAGE_LIMIT: usize = 262_144;

/// The most requests that wait in the queue of a front.
pub const QUEUE_LIMIT: u32 = 1_024;

/// The most workers of a front.
pub const WORKER_LIMIT: u32 = 16;

/// The most services of a request.
pub const SERVICE_LIMIT: usize = 32;

/// The most entries of the account book.
pub const HISTORY_LIMIT: u64 = 1_048_576;

/// The most requests that a relay has forwarded and that are not answered yet.
pub const PENDING_LIMIT: u32 = 16_384;

/// The longest schedule in octets.
pub const SCHEDULE_LIMIT: usize = 16_777_216;

/// The most steps of a schedule.
pub const STEP_LIMIT: usize = 1_000_000;
