// The longest list, and the numbers of states and events, as include/refbridge.h has them.
pub const MOST_CASES: usize = 65535;

// The state of a case.
pub const STATE_NOT_RUN: u32 = 0;

pub const STATE_RUNNING: u32 = 1;

pub const STATE_PASSED: u32 = 2;

pub const STATE_FAILED: u32 = 3;

pub const STATE_BROKEN: u32 = 4;

// Start, pass and fail have the numbers of the states that they give.
pub const EVENT_START: u32 = 1;

pub const EVENT_PASS: u32 = 2;

pub const EVENT_FAIL: u32 = 3;

pub const EVENT_CRASH: u32 = 4;

pub const EVENT_END: u32 = 5;

// The mark for ended.
pub const MARK_CLEAR: u8 = 0;

pub const MARK_SET: u8 = 1;

// The number of an event that is accepted, and of a report.
pub const ACCEPTED: u32 = 0;
