/// The least number of steps.
pub const LEAST_STEPS: u32 = 1;
/// The greatest number of steps.
pub const MOST_STEPS: u32 = 1_000_000;
/// The greatest position of an event, number of an access and low mark.
pub const MOST_STAMP: u64 = 9_223_372_036_854_775_807;
/// The least value.
pub const LEAST_VALUE: i64 = -9_223_372_036_854_775_808;
/// The greatest value.
pub const MOST_VALUE: i64 = 9_223_372_036_854_775_807;
