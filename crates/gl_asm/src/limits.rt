/// Bytes of a program text.
pub const LONGEST: usize = 1_048_576;
/// Bytes of a name behind its first.
pub const NAME_TAIL: usize = 31;
/// The greatest number of a local or of a field that an instruction names.
pub const MOST_INDEX: u16 = 65_535;
/// What a count of lines goes up to.
pub const MOST_COUNT: u16 = u16::MAX;
/// The least value.
pub const LEAST_VALUE: i64 = -9_223_372_036_854_775_808;
/// The greatest value.
pub const MOST_VALUE: i64 = 9_223_372_036_854_775_807;
