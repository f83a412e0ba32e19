/// Bytes of a trace text.
pub const TRACE_BYTES: usize = 1_048_576;
/// Lines of a trace text, those without words among them.
pub const TRACE_LINES: u32 = 16_384;
