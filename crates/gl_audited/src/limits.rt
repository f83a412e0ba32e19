/// Bytes of the text of an audit.
pub const AUDIT_BYTES: usize = 67_108_864;
