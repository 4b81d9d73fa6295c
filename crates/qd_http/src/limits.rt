//! The limits of a request.

/// The greatest number of bytes of a head, from the first byte of its request to the end of its empty line.
pub const MAX_HEAD_BYTES: usize = 16_384;

/// The greatest number of fields of a head.
pub const MAX_FIELDS: usize = 64;

/// The greatest number of bytes of a body.
pub const MAX_BODY_BYTES: u64 = 16_777_216;
