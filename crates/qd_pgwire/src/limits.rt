//! The limits and the numbers of the protocol.

/// The code with which a connection of protocol 3.0 starts.
pub const PROTOCOL_CODE: u32 = 196_608;

/// The code of a request to cancel.
pub const CANCEL_CODE: u32 = 80_877_102;

/// The code of a request for encryption by SSL.
pub const ENCRYPT_CODE: u32 = 80_877_103;

/// The code of a request for encryption by GSSAPI.
pub const GSS_CODE: u32 = 80_877_104;

/// The least length of a start, with itself, in bytes.
pub const MIN_START_LENGTH: u32 = 8;

/// The greatest length of a start that names no parameters, with itself and the zero byte that ends their list, in bytes.
pub const BARE_START_LENGTH: u32 = 9;

/// The greatest length of a start, with itself, in bytes.
pub const MAX_START_LENGTH: u32 = 10_000;

/// The greatest length of a message, with itself and without its type, in bytes: that of a query whose text is as long as a
/// statement may be.
pub const MAX_MESSAGE_LENGTH: u32 = 65_541;

/// The code of the error that answers a message of the extended query.
pub const EXTENDED_CODE: u8 = 80;
