//! The response codes of a header (RFC 1035 4.1.1), by their usual names.

/// No error.
pub const NOERROR: u8 = 0;

/// The message can't be read as a question.
pub const FORMERR: u8 = 1;

/// The server failed to get an answer.
pub const SERVFAIL: u8 = 2;

/// There is no such name.
pub const NXDOMAIN: u8 = 3;

/// Questions of this kind are not served.
pub const NOTIMP: u8 = 4;

/// The server refuses to answer.
pub const REFUSED: u8 = 5;
