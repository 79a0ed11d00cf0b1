//! The types and the class with a meaning for the forwarder itself.

/// A name server of a zone (RFC 1035 3.3.11).
pub const NS: u16 = 2;

/// The canonical name of an alias (RFC 1035 3.3.1).
pub const CNAME: u16 = 5;

/// The start of a zone of authority (RFC 1035 3.3.13).
pub const SOA: u16 = 6;

/// The pseudo record of EDNS, never asked for (RFC 6891 6.1).
pub const OPT: u16 = 41;

/// The first type without data, for questions alone (RFC 6895 3.1).
pub const FIRST_META: u16 = 128;

/// The last type for questions alone: all types (RFC 1035 3.2.3).
pub const ANY: u16 = 255;

/// The class of questions for all classes (RFC 1035 3.2.5).
pub const ANY_CLASS: u16 = 255;
