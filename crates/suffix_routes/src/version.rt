//! The versions of a configuration.

/// The version that a configuration states. The second has two keys more than the first: `stale_s`
/// in `limits`, and `deny` in a route.
#[derive(Clone, Copy, Debug, PartialEq, Eq)]
pub enum Version {
    /// `version = 1`
    One,
    /// `version = 2`
    Two,
}
