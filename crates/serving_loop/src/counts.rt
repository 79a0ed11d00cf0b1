//! The counts of a call of `serve`.

/// The counts of a call of `serve`. Each count stays at its last value, 2^64 - 1.
#[derive(Clone, Copy, PartialEq, Eq, Debug, Drop)]
pub struct Served {
    /// The number of turns of the loop, which a call's `turns` counts.
    pub turns: u64,
    /// The number of events that found no memory.
    pub lost: u64,
    /// The number of refused actions other than asks.
    pub refused_puts: u64,
    /// The number of refused arrivals.
    pub refused_arrivals: u64,
}
