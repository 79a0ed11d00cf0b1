//! The limits of a forwarder.

ghost use Rattle.std.specs.Prelude.{◌≡◌};
ghost use Rattle.suffix_routes.specs.Values.{default_limits};

/// The limits of a forwarder. In an accepted configuration each is in its range.
#[derive(Clone, Copy, Debug, PartialEq, Eq)]
pub struct Limits {
    /// The most waiting questions, 1 to 4,096.
    pub questions: usize,
    /// The most open inquiries, 1 to 1,024.
    pub inquiries: usize,
    /// The most entries of the cache, 1 to 65,536.
    pub cache: usize,
    /// The most asks of an inquiry, 1 to 16.
    pub tries: u8,
    /// The time of an ask, 100 to 10,000 ms.
    pub ask_ms: u64,
    /// The time of a waiting question, 500 to 30,000 ms.
    pub deadline_ms: u64,
    /// The seconds after its end in which an expired set may still be answered if all tries failed,
    /// 0 to 86,400 (RFC 8767 5).
    pub stale_s: u32,
}

impl Limits {
    /// The limits of a configuration without a table `limits`.
    pub fn defaults() -> Limits
        ensures { result ≡ default_limits }
    {
        Limits {
            questions: 1024,
            inquiries: 256,
            cache: 4096,
            tries: 4,
            ask_ms: 1500,
            deadline_ms: 8000,
            stale_s: 0,
        }
    }
}
