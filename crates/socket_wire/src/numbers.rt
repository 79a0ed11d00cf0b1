//! Numbers of connections.

ghost use Rattle.std.specs.Prelude.{◌≡◌, ◌+◌, ◌^◌, IfSome, IfNone};

/// Gives each number once, in order.
#[derive(Drop)]
pub(crate) struct Numbers {
    /// The next number. 2^64 - 1 is never given.
    next: u64,
}

impl Numbers {
    /// Starts with all numbers from 0 on.
    pub fn new() -> Numbers
        ensures { result.next ≡ 0 }
    {
        Numbers { next: 0 }
    }

    /// Returns a new number: one more than the last. `None` if none is left.
    pub fn give(&mut self) -> Option<u64>
        ensures next { IfSome result (λ number. (number ≡ self.old.next)
            × (self.new.next ≡ number + 1)) }
        ensures none { IfNone result ((self.old.next + 1 ≡ 2 ^ 64)
            × (self.new.next ≡ self.old.next)) }
    {
        let number = self.next;
        self.next = number.checked_add(1)?;
        Some(number)
    }
}
