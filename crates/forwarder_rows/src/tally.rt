//! Counts of rows and differences.

ghost use Rattle.std.specs.Prelude.{◌≡◌, ◌<◌, ◌+◌, ◌↔◌, IsTrue, min};

/// The numbers of run rows and of differences. Each number stays at its highest value.
#[derive(Clone, Copy, Debug, Default, PartialEq, Eq)]
pub struct Tally {
    /// Run rows.
    pub rows: u64,
    /// Differences: unexpected outputs of rows, and files or folders out of order.
    pub differ: u64,
}

impl Tally {
    /// There were rows, and nothing differed.
    pub fn is_well(&self) -> bool
        ensures { IsTrue result ↔ ((0 < self.now.rows) × (self.now.differ ≡ 0)) }
    {
        self.rows > 0 && self.differ == 0
    }

    /// Counts one more row.
    pub fn count_row(&mut self)
        ensures rows { self.new.rows ≡ min (self.old.rows + 1) 18446744073709551615 }
        ensures differ { self.new.differ ≡ self.old.differ }
    {
        self.rows = self.rows.saturating_add(1);
    }

    /// Counts one more difference.
    pub fn count_difference(&mut self)
        ensures differ { self.new.differ ≡ min (self.old.differ + 1) 18446744073709551615 }
        ensures rows { self.new.rows ≡ self.old.rows }
    {
        self.differ = self.differ.saturating_add(1);
    }
}
