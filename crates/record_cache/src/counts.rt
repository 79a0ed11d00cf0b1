//! How many entries are counted under each number.

ghost use Rattle.std.specs.Prelude.{◌≡◌, ◌+◌, ◌-◌, ◌<◌, ◌^◌, ℕ, Option, [], get_or, nat_lt};
ghost use Rattle.record_cache.specs.Entries.{alias_ending, name_error_ending, name_error_size};
ghost use Rattle.record_cache.specs.Storing.{AreCounted, AreOneMore, HasOne, HasRoom, OneMore};

/// Counts by a number below 256.
#[derive(Drop)]
pub(crate) struct Counts {
    pub counts: [usize; 256],
}

impl Counts {
    /// None of any number.
    pub(crate) fn new() -> Counts
        ensures { (n : ℕ) → get_or result.counts n 0 ≡ 0 }
    {
        Counts { counts: [0; 256] }
    }

    /// Whether there is an entry of this number.
    pub(crate) fn has(&self, number: usize) -> bool
        ensures { result ≡ nat_lt 0 (get_or self.now.counts number 0) }
    {
        self.counts.get(number).is_some_and(|count| *count > 0)
    }

    /// One more of this number, if there is a number.
    pub(crate) fn add(&mut self, number: Option<usize>)
        requires { HasRoom self.old.counts number }
        ensures { OneMore self.new.counts number self.old.counts }
    {
        if let Some(number) = number {
            self.counts[number] += 1;
        }
    }

    /// One less of this number, if there is a number.
    pub(crate) fn remove(&mut self, number: Option<usize>)
        requires { HasOne self.old.counts number }
        ensures { OneMore self.old.counts number self.new.counts }
    {
        if let Some(number) = number {
            self.counts[number] -= 1;
        }
    }
}

/// The numbers for counting an entry.
#[derive(Clone, Copy)]
pub(crate) struct Marks {
    /// The size of the name of a name error.
    pub size: Option<usize>,
    /// The ending of the name of a name error.
    pub ending: Option<usize>,
    /// The ending of the owner of an alias, or of a denial of the type CNAME.
    pub alias: Option<usize>,
}

/// The counts of all entries.
#[derive(Drop)]
pub(crate) struct Tables {
    /// Name errors by the sizes of their names.
    pub sizes: Counts,
    /// Name errors by the endings of their names.
    pub endings: Counts,
    /// Entries of type CNAME by the endings of their owners.
    pub aliases: Counts,
}

impl Tables {
    /// Nothing is counted.
    pub(crate) fn new() -> Tables
        ensures sizes { AreCounted name_error_size result.sizes.counts [] }
        ensures endings { AreCounted name_error_ending result.endings.counts [] }
        ensures aliases { AreCounted alias_ending result.aliases.counts [] }
    {
        Tables {
            sizes: Counts::new(),
            endings: Counts::new(),
            aliases: Counts::new(),
        }
    }

    /// Counts an entry with these numbers.
    pub(crate) fn add(&mut self, marks: Marks)
        requires sizes { HasRoom self.old.sizes.counts marks.size }
        requires endings { HasRoom self.old.endings.counts marks.ending }
        requires aliases { HasRoom self.old.aliases.counts marks.alias }
        ensures { AreOneMore self.new marks self.old }
    {
        self.sizes.add(marks.size);
        self.endings.add(marks.ending);
        self.aliases.add(marks.alias);
    }

    /// Ends the count of an entry with these numbers.
    pub(crate) fn remove(&mut self, marks: Marks)
        requires sizes { HasOne self.old.sizes.counts marks.size }
        requires endings { HasOne self.old.endings.counts marks.ending }
        requires aliases { HasOne self.old.aliases.counts marks.alias }
        ensures { AreOneMore self.old marks self.new }
    {
        self.sizes.remove(marks.size);
        self.endings.remove(marks.ending);
        self.aliases.remove(marks.alias);
    }
}
