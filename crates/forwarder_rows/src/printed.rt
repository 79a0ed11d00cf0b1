//! Standard output of a command, kept.

use std::alloc::Global;
use std::cell::Cell;
use std::fmt::Display;
use std::io;
use std::io::Write;

/// Memory, and standard output as octets.
#[derive(Drop)]
pub(crate) struct Printed {
    alloc: Global,
    octets: Cell<Vec<u8>>,
}

impl Printed {
    /// Nothing is printed yet.
    pub(crate) fn new(alloc: Global) -> Printed {
        Printed {
            alloc,
            octets: Cell::new(Vec::new(alloc)),
        }
    }

    /// The printed octets.
    pub(crate) fn into_octets(self) -> Vec<u8> {
        self.octets.into_inner()
    }
}

impl Print for Printed {
    fn print<D: Display + Drop>(&self, value: D) -> io::Result<()> {
        let mut octets = self.octets.replace(Vec::new(self.alloc));
        write!(octets, "{value}")?;
        self.octets.set(octets);
        Ok(())
    }

    fn println<D: Display + Drop>(&self, value: D) -> io::Result<()> {
        self.print(value)?;
        self.write_all(b"\n")
    }

    fn write_all(&self, bytes: &[u8]) -> io::Result<()> {
        let mut octets = self.octets.replace(Vec::new(self.alloc));
        octets.extend_from_slice(bytes)?;
        self.octets.set(octets);
        Ok(())
    }
}

impl Alloc for Printed {
    type A = Global;

    fn alloc(&self) -> Global {
        self.alloc
    }
}
