//! The place where open sockets and streams are dropped.

ghost use Rattle.std.specs.Prelude.{◌≡◌, ◌∷◌, ◌++◌, []};

use call_log::CallLog;
use std::marker::Model;

/// The values that were dropped here, in order, noted for proofs alone. It takes no octets. A list
/// of what is open notes here each value that leaves it: a body that forgets one notes too few.
#[derive(Drop)]
pub struct Dropped<T> {
    noted: CallLog<T, ()>,
}

impl<T> Model for Dropped<T> {
    ghost use Rattle.std.specs.Prelude.{List};
    ghost use Rattle.stream_connections.specs.Dropped.{firsts};

    ghost Value = { List T };

    ghost view = { λ d. firsts d.noted.calls };
}

impl<T: Drop> Dropped<T> {
    /// Starts with no value.
    pub fn new() -> Dropped<T>
        ensures { result ≡ [] }
    {
        Dropped {
            noted: CallLog::new(),
        }
    }

    /// Drops a value, and notes it.
    pub fn take(&mut self, value: T)
        ensures { self.new ≡ self.old ++ value ∷ [] }
    {
        self.noted = self.noted.and(&value, &());
    }
}
