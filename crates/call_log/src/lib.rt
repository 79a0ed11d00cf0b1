//! A list of calls, for proofs alone. The running program keeps no list.
#![tactic(auto)]

ghost use Rattle.std.specs.Borrow.{ftrue};
ghost use Rattle.std.specs.Prelude.{◌≡◌, ◌∷◌, ◌++◌, [], List};

use std::marker::{Model, PhantomData};

/// The noted pairs, in order. The list takes no octets, and its functions do nothing when the
/// program runs. Only the contracts of its functions say what the list has. So code without a proof
/// by hand cannot forge a list.
#[derive(Drop)]
pub struct CallLog<A, B> {
    of: PhantomData<(A, B)>,
    pub ghost calls: { List (A × B) },
}

impl<A, B> Model for CallLog<A, B> {
    ghost also_owns = { λ _. ftrue };
}

impl<A, B> CallLog<A, B> {
    /// A list without calls.
    pub fn new() -> CallLog<A, B>
        ensures { result.calls ≡ [] }
    {
        CallLog { of: PhantomData }
    }

    /// The list with this pair after the others.
    pub fn and(&self, _first: &A, _second: &B) -> CallLog<A, B>
        ensures { result.calls ≡ self.now.calls ++ (_first.now, _second.now) ∷ [] }
    {
        CallLog { of: PhantomData }
    }
}
