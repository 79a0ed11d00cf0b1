//! Names, put together label by label.

ghost use Rattle.std.specs.Prelude.{◌≡◌, ◌≤◌, ◌+◌, ◌++◌, [], length, IfErr, IfOk};
ghost use Rattle.arrayvec.specs.ArrayVec.{array_vec_len};
ghost use Rattle.dns_name.specs.Labels.{IsLabel, label_octets};
ghost use Rattle.dns_name.specs.Faults.{Gives, pushed};
ghost use Rattle.dns_name.specs.declared.fault.NameFault.TheVariants.{NameLong};

use crate::fault::NameFault;
use crate::name::Name;
use arrayvec::ArrayVec;
use std::alloc::{AllocError, Allocator};
use std::marker::Model;

/// The most octets of a name without the final zero (RFC 1035 2.3.4).
const MOST: usize = 254;

/// The labels so far, each after its length.
#[derive(Drop)]
pub(crate) struct NameBuilder {
    octets: ArrayVec<u8, MOST>,
}

impl Model for NameBuilder {
    ghost use Rattle.std.specs.Prelude.{List, ℕ};
    ghost use Rattle.dns_name.specs.Labels.{labels_of, IsLaidOut};

    ghost Value = { List (List ℕ) };

    ghost view = { λ b. labels_of b.octets.items };

    ghost invariant = { λ b. IsLaidOut b.octets.items };
}

impl NameBuilder {
    /// No label.
    pub(crate) fn new() -> NameBuilder
        ensures { result ≡ [] }
    {
        NameBuilder {
            octets: ArrayVec::new(),
        }
    }

    /// Puts a label last. `NameLong` if the name would be longer than 255 octets; an `Err` changes
    /// nothing.
    #[tactic(auto, unfolding(crate::specs::Faults::pushed))]
    pub(crate) fn push(&mut self, label: &[u8]) -> Result<(), NameFault>
        requires { IsLabel label.now }
        ensures given { Gives (λ _. self.new) result (pushed self.old label.now) }
        ensures err { IfErr result (λ fault. (fault ≡ NameLong) × (self.new ≡ self.old)) }
    {
        if self.octets.len() + label.len() + 1 > MOST {
            return Err(NameFault::NameLong);
        }
        put_label(&mut self.octets, label);
        Ok(())
    }

    /// The name of these labels.
    pub(crate) fn name<A: Allocator>(&self, alloc: A) -> Result<Name<A>, AllocError>
        ensures { IfOk result (λ name. name ≡ self.now) }
    {
        Name::from_octets(alloc, self.octets.as_slice())
    }
}

/// Appends a label's length and the label to the octets.
fn put_label(octets: &mut ArrayVec<u8, MOST>, label: &[u8])
    requires short { length label.now ≤ 63 }
    requires room { array_vec_len octets.old + length label.now + 1 ≤ 254 }
    ensures { octets.new.items ≡ octets.old.items ++ label_octets label.now }
{
    octets.push(label.len() as u8);
    let Ok(()) = octets.try_extend_from_slice(label) else {
        unreachable!()
    };
}
