//! Messages with memory of their own.

ghost use Rattle.std.specs.Prelude.{◌≡◌, ◌≤◌, length, IfOk, IsOk, OnErr, None};
ghost use Rattle.dns_message.specs.Data.{name_of_rdata};
ghost use Rattle.dns_message.specs.Questions.{same_question};

use crate::reading::data::read_only_name;
use crate::reading::header::Header;
use dns_name::{Name, PlainList, ShortOctets};
use std::alloc::{AllocError, Allocator, Global};
use std::marker::Model;

/// A question (RFC 1035 4.1.2).
#[derive(Drop)]
pub struct Question<A: Allocator = Global> {
    pub name: Name<A>,
    /// The asked type.
    pub kind: u16,
    /// 1 is IN.
    pub class: u16,
}

impl<A: Allocator> Model for Question<A> {
    ghost use Rattle.dns_message.specs.Values.{Question};

    ghost Value = { Question };

    ghost view = { λ q. record { name = q.name; kind = q.kind; class = q.class } };
}

impl<A: Allocator> Question<A> {
    /// An equal question.
    pub fn copy(&self, alloc: A) -> Result<Question<A>, AllocError>
        ensures { IfOk result (λ copy. copy ≡ self.now) }
    {
        let name = self.name.copy(alloc)?;
        Ok(Question {
            name,
            kind: self.kind,
            class: self.class,
        })
    }

    /// Whether names, types and classes are equal, ASCII letter case aside (RFC 1035 2.3.3, RFC
    /// 4343).
    pub fn is_same(&self, other: &Question<A>) -> bool
        ensures { result ≡ same_question self.now other.now }
    {
        self.name.same(&other.name) && self.kind == other.kind && self.class == other.class
    }
}

/// The data of a record, with its names written out in full, letter case as read.
#[derive(Drop)]
pub struct Rdata<A: Allocator = Global> {
    octets: ShortOctets<A>,
}

impl<A: Allocator> Model for Rdata<A> {
    ghost use Rattle.std.specs.Prelude.{List, ℕ};

    ghost Value = { List ℕ };

    ghost view = { λ r. r.octets };
}

impl<A: Allocator> Rdata<A> {
    /// Data of these octets, in which names have to be written out in full.
    pub fn new(octets: Vec<u8, A>) -> Rdata<A>
        ensures { result ≡ octets.items }
    {
        Rdata::holding(ShortOctets::from_vec(octets))
    }

    /// Data of these octets, unchanged.
    pub(crate) fn holding(octets: ShortOctets<A>) -> Rdata<A>
        ensures { result ≡ octets }
    {
        Rdata { octets }
    }

    /// Data of a copy of these octets. Up to 30 do not allocate.
    pub fn from_octets(alloc: A, octets: &[u8]) -> Result<Rdata<A>, AllocError>
        ensures octets { IfOk result (λ copy. copy ≡ octets.now) }
        ensures few { length octets.now ≤ 30 → IsOk result }
    {
        let octets = ShortOctets::from_slice(alloc, octets)?;
        Ok(Rdata { octets })
    }

    /// The octets of the data.
    pub fn octets(&self) -> &[u8]
        ensures { result.now ≡ self.now }
    {
        self.octets.as_slice()
    }

    /// The name in the data, written out in full; `None` for data that is no name, without an
    /// allocation.
    pub fn name(&self, alloc: A) -> Result<Option<Name<A>>, AllocError>
        ensures name { IfOk result (λ name. name ≡ name_of_rdata self.now) }
        ensures some { OnErr result (name_of_rdata self.now ≡ None → ⊥) }
    {
        read_only_name(alloc, self.octets())
    }

    /// Equal data. Up to 30 octets do not allocate.
    pub fn copy(&self, alloc: A) -> Result<Rdata<A>, AllocError>
        ensures data { IfOk result (λ copy. copy ≡ self.now) }
        ensures few { length self.now ≤ 30 → IsOk result }
    {
        Rdata::from_octets(alloc, self.octets())
    }
}

/// A resource record (RFC 1035 4.1.3).
#[derive(Drop)]
pub struct Record<A: Allocator = Global> {
    /// The name of the record.
    pub owner: Name<A>,
    /// The type of the data.
    pub kind: u16,
    /// 1 is IN.
    pub class: u16,
    /// In seconds, all 32 bits as in the message.
    pub ttl: u32,
    pub rdata: Rdata<A>,
}

impl<A: Allocator> Model for Record<A> {
    ghost use Rattle.dns_message.specs.Values.{Record};

    ghost Value = { Record };

    ghost view = { λ r. record { owner = r.owner; kind = r.kind; class = r.class; ttl = r.ttl; rdata = r.rdata } };
}

impl<A: Allocator + Copy> Record<A> {
    /// An equal record.
    pub fn copy(&self, alloc: A) -> Result<Record<A>, AllocError>
        ensures { IfOk result (λ copy. copy ≡ self.now) }
    {
        let owner = self.owner.copy(alloc)?;
        let rdata = self.rdata.copy(alloc)?;
        Ok(Record {
            owner,
            kind: self.kind,
            class: self.class,
            ttl: self.ttl,
            rdata,
        })
    }
}

/// A whole message (RFC 1035 4.1).
#[derive(Drop)]
pub struct Message<A: Allocator = Global> {
    pub header: Header,
    pub questions: PlainList<Question<A>, A>,
    pub answers: PlainList<Record<A>, A>,
    pub authority: PlainList<Record<A>, A>,
    pub additional: PlainList<Record<A>, A>,
}

impl<A: Allocator> Model for Message<A> {
    ghost use Rattle.dns_message.specs.Values.{Message};

    ghost Value = { Message };

    ghost view = { λ m. record {
      header = m.header;
      questions = m.questions;
      answers = m.answers;
      authority = m.authority;
      additional = m.additional;
    } };
}
