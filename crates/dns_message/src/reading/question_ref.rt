//! A borrowed question.

ghost use Rattle.std.specs.Prelude.{◌≡◌, Ok, IfOk, MatchOption, length};
ghost use Rattle.dns_name.specs.Labels.{labels_of, lowered, IsLaidOut};
ghost use Rattle.dns_message.specs.Names.{name_at};
ghost use Rattle.dns_message.specs.Reading.{end_read};
ghost use Rattle.dns_message.specs.Messages.{IsUncompressed};

use crate::names::part;
use crate::reading::message::Question;
use dns_name::{Name, NameKey};
use std::alloc::{AllocError, Allocator};
use std::marker::Model;

/// A question with a borrowed name without pointers. Contracts see the question.
#[derive(Drop)]
pub struct QuestionRef<'a> {
    /// The name's labels, each after its length, without the final zero.
    name: &'a [u8],
    kind: u16,
    class: u16,
}

impl<'a> Model for QuestionRef<'a> {
    ghost use Rattle.dns_name.specs.Labels.{labels_of, IsLaidOut};
    ghost use Rattle.dns_message.specs.Values.{Question};

    ghost Value = { Question };

    ghost view = { λ q. record { name = labels_of q.name.now; kind = q.kind; class = q.class } };

    ghost invariant = { λ q. IsLaidOut q.name.now };
}

impl<'a> QuestionRef<'a> {
    /// A question, borrowed.
    pub fn of<A: Allocator>(question: &'a Question<A>) -> QuestionRef<'a>
        ensures { result ≡ question.now }
    {
        QuestionRef {
            name: question.name.octets(),
            kind: question.kind,
            class: question.class,
        }
    }

    /// The question for the name with these octets, in the form of `Name::octets`.
    pub fn from_octets(name: &'a [u8], kind: u16, class: u16) -> QuestionRef<'a>
        requires { IsLaidOut name.now }
        ensures { result ≡ record { name = labels_of name.now; kind = kind; class = class } }
    {
        QuestionRef { name, kind, class }
    }

    /// The question of this type and class for the name at a place, which ends before `end`; `None`
    /// for a name with a pointer.
    pub(crate) fn at(
        bytes: &'a [u8],
        offset: usize,
        end: usize,
        kind: u16,
        class: u16,
    ) -> Option<QuestionRef<'a>>
        requires { end_read (name_at bytes.now offset) ≡ Ok end }
        ensures { MatchOption result (IfOk (name_at bytes.now offset) (λ n. IsUncompressed bytes.now offset n.0 → ⊥))
            (λ question. IfOk (name_at bytes.now offset) (λ n. (question
            ≡ record { name = n.0; kind = kind; class = class }) × IsUncompressed bytes.now offset n.0)) }
    {
        let name = uncompressed_name(bytes, offset, end)?;
        Some(QuestionRef { name, kind, class })
    }

    /// The name's octets, without the final zero: each label after its length.
    pub fn name(&self) -> &'a [u8]
        ensures laid { IsLaidOut result.now }
        ensures labels { labels_of result.now ≡ self.now.name }
    {
        self.name
    }

    /// This question, borrowed once more.
    pub fn reborrow(&self) -> QuestionRef<'a>
        ensures { result ≡ self.now }
    {
        QuestionRef {
            name: self.name,
            kind: self.kind,
            class: self.class,
        }
    }

    /// An equal question with a name of its own, copied once.
    pub fn copy<A: Allocator>(&self, alloc: A) -> Result<Question<A>, AllocError>
        ensures { IfOk result (λ copy. copy ≡ self.now) }
    {
        let name = Name::from_octets(alloc, self.name)?;
        Ok(Question {
            name,
            kind: self.kind,
            class: self.class,
        })
    }

    /// The key of the name.
    pub fn key(&self) -> NameKey
        ensures { result ≡ lowered self.now.name }
    {
        NameKey::from_octets(self.name)
    }

    /// The asked type.
    pub fn kind(&self) -> u16
        ensures { result ≡ self.now.kind }
    {
        self.kind
    }

    /// 1 is IN.
    pub fn class(&self) -> u16
        ensures { result ≡ self.now.class }
    {
        self.class
    }
}

/// The octets of the readable name at a place, which ends before `end`, without the final zero.
/// `None` for a name with a pointer. The first octet of a pointer is above 191: if the octet before
/// the name's last is not, the last is the final zero of a name without a pointer.
#[tactic(auto, using(crate::proofs::reading::NameLaws::name_begins, crate::proofs::reading::NameLaws::goes_on, crate::proofs::reading::NameLaws::name_lies))]
fn uncompressed_name(bytes: &[u8], offset: usize, end: usize) -> Option<&[u8]>
    requires { end_read (name_at bytes.now offset) ≡ Ok end }
    ensures { MatchOption result (IfOk (name_at bytes.now offset) (λ n. IsUncompressed bytes.now offset n.0 → ⊥))
        (λ octets. IsLaidOut octets.now × IfOk (name_at bytes.now offset) (λ n. (n.0 ≡ labels_of octets.now)
        × IsUncompressed bytes.now offset n.0)) }
{
    if end - offset == 1 || bytes[end - 2] < 192 {
        return Some(part(bytes, offset, end - offset - 1));
    }
    let mut at = offset;
    loop {
        let first = bytes[at];
        if first == 0 {
            return Some(part(bytes, offset, at - offset));
        }
        if first >= 192 {
            return None;
        }
        at += first as usize + 1;
    }
}
