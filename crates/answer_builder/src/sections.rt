//! The sections of an answer, borrowed from the pieces that it shows.

ghost use Rattle.std.specs.Prelude.{◌≡◌, ◌<◌, ◌∷◌, [], IfOk};
ghost use Rattle.std.specs.List.{AllByRecursion};
ghost use Rattle.std.specs.Option.{option_copied};
ghost use Rattle.dns_message.specs.Borrowed.{records_in};
ghost use Rattle.answer_builder.specs.Answers.{local_sections, sections_of, sections_with_ttls, IsEarlier};
ghost use Rattle.answer_builder.specs.Building.{ending};
ghost use Rattle.answer_builder.specs.Faults.{Gives};
ghost use Rattle.answer_builder.specs.Sets.{records_at};
ghost use Rattle.answer_builder.specs.Transports.{text_of};
ghost use Rattle.dns_message.specs.PlainValues.Borrowed.{lent};

use crate::asked::{AskedRef, Transport};
use crate::fault::Fault;
use crate::piece_with_ttl::{PieceWithTtl, last_at};
use crate::records::{rcode_of, set_of, sets_at, sets_of, soa_of};
use crate::text::{header_of, put_text};
use dns_message::codes::NXDOMAIN;
use dns_message::{MessageParts, RowsRef};
use record_cache::Held;
use std::alloc::{AllocError, Allocator, Global};
use std::marker::Model;

/// The answer and authority sections and the response code. Contracts see them as `Sections`.
#[derive(Drop)]
pub struct Sections<'a, A: Allocator = Global> {
    sets: Sets<'a, A>,
    /// The SOA of a denial (RFC 2308 3).
    soa: Option<RowsRef<'a, A>>,
    /// 4 bits.
    rcode: u8,
}

/// The sets of the answer section: at most one in place, others on the heap.
#[derive(Drop)]
enum Sets<'a, A: Allocator> {
    Only(Option<RowsRef<'a, A>>),
    Each(Vec<RowsRef<'a, A>, A>),
}

impl<'a, A: Allocator> Model for Sections<'a, A> {
    ghost use Rattle.std.specs.Prelude.{◌<◌};
    ghost use Rattle.answer_builder.specs.Building.{listed};
    ghost use Rattle.answer_builder.specs.Sets.{records_at};
    ghost use Rattle.answer_builder.specs.Values.{Sections};

    ghost Value = { Sections };

    ghost view = { λ s. record { answers = records_at s.sets; authority = listed s.soa; rcode = s.rcode } };

    ghost invariant = { λ s. s.rcode < 16 };
}

impl<'a, A: Allocator + Copy> Sections<'a, A> {
    /// The sections of the answer from pieces that are alive, with the whole seconds that are left
    /// of each at a moment, in milliseconds: aliases in order, then a set or a denial. Only more
    /// than one piece allocates.
    pub fn answer(
        alloc: A,
        chain: &[&'a Held<A>],
        moment: u64,
    ) -> Result<Sections<'a, A>, AllocError>
        requires earlier { AllByRecursion (IsEarlier moment) (lent chain.now) }
        ensures { IfOk result (λ sections. sections ≡ sections_of moment (lent chain.now)) }
    {
        if let [held] = chain {
            return Ok(Sections::of_one(&PieceWithTtl::at(held, moment)));
        }
        let sets = sets_at(alloc, chain, moment)?;
        let last = last_at(chain, moment);
        Ok(Sections::ending(Sets::Each(sets), last.as_ref()))
    }

    /// The sections of the answer from pieces with the seconds that it gives them, some of which
    /// may be stale (RFC 8767 4). It allocates as `answer` does.
    pub fn stale(alloc: A, chain: &[PieceWithTtl<'a, A>]) -> Result<Sections<'a, A>, AllocError>
        ensures { IfOk result (λ sections. sections ≡ sections_with_ttls chain.now) }
    {
        if let [pieces] = chain {
            return Ok(Sections::of_one(pieces));
        }
        let sets = sets_of(alloc, chain)?;
        Ok(Sections::ending(Sets::Each(sets), chain.last()))
    }

    /// The sections of the answer from one piece, without a list of it: most answers from the cache
    /// are such.
    #[inline(always)]
    fn of_one(pieces: &PieceWithTtl<'a, A>) -> Sections<'a, A>
        ensures { result ≡ sections_with_ttls (pieces.now ∷ []) }
    {
        Sections::ending(Sets::Only(set_of(pieces)), Some(pieces))
    }

    /// The sections with these sets that end with this piece, if any.
    #[inline(always)]
    fn ending(sets: Sets<'a, A>, last: Option<&PieceWithTtl<'a, A>>) -> Sections<'a, A>
        ensures { result ≡ ending (records_at sets.entry) (option_copied last.entry) }
    {
        match last {
            None => Sections {
                sets,
                soa: None,
                rcode: 0,
            },
            Some(pieces) => Sections {
                sets,
                soa: soa_of(pieces),
                rcode: rcode_of(pieces.piece),
            },
        }
    }

    /// The sections of the answer from aliases that lead to a name whose route denies, with the
    /// seconds that it gives them: a name error without SOA (RFC 2308 2.1).
    pub fn denied(alloc: A, aliases: &[PieceWithTtl<'a, A>]) -> Result<Sections<'a, A>, AllocError>
        ensures { IfOk result (λ sections. sections ≡ local_sections aliases.now) }
    {
        let sets = sets_of(alloc, aliases)?;
        Ok(Sections {
            sets: Sets::Each(sets),
            soa: None,
            rcode: NXDOMAIN,
        })
    }

    /// Writes the answer that has these sections in place of the octets. Faults are those of
    /// `build`.
    ///
    /// A vector with room for it is not made larger. Apart from it, only more than a few names that
    /// begin in the octets allocate. If it fails, the octets may be anything, and keep their room.
    #[inline(always)]
    pub fn put(
        &self,
        alloc: A,
        octets: &mut Vec<u8, A>,
        asked: AskedRef<'_>,
        transport: Transport,
    ) -> Result<(), Fault>
        requires opcode { asked.opcode < 16 }
        ensures { Gives (λ _. octets.new.items) result (text_of asked.entry self.now transport) }
    {
        let message = MessageParts {
            header: header_of(&asked, self.rcode),
            question: asked.question,
            answers: self.sets.as_slice(),
            authority: self.soa.as_slice(),
        };
        put_text(alloc, octets, message, transport)
    }
}

impl<'a, A: Allocator> Sets<'a, A> {
    /// The sets, in order.
    fn as_slice(&self) -> &[RowsRef<'a, A>]
        ensures { records_in result.now ≡ records_at self.now }
    {
        match self {
            Sets::Only(set) => set.as_slice(),
            Sets::Each(sets) => sets.as_slice(),
        }
    }
}
