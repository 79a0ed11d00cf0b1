//! A client's question, on arrival and while waiting.

ghost use Rattle.std.specs.Prelude.{◌≡◌, ◌<◌, ◌≤◌, length, IfOk};
ghost use Rattle.waiting_questions.specs.Onward.{waits_on};

use answer_builder::{AskedRef, Held};
use dns_message::{Header, Question, QuestionRef};
use std::alloc::{AllocError, Allocator, Global};
use std::marker::Model;
use step_values::Client;

/// A client's request, with its question in place. Contracts see a waiting question.
#[derive(Drop)]
pub struct Request<'a> {
    pub client: Client,
    /// The header of the client's message.
    pub header: Header,
    pub question: QuestionRef<'a>,
    /// The moment of arrival, in milliseconds.
    pub taken: u64,
}

impl<'a> Model for Request<'a> {
    ghost use Rattle.std.specs.Prelude.{◌<◌, [], Some};
    ghost use Rattle.answer_builder.specs.Values.{asked_in};
    ghost use Rattle.waiting_questions.specs.Values.{Waiting};

    ghost Value = { Waiting };

    ghost view = { λ r. record {
      client = r.client;
      asked = asked_in r.header (Some r.question);
      taken = r.taken;
      held = [];
      wanted = r.question;
    } };

    ghost invariant = { λ r. r.header.opcode < 16 };
}

impl<'a> Request<'a> {
    /// The part of the request that an answer repeats; the opcode has 4 bits.
    pub fn asked(&self) -> AskedRef<'a>
        ensures asked { result ≡ self.now.asked }
        ensures opcode { self.now.asked.opcode < 16 }
    {
        AskedRef {
            id: self.header.id,
            opcode: self.header.opcode,
            rd: self.header.rd,
            question: Some(self.question.reborrow()),
        }
    }

    /// Copies the request into a `Waiting`. With `redirected` the copy waits for this question
    /// instead of its own.
    pub fn to_waiting<A: Allocator>(
        &self,
        alloc: A,
        redirected: Option<Onward<A>>,
    ) -> Result<Waiting<A>, AllocError>
        ensures { IfOk result (λ waiting. waiting ≡ waits_on redirected self.now) }
    {
        let question = self.question.copy(alloc)?;
        Ok(Waiting {
            client: self.client,
            header: self.header,
            question,
            taken: self.taken,
            redirected,
        })
    }
}

/// The held aliases, at most eight, and the wanted question: the client's question with the name at
/// the end of the aliases.
#[derive(Drop)]
pub struct Onward<A: Allocator = Global> {
    pub aliases: Vec<Held<A>, A>,
    pub wanted: Question<A>,
}

impl<A: Allocator> Model for Onward<A> {
    ghost use Rattle.std.specs.Prelude.{◌≤◌, length};
    ghost use Rattle.waiting_questions.specs.Onward.{Onward};

    ghost Value = { Onward };

    ghost view = { λ s. record { held = s.aliases.items; wanted = s.wanted } };

    ghost invariant = { λ s. length s.aliases.items ≤ 8 };
}

/// A question that waits for a reply.
#[derive(Drop)]
pub struct Waiting<A: Allocator = Global> {
    pub client: Client,
    /// The header of the client's message.
    pub header: Header,
    pub question: Question<A>,
    /// The moment of arrival, in milliseconds.
    pub taken: u64,
    /// `None` if the client's own question is the wanted one.
    pub redirected: Option<Onward<A>>,
}

impl<A: Allocator> Model for Waiting<A> {
    ghost use Rattle.std.specs.Prelude.{◌<◌, Some};
    ghost use Rattle.answer_builder.specs.Values.{asked_in};
    ghost use Rattle.waiting_questions.specs.Values.{Waiting};
    ghost use Rattle.waiting_questions.specs.Onward.{held_of, wanted_of};

    ghost Value = { Waiting };

    ghost view = { λ w. record {
      client = w.client;
      asked = asked_in w.header (Some w.question);
      taken = w.taken;
      held = held_of w.redirected;
      wanted = wanted_of w.question w.redirected;
    } };

    ghost invariant = { λ w. w.header.opcode < 16 };
}

impl<A: Allocator> Waiting<A> {
    /// The client's request, borrowed.
    pub fn request(&self) -> Request<'_>
        ensures client { result.client ≡ self.now.client }
        ensures asked { result.asked ≡ self.now.asked }
        ensures taken { result.taken ≡ self.now.taken }
    {
        Request {
            client: self.client,
            header: self.header,
            question: QuestionRef::of(&self.question),
            taken: self.taken,
        }
    }

    /// The held aliases, in order: at most eight.
    pub fn aliases(&self) -> &[Held<A>]
        ensures aliases { result.now ≡ self.now.held }
        ensures few { length self.now.held ≤ 8 }
    {
        match &self.redirected {
            None => &[],
            Some(redirected) => redirected.aliases.as_slice(),
        }
    }

    /// The wanted question.
    pub fn wanted(&self) -> &Question<A>
        ensures { result.now ≡ self.now.wanted }
    {
        match &self.redirected {
            None => &self.question,
            Some(redirected) => &redirected.wanted,
        }
    }

    /// Replaces the aliases; the question then waits for the question at the end of the new
    /// aliases.
    pub fn send_on(&mut self, redirected: Onward<A>)
        ensures { self.new ≡ record self.old { held = redirected.held; wanted = redirected.wanted } }
    {
        self.redirected = Some(redirected);
    }
}
