//! Answers from borrowed pieces. From the second reply on a text is written once for all questions
//! of one spelling and transport, since their answers differ in identifier, opcode and RD alone
//! (RFC 1035 4.1.1).

ghost use Rattle.std.specs.Prelude.{◌≡◌, ◌<◌, ◌≤◌, ◌++◌, IfOk, MatchOption, Some, None, length};
ghost use Rattle.std.specs.Prelude.{option_map};
ghost use Rattle.std.specs.List.{AllByRecursion, find};
ghost use Rattle.std.specs.Option.{IfSome};
ghost use Rattle.answer_builder.specs.Answers.{IsEarlier};
ghost use Rattle.plain_values.specs.Borrowed.{lent};
ghost use Rattle.answer_builder.specs.Transports.{answer_of};
ghost use Rattle.step_values.specs.Values.{action_of};
ghost use Rattle.step_values.specs.declared.action.Why.TheVariants.{Answered};
ghost use Rattle.step_table.specs.Steps.{sends, transport_of};
ghost use Rattle.step_texts.specs.Spelling.{are_alike, is_for, IsSpelled, ok_text, same_spelling};
ghost use Rattle.step_texts.specs.Spelling.{with_front};

use crate::texts::{reply, reply_with, text_of, transport_of};
use answer_builder::{AskedRef, Sections, Transport};
use dns_message::{Question, reply_front};
use dns_name::Name;
use plain_values::{Octets, PlainList};
use record_cache::Held;
use std::alloc::{AllocError, Allocator, Global};
use std::marker::Model;
use step_table::waiting::{Request, Waiting};
use step_values::{Action, Why};

/// The reply to a question from a chain of pieces, none accepted after the moment, in milliseconds:
/// aliases in order, then a set or a denial.
pub fn answer<A: Allocator + Copy>(
    alloc: A,
    request: &Request<'_>,
    chain: &[&Held<A>],
    moment: u64,
) -> Result<Action<A>, AllocError>
    requires earlier { AllByRecursion (IsEarlier moment) (lent chain.now) }
    ensures { IfOk result (λ action. action_of action ≡ sends Answered request.now
        (answer_of request.now.asked (lent chain.now) moment (transport_of request.now.client))) }
{
    let sections = Sections::answer(alloc, chain, moment)?;
    reply(alloc, request, &sections, Why::Answered)
}

/// The replies to all waiting questions, from one chain of pieces.
#[derive(Drop)]
pub struct Answers<'a, A: Allocator = Global> {
    alloc: A,
    chain: &'a [&'a Held<A>],
    /// In milliseconds.
    moment: u64,
    /// Whether a reply was given. Mostly there is a single reply, whose text is not kept.
    has_replied: bool,
    /// The texts of further replies.
    spelled: PlainList<Spelled<'a, A>, A>,
}

impl<'a, A: Allocator> Model for Answers<'a, A> {
    ghost use Rattle.std.specs.List.{AllByRecursion};
    ghost use Rattle.answer_builder.specs.Answers.{IsEarlier};
    ghost use Rattle.plain_values.specs.Borrowed.{lent};
    ghost use Rattle.step_texts.specs.Spelling.{Source, AreSpelled};

    ghost Value = { Source };

    ghost view = { λ a. record { chain = lent a.chain.now; moment = a.moment } };

    ghost invariant = { λ a. AreSpelled (lent a.chain.now) a.moment a.spelled };
}

impl<'a, A: Allocator + Copy> Answers<'a, A> {
    /// Answers from this chain, none of it accepted after the moment, in milliseconds.
    pub fn new(alloc: A, chain: &'a [&'a Held<A>], moment: u64) -> Answers<'a, A>
        requires { AllByRecursion (IsEarlier moment) (lent chain.now) }
        ensures { result ≡ record { chain = lent chain.now; moment = moment } }
    {
        Answers {
            alloc,
            chain,
            moment,
            has_replied: false,
            spelled: PlainList::new(alloc),
        }
    }

    /// How many pieces the chain has.
    pub fn pieces(&self) -> usize
        ensures { result ≡ length self.now.chain }
    {
        self.chain.len()
    }

    /// The reply to a question, from its held aliases and then the chain. The caller makes sure
    /// that none of the aliases was accepted after the moment.
    pub fn reply(&mut self, waiting: &'a Waiting<A>) -> Result<Action<A>, AllocError>
        requires earlier { AllByRecursion (IsEarlier self.old.moment) waiting.now.held }
        ensures same { self.new ≡ self.old }
        ensures reply { IfOk result (λ action. action_of action
            ≡ sends Answered waiting.now (answer_of waiting.now.asked
            (waiting.now.held ++ self.old.chain) self.old.moment (transport_of waiting.now.client))) }
    {
        let aliases = waiting.aliases();
        if aliases.is_empty() {
            return self.plain_reply(waiting);
        }
        let whole = chain_after(self.alloc, aliases, self.chain)?;
        answer(self.alloc, &waiting.request(), &whole, self.moment)
    }

    /// The reply to a question without held aliases.
    fn plain_reply(&mut self, waiting: &'a Waiting<A>) -> Result<Action<A>, AllocError>
        ensures same { self.new ≡ self.old }
        ensures reply { IfOk result (λ action. action_of action
            ≡ sends Answered waiting.now (answer_of waiting.now.asked self.old.chain self.old.moment
            (transport_of waiting.now.client))) }
    {
        let request = waiting.request();
        if !self.has_replied {
            self.has_replied = true;
            return answer(self.alloc, &request, self.chain, self.moment);
        }
        let text = self.text_for(waiting, transport_of(waiting.client))?;
        reply_with(self.alloc, &request, text, Why::Answered)
    }

    /// The text for a question: of an earlier question in this spelling, or written now and kept.
    fn text_for(
        &mut self,
        waiting: &'a Waiting<A>,
        transport: Transport,
    ) -> Result<Option<Octets<A>>, AllocError>
        ensures same { self.new ≡ self.old }
        ensures text { IfOk result (λ text. text
            ≡ ok_text (answer_of waiting.now.asked self.old.chain self.old.moment transport)) }
    {
        let request = waiting.request();
        if let Some(spelled) = find_spelled(self.spelled.as_slice(), &waiting.question, transport) {
            return repeated(self.alloc, &request, spelled);
        }
        let sections = Sections::answer(self.alloc, self.chain, self.moment)?;
        let text = text_of(self.alloc, &request, &sections, transport)?;
        let spelled = Spelled {
            question: &waiting.question,
            transport,
            text,
        };
        let own = repeated(self.alloc, &request, &spelled)?;
        self.spelled.push(spelled)?;
        Ok(own)
    }
}

/// The text for this question over this transport, if it was written.
fn find_spelled<'a, 'b, A: Allocator>(
    texts: &'b [Spelled<'a, A>],
    question: &Question<A>,
    transport: Transport,
) -> Option<&'b Spelled<'a, A>>
    ensures { MatchOption result (find (is_for transport question.now) texts.now ≡ None)
        (λ s. find (is_for transport question.now) texts.now ≡ Some s.now) }
{
    for spelled in texts {
        if spelled.transport == transport && is_alike(spelled.question, question) {
            return Some(spelled);
        }
    }
    None
}

/// Whether the questions are equal, letter case included.
fn is_alike<A: Allocator>(a: &Question<A>, b: &Question<A>) -> bool
    ensures { result ≡ are_alike a.now b.now }
{
    is_same_spelling(&a.name, &b.name) && a.kind == b.kind && a.class == b.class
}

/// Whether the names are equal, letter case included.
fn is_same_spelling<A: Allocator>(a: &Name<A>, b: &Name<A>) -> bool
    ensures { result ≡ same_spelling a.now b.now }
{
    a.octets() == b.octets()
}

/// The written text, under the front of the answer to this question.
fn repeated<A: Allocator + Copy>(
    alloc: A,
    request: &Request<'_>,
    spelled: &Spelled<'_, A>,
) -> Result<Option<Octets<A>>, AllocError>
    requires { IfSome spelled.now.text (λ text. 3 ≤ length text) }
    ensures { IfOk result (λ text. text ≡ option_map (with_front request.now.asked) spelled.now.text) }
{
    match &spelled.text {
        None => Ok(None),
        Some(text) => {
            let own = under_front(alloc, &request.asked(), text.as_slice())?;
            Ok(Some(own))
        }
    }
}

/// The octets of an answer under a new front.
fn under_front<A: Allocator + Copy>(
    alloc: A,
    asked: &AskedRef<'_>,
    text: &[u8],
) -> Result<Octets<A>, AllocError>
    requires opcode { asked.now.opcode < 16 }
    requires some { 3 ≤ length text.now }
    ensures { IfOk result (λ own. own ≡ with_front asked.now text.now) }
{
    let mut octets = Vec::with_capacity(alloc, text.len())?;
    octets.extend_from_slice(&reply_front(asked.id, asked.opcode, text[2], asked.rd))?;
    octets.extend_from_slice(&text[3..])?;
    Ok(Octets::from_vec(octets))
}

/// The text for a question in one spelling; `None` if too large.
#[derive(Drop)]
pub(crate) struct Spelled<'a, A: Allocator = Global> {
    question: &'a Question<A>,
    transport: Transport,
    text: Option<Octets<A>>,
}

/// The aliases and then the chain, borrowed.
pub(crate) fn chain_after<'a, A: Allocator + Copy>(
    alloc: A,
    aliases: &'a [Held<A>],
    chain: &[&'a Held<A>],
) -> Result<Vec<&'a Held<A>, A>, AllocError>
    ensures { IfOk result (λ whole. lent whole.items ≡ aliases.now ++ lent chain.now) }
{
    let count = aliases.len().saturating_add(chain.len());
    let mut whole = Vec::with_capacity(alloc, count)?;
    for held in aliases {
        whole.push(held)?;
    }
    whole.extend_from_slice(chain)?;
    Ok(whole)
}
