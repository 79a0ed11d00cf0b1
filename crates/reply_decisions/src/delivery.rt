//! The decision on a message on a path to a server. The public function is `on_delivery`. A reply
//! takes this way:
//!
//! 1. `on_delivery`: nothing if no ask on the path is live; otherwise the octets are judged.
//! 2. `on_verdict`: nothing for a stranger's, `attempt::fail` for a failure, or `on_whole`.
//! 3. `on_whole` reads the message: `attempt::fail` if malformed, or `on_message`.
//! 4. `on_message` walks the message from the question: `attempt::fail` for a lame server,
//!    `redirecting::send_on` if aliases lead elsewhere, or `accept`.
//! 5. `accept` answers all questions waiting for the ask, and keeps the pieces.

ghost use Rattle.std.specs.Prelude.{◌≡◌, ◌^◌, ◌≤◌, ℕ, true, false, Bool, List, IfOk, Some};
ghost use Rattle.dns_message.specs.Messages.{message_of};
ghost use Rattle.trust_rank.specs.Values.{End as EndValue};
ghost use Rattle.trust_rank.specs.Walks.{walk_of, has_last};
ghost use Rattle.reply_match.specs.Judged.{IsViewOf, verdict_of};
ghost use Rattle.reply_match.specs.declared.verdict.Verdict.TheVariants as Verdict;
ghost use Rattle.step_table.specs.Replies.{row_of_verdict, row_of_delivery, row_of_acceptance, row_of_walk};
ghost use Rattle.step_table.specs.Replies.{row_of_message, verdict_on};
ghost use Rattle.outstanding.specs.Lists.{on_path as ask_on};
ghost use Rattle.step_actions.specs.Decision.{IsQuiet, MeetsRow};
ghost use Rattle.plain_values.specs.Octets.{AreOctets};
ghost use Rattle.reply_decisions.specs.Walked.{walk_to, IsRead, IsWalkFor, ShowsOctets};
ghost use Rattle.step_table.specs.State.{start};

use crate::attempt::fail;
use crate::redirecting::send_on;
use alias_chains::{Slots, held_from};
use dns_message::{Fault, Message, MessageRef};
use outstanding::{KeyedAsk, Path};
use plain_values::PlainList;
use reply_match::{Judged, judge};
use retry_failover::Failure;
use std::alloc::{AllocError, Allocator};
use std::hash::BuildHasher;
use step_actions::{Change, Decision, Preferred, StepStartRef, answers_to, is_live, nothing};
use suffix_routes::Peer;
use trust_rank::{End, Piece, Walk, pieces};

/// Decides a delivery on a path to a server. Nothing if no ask on the path is live, or the octets
/// are not its reply. Out of line: inlined, its frame would be on the stack of each client's
/// question.
#[inline(never)]
pub fn on_delivery<'s, H: BuildHasher + Drop, A: Allocator + Copy>(
    start: &StepStartRef<'_, H, A>,
    path: Path,
    from: Peer,
    bytes: &[u8],
) -> Result<Decision<'s, A>, AllocError>
    ensures decides { IfOk result (MeetsRow start.now (λ rooms. row_of_delivery start.now rooms from bytes.now
        (ask_on path start.now.state.asks))) }
    ensures unmatched { verdict_on start.now.config start.now.moment from bytes.now
        (ask_on path start.now.state.asks) ≡ Verdict.Stranger → IsQuiet result }
{
    let Some(ask) = start.kept.inquiries.by_path(path) else {
        return Ok(nothing(start));
    };
    let asked = ask.ask();
    if !is_live(start.config, start.moment, asked) {
        return Ok(nothing(start));
    }
    let judged = judge(asked, from, bytes);
    on_verdict(start, ask, judged)
}

/// Decides a judged delivery. Nothing for a stranger's octets.
fn on_verdict<'s, H: BuildHasher + Drop, A: Allocator + Copy>(
    start: &StepStartRef<'_, H, A>,
    ask: &KeyedAsk<A>,
    judged: Judged<'_>,
) -> Result<Decision<'s, A>, AllocError>
    requires on { ask_on ask.now.path start.now.state.asks ≡ Some ask.now }
    requires octets { ShowsOctets judged }
    ensures decides { (octets : List ℕ) → IsViewOf octets judged.entry
        → IfOk result (MeetsRow start.now (λ rooms. row_of_verdict start.now rooms ask.now octets
        (verdict_of judged.entry))) }
    ensures unmatched { verdict_of judged.entry ≡ Verdict.Stranger → IsQuiet result }
{
    match judged {
        Judged::Stranger => Ok(nothing(start)),
        Judged::Truncated => fail(start, ask, Failure::Truncated),
        Judged::Failed(_) => fail(start, ask, Failure::Rcode),
        Judged::Malformed => fail(start, ask, Failure::Malformed),
        Judged::Whole(view) => on_whole(start, ask, &view),
    }
}

/// Reads a whole message that matches the ask, and decides it. An unreadable message is a failed
/// attempt; `Err` only if memory ran out.
fn on_whole<'s, H: BuildHasher + Drop, A: Allocator + Copy>(
    start: &StepStartRef<'_, H, A>,
    ask: &KeyedAsk<A>,
    view: &MessageRef<'_>,
) -> Result<Decision<'s, A>, AllocError>
    requires on { ask_on ask.now.path start.now.state.asks ≡ Some ask.now }
    requires octets { AreOctets view.now }
    ensures decides { IfOk result (MeetsRow start.now (λ rooms. row_of_message start.now rooms ask.now
        (message_of view.now))) }
{
    match view.read_whole(start.alloc) {
        Ok(message) => on_message(start, ask, &message),
        Err(fault) if matches!(fault, Fault::Memory) => Err(AllocError),
        Err(_) => fail(start, ask, Failure::Malformed),
    }
}

/// Decides a message that matches the ask. A lame server is a failed attempt.
fn on_message<'s, H: BuildHasher + Drop, A: Allocator + Copy>(
    start: &StepStartRef<'_, H, A>,
    ask: &KeyedAsk<A>,
    message: &Message<A>,
) -> Result<Decision<'s, A>, AllocError>
    requires on { ask_on ask.now.path start.now.state.asks ≡ Some ask.now }
    requires read { IsRead message.now }
    ensures decides { IfOk result (MeetsRow start.now (λ rooms. row_of_walk start.now rooms ask.now
        (walk_of start.now.config message.now ask.now.question ask.now.route))) }
{
    let asked = ask.ask();
    let Walk {
        pieces,
        authority,
        end,
    } = pieces(
        start.alloc,
        message,
        &asked.question,
        asked.route,
        start.config,
    )?;
    match end {
        End::Lame => fail(start, ask, Failure::Lame),
        End::Elsewhere(name) => send_on(start, ask, pieces, authority, name),
        End::Found | End::NoData | End::Denied => accept(start, ask, pieces, authority),
    }
}

/// Accepts a reply that answers, with these pieces: all that wait for it are answered, and its
/// pieces are kept.
fn accept<'s, H: BuildHasher + Drop, A: Allocator + Copy>(
    start: &StepStartRef<'_, H, A>,
    ask: &KeyedAsk<A>,
    pieces: PlainList<Piece<A>, A>,
    authority: PlainList<Piece<A>, A>,
) -> Result<Decision<'s, A>, AllocError>
    requires on { ask_on ask.now.path start.now.state.asks ≡ Some ask.now }
    ensures decides { (e : EndValue) → has_last e ≡ true
        → IsWalkFor start.now.config ask.now (walk_to pieces authority e)
        → IfOk result (MeetsRow start.now (λ rooms. row_of_acceptance start.now rooms ask.now
        (walk_to pieces authority e))) }
{
    let walked = pieces.as_slice().len();
    let held = held_from(start.alloc, pieces, authority, start.moment)?;
    let waiting = &start.kept.waiting;
    let actions = answers_to(start.alloc, ask, &held[..walked], start.moment, waiting)?;
    let answered = ask.ask();
    let preferred = Preferred {
        route: answered.route,
        server: answered.server,
    };
    Ok(Decision {
        actions,
        used: Slots::none(start.alloc),
        change: Change::Close(answered.path, Some(preferred)),
        carried: held,
    })
}
