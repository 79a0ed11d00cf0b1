//! Changes of a forwarder's lists: the asks under way and the waiting questions.

ghost use Rattle.std.specs.Prelude.{◌≡◌, ◌<◌, ◌∷◌, ◌++◌, [], length, IsSome, OnOk, OnErr};
ghost use Rattle.std.specs.Option.{IfSome};
ghost use Rattle.outstanding.specs.Lists.{AreListed, MayBegin, on_path as ask_on, without_path};
ghost use Rattle.step_texts.specs.StepTable.Steps.{ask_list};
ghost use Rattle.step_actions.specs.Decision.{left_or_sent, left_waiting, without_closed, AreForThose};

use outstanding::{Ask, Inquiries, KeyedAsk, Path, Refusal};
use std::alloc::{AllocError, Allocator};
use step_texts::waiting::{Onward, WaitingQuestions};

/// Lists an ask for which there is room.
pub(crate) fn list_ask<A: Allocator>(
    inquiries: &mut Inquiries<A>,
    ask: KeyedAsk<A>,
) -> Result<(), AllocError>
    requires begins { MayBegin ask inquiries.old.asks }
    requires room { length inquiries.old.asks < inquiries.old.capacity }
    ensures ok { OnOk result (inquiries.new ≡ record inquiries.old { asks = inquiries.old.asks ++ ask ∷ [] }) }
    ensures err { OnErr result (inquiries.new ≡ inquiries.old) }
    ensures listed { AreListed inquiries.new }
{
    match inquiries.begin(ask) {
        Ok(()) => Ok(()),
        Err((_, Refusal::Full)) => unreachable!(),
        Err((_, Refusal::Memory)) => Err(AllocError),
    }
}

/// Closes the ask on the path; the questions waiting for it wait no more.
pub(crate) fn close_inquiry<A: Allocator>(
    inquiries: &mut Inquiries<A>,
    waiting: &mut WaitingQuestions<A>,
    path: Path,
)
    ensures asks { inquiries.new ≡ record inquiries.old { asks = without_path path inquiries.old.asks } }
    ensures waiting { waiting.new.items ≡ left_waiting (ask_on path inquiries.old.asks) waiting.old.items }
{
    if let Some(ask) = inquiries.end(path) {
        waiting.end(&ask);
    }
}

/// Closes the ask on the path, and lists the next, if any. The questions waiting for it wait no
/// more, or wait on as redirected.
pub(crate) fn send_on<A: Allocator>(
    inquiries: &mut Inquiries<A>,
    waiting: &mut WaitingQuestions<A>,
    path: Path,
    next: Option<Ask<A>>,
    onward: Vec<Option<Onward<A>>, A>,
)
    requires those { AreForThose (ask_on path inquiries.old.asks) onward.items waiting.old.items }
    requires begins { IfSome next (λ ask. MayBegin ask (without_path path inquiries.old.asks)) }
    ensures asks { inquiries.new ≡ record inquiries.old {
      asks = without_path path inquiries.old.asks
          ++ ask_list next;
    } }
    ensures listed { AreListed inquiries.new }
    ensures waiting { waiting.new.items ≡ left_or_sent (ask_on path inquiries.old.asks) onward.items waiting.old.items }
{
    if let Some(ended) = end_or_replace(inquiries, path, next) {
        waiting.send_on(&ended, onward);
    }
}

/// Ends the ask on a path, if any.
pub(crate) fn end_closed<A: Allocator>(inquiries: &mut Inquiries<A>, closed: Option<Path>)
    ensures { inquiries.new ≡ record inquiries.old { asks = without_closed closed inquiries.old.asks } }
{
    if let Some(path) = closed {
        let _ended = inquiries.end(path);
    }
}

/// Ends the ask on a path, and lists the next one, if any. Returns the ended ask with the key of
/// its question.
fn end_or_replace<A: Allocator>(
    inquiries: &mut Inquiries<A>,
    path: Path,
    next: Option<Ask<A>>,
) -> Option<KeyedAsk<A>>
    requires listed { IsSome (ask_on path inquiries.old.asks) }
    requires begins { IfSome next (λ ask. MayBegin ask (without_path path inquiries.old.asks)) }
    ensures ended { result ≡ ask_on path inquiries.old.asks }
    ensures asks { inquiries.new ≡ record inquiries.old {
      asks = without_path path inquiries.old.asks
          ++ ask_list next;
    } }
    ensures listed { AreListed inquiries.new }
{
    match next {
        Some(ask) => Some(inquiries.replace(path, ask)),
        None => inquiries.end(path),
    }
}
