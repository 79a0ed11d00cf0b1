//! Event lines of a script, read as moments and events.

ghost use Rattle.std.specs.Prelude.{◌≡◌, ◌≤◌, Ok, IfErr, IfOk};
ghost use Rattle.std.specs.List.{list_all};
ghost use Rattle.std.specs.Char.{is_ascii_digit};
ghost use Rattle.step_values.specs.Values.{event_of};
ghost use Rattle.replay_script.specs.Lines.{Gives, Shows, IsLineFault, cut, read_of, is_numeral, number_in, port_in};
ghost use Rattle.replay_script.specs.Lines.{peer_in, octets_in, path_in, client_in, client_event_in, reply_event_in};
ghost use Rattle.replay_script.specs.Lines.{failed_event_in, event_in, happening_in, moment_and_event_in, line_in};
ghost use Rattle.replay_script.specs.declared.events.Refusal.TheVariants.{Memory};
ghost use Rattle.replay_script.specs.Words.{words_of};

use crate::fault::ReplayFault;
use forwarder_core::{Client, Event, Path, StepInput};
use hex::FromHexError;
use plain_values::{Octets, PlainList};
use std::alloc::{AllocError, Allocator};
use suffix_routes::Peer;
use thiserror::Error;

/// How many event lines a script may have.
pub const MOST_LINES: u32 = 8191;

/// Why a line gives no event.
#[derive(Clone, Copy, PartialEq, Eq, Debug, Error)]
pub(crate) enum Refusal {
    /// The line has none of the forms.
    #[error("none of the forms")]
    Form,
    /// Memory ran out.
    #[error("memory")]
    Memory,
}

impl From<AllocError> for Refusal {
    ghost from_gives = { λ _ e. e ≡ Memory };

    fn from(_: AllocError) -> Refusal {
        Refusal::Memory
    }
}

/// An event with its moment, in milliseconds.
#[derive(Drop)]
pub(crate) struct TimedEvent<A: Allocator> {
    pub moment: u64,
    pub event: Event<A>,
}

/// The words of the event line with this number.
pub(crate) fn words(line: u32) -> [u32; 8]
    requires { line ≤ MOST_LINES }
    ensures { result ≡ words_of line }
{
    let first = line * 8;
    [
        first * 65537,
        (first + 1) * 65537,
        (first + 2) * 65537,
        (first + 3) * 65537,
        (first + 4) * 65537,
        (first + 5) * 65537,
        (first + 6) * 65537,
        (first + 7) * 65537,
    ]
}

/// The moment, words and event of the event line with this number. `Line` if the line has none of
/// the forms, `Memory` if memory ran out.
pub fn input_of_line<A: Allocator>(
    alloc: A,
    number: u32,
    line: &[u8],
) -> Result<StepInput<A>, ReplayFault>
    requires { number ≤ MOST_LINES }
    ensures words { IfOk result (λ input. input.words ≡ words_of number) }
    ensures read { IfOk result (λ input. line_in line.now ≡ Ok (input.now, input.event)) }
    ensures refused { IfErr result (IsLineFault number line.now) }
{
    match timed_event(alloc, line) {
        Ok(timed) => Ok(StepInput {
            now: timed.moment,
            words: words(number),
            event: timed.event,
        }),
        Err(Refusal::Form) => Err(ReplayFault::Line(number)),
        Err(Refusal::Memory) => Err(ReplayFault::Memory),
    }
}

/// The event of a line: `MOMENT client udp PEER OCTETS`, `MOMENT client tcp NUMBER OCTETS`, `MOMENT
/// reply udp PORT PEER OCTETS`, `MOMENT reply tcp NUMBER PEER OCTETS`, `MOMENT failed udp PORT`,
/// `MOMENT failed tcp NUMBER`, `MOMENT tick` or `MOMENT restart`.
#[tactic(auto, unfolding(crate::specs::Lines::line_in))]
pub(crate) fn timed_event<A: Allocator>(alloc: A, line: &[u8]) -> Result<TimedEvent<A>, Refusal>
    ensures { Gives (λ timed. (timed.moment, event_of timed.event)) result (line_in line.now) }
{
    match str::from_utf8(line) {
        Ok(text) => moment_and_event(alloc, text),
        Err(_) => Err(Refusal::Form),
    }
}

#[tactic(auto, unfolding(crate::specs::Lines::moment_and_event_in))]
fn moment_and_event<A: Allocator>(alloc: A, text: &str) -> Result<TimedEvent<A>, Refusal>
    ensures { Gives (λ timed. (timed.moment, event_of timed.event)) result (moment_and_event_in text.now) }
{
    let (moment, rest) = cut(text)?;
    let moment = number(moment, 20)?;
    let event = happening(alloc, rest)?;
    Ok(TimedEvent { moment, event })
}

/// The event of a line: a kind alone, or a kind with fields.
#[tactic(auto, unfolding(crate::specs::Lines::happening_in))]
fn happening<A: Allocator>(alloc: A, text: &str) -> Result<Event<A>, Refusal>
    ensures { Gives event_of result (happening_in text.now) }
{
    match text {
        "tick" => Ok(Event::Tick),
        "restart" => Ok(Event::Restart),
        _ => event_of_kind(alloc, text),
    }
}

/// An event with more than a kind.
#[tactic(auto, unfolding(crate::specs::Lines::event_in))]
fn event_of_kind<A: Allocator>(alloc: A, text: &str) -> Result<Event<A>, Refusal>
    ensures { Gives event_of result (event_in text.now) }
{
    let (kind, rest) = cut(text)?;
    match kind {
        "client" => client_event(alloc, rest),
        "reply" => reply_event(alloc, rest),
        "failed" => failed_event(rest),
        _ => Err(Refusal::Form),
    }
}

/// The first field, and the text after the space.
#[tactic(auto, unfolding(crate::specs::Lines::cut))]
fn cut(text: &str) -> Result<(&str, &str), Refusal>
    ensures { Shows (λ parts. (parts.0.now, parts.1.now)) result (cut text.now) }
{
    text.split_once(' ').ok_or(Refusal::Form)
}

#[tactic(auto, unfolding(crate::specs::Lines::client_event_in))]
fn client_event<A: Allocator>(alloc: A, text: &str) -> Result<Event<A>, Refusal>
    ensures { Gives event_of result (client_event_in text.now) }
{
    let (transport, rest) = cut(text)?;
    let (from, digits) = cut(rest)?;
    let client = client(transport, from)?;
    let bytes = octets(alloc, digits)?;
    Ok(Event::Client { client, bytes })
}

#[tactic(auto, unfolding(crate::specs::Lines::reply_event_in))]
fn reply_event<A: Allocator>(alloc: A, text: &str) -> Result<Event<A>, Refusal>
    ensures { Gives event_of result (reply_event_in text.now) }
{
    let (transport, rest) = cut(text)?;
    let (at, rest) = cut(rest)?;
    let (from, digits) = cut(rest)?;
    let path = path(transport, at)?;
    let from = peer(from)?;
    let bytes = octets(alloc, digits)?;
    Ok(Event::Delivery { path, from, bytes })
}

#[tactic(auto, unfolding(crate::specs::Lines::failed_event_in))]
fn failed_event<A: Allocator>(text: &str) -> Result<Event<A>, Refusal>
    ensures { Shows event_of result (failed_event_in text.now) }
{
    let (transport, at) = cut(text)?;
    let path = path(transport, at)?;
    Ok(Event::PathFailed { path })
}

/// Who asks: a peer by UDP, or the number of a connection.
#[tactic(auto, unfolding(crate::specs::Lines::client_in))]
fn client(transport: &str, from: &str) -> Result<Client, Refusal>
    ensures { result ≡ client_in transport.now from.now }
{
    match transport {
        "udp" => Ok(Client::Udp(peer(from)?)),
        "tcp" => Ok(Client::Tcp(number(from, 20)?)),
        _ => Err(Refusal::Form),
    }
}

/// The path to a server: a port of UDP, or the number of a connection.
#[tactic(auto, unfolding(crate::specs::Lines::path_in))]
fn path(transport: &str, at: &str) -> Result<Path, Refusal>
    ensures { result ≡ path_in transport.now at.now }
{
    match transport {
        "udp" => Ok(Path::Udp(port(at)?)),
        "tcp" => Ok(Path::Tcp(number(at, 20)?)),
        _ => Err(Refusal::Form),
    }
}

/// The number in 1 to 20 decimal digits; `None` for any other text and for numbers of more than 64
/// bits.
pub fn decimal(text: &str) -> Option<u64>
    ensures { result ≡ read_of (number_in 20 text.now) }
{
    number(text, 20).ok()
}

/// A decimal number of 1 to `most` digits and at most 64 bits.
#[tactic(auto, unfolding(crate::specs::Lines::number_in))]
fn number(text: &str, most: usize) -> Result<u64, Refusal>
    ensures { result ≡ number_in most text.now }
{
    if !is_numeral(text, most) {
        return Err(Refusal::Form);
    }
    match text.parse::<u64>() {
        Ok(number) => Ok(number),
        Err(_) => Err(Refusal::Form),
    }
}

/// The text has 1 to `most` digits, and nothing else.
fn is_numeral(text: &str, most: usize) -> bool
    ensures { result ≡ is_numeral most text.now }
{
    !text.is_empty() && text.len() <= most && has_digits(text)
}

fn has_digits(text: &str) -> bool
    ensures { result ≡ list_all is_ascii_digit text.now }
{
    text.as_bytes().iter().all(|octet| octet.is_ascii_digit())
}

/// A number of at most 16 bits.
#[tactic(auto, unfolding(crate::specs::Lines::port_in))]
fn port(text: &str) -> Result<u16, Refusal>
    ensures { result ≡ port_in text.now }
{
    u16::try_from(number(text, 5)?).map_err(|_| Refusal::Form)
}

#[tactic(auto, unfolding(crate::specs::Lines::peer_in))]
fn peer(text: &str) -> Result<Peer, Refusal>
    ensures { result ≡ peer_in text.now }
{
    Peer::from_text(text).ok_or(Refusal::Form)
}

/// Octets in hexadecimal digits of either case; `-` is none, and empty text is refused.
#[tactic(auto, unfolding(crate::specs::Lines::octets_in))]
fn octets<A: Allocator>(alloc: A, text: &str) -> Result<Octets<A>, Refusal>
    ensures { Gives (λ octets. octets) result (octets_in text.now) }
{
    match text {
        "" => Err(Refusal::Form),
        "-" => Ok(PlainList::new(alloc)),
        _ => match hex::decode(alloc, text) {
            Ok(octets) => Ok(PlainList::from_vec(octets)),
            Err(FromHexError::OutOfMemory) => Err(Refusal::Memory),
            Err(_) => Err(Refusal::Form),
        },
    }
}
