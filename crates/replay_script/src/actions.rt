//! Actions, printed a line each.

ghost use Rattle.std.specs.Prelude.{◌≡◌, IfOk, string_bytes};
ghost use Rattle.step_values.specs.Values.{action_of, actions_of};
ghost use Rattle.replay_script.specs.Printing.{printed, printed_all, printed_reply, Writes};
ghost use Rattle.replay_script.specs.Reasons.{number_of};

use crate::fault::ReplayFault;
use crate::output::write_text;
use forwarder_core::{Action, Actions, Client, Why};
use std::alloc::{AllocError, Allocator};
use std::io::Write;

/// Prints the actions of the event line with this number, in order. `Device` if writing fails,
/// `Memory` if memory ran out; then a beginning of their lines is written.
pub(crate) fn print_all<A: Allocator + Copy, W: Write>(
    alloc: A,
    writer: &mut W,
    line: u32,
    actions: &Actions<A>,
) -> Result<(), ReplayFault>
    ensures { Writes (W.contents writer.old) (printed_all line (actions_of actions.now)) result
        (W.contents writer.new) }
{
    for place in 0..actions.len() {
        let Some(action) = actions.get(place) else {
            unreachable!();
        };
        print(alloc, writer, line, action)?;
    }
    Ok(())
}

/// Prints an action of the event line with this number. `Device` if writing fails, `Memory` if
/// memory ran out; then a beginning of the line is written.
pub fn print<A: Allocator + Copy, W: Write>(
    alloc: A,
    writer: &mut W,
    line: u32,
    action: &Action<A>,
) -> Result<(), ReplayFault>
    ensures { Writes (W.contents writer.old) (printed line (action_of action.now)) result (W.contents writer.new) }
{
    let text = text_of(alloc, line, action)?;
    write_text(writer, text.as_bytes())
}

/// The line of an action.
fn text_of<A: Allocator + Copy>(
    alloc: A,
    line: u32,
    action: &Action<A>,
) -> Result<String<A>, AllocError>
    ensures { IfOk result (λ text. string_bytes text ≡ printed line (action_of action.now)) }
{
    match action {
        Action::AskUdp {
            port,
            server,
            bytes,
        } => {
            let octets = hex::encode(alloc, bytes.as_slice())?;
            format!(in alloc; "{line} ask-udp {port} {server} {octets}\n")
        }
        Action::AskTcp {
            conn,
            server,
            bytes,
        } => {
            let octets = hex::encode(alloc, bytes.as_slice())?;
            format!(in alloc; "{line} ask-tcp {conn} {server} {octets}\n")
        }
        Action::CloseUdp { port } => format!(in alloc; "{line} close-udp {port}\n"),
        Action::CloseTcp { conn } => format!(in alloc; "{line} close-tcp {conn}\n"),
        Action::Reply { client, bytes, why } => {
            text_of_reply(alloc, line, *client, bytes.as_slice(), *why)
        }
    }
}

/// The line of a reply.
fn text_of_reply<A: Allocator + Copy>(
    alloc: A,
    line: u32,
    client: Client,
    reply: &[u8],
    why: Why,
) -> Result<String<A>, AllocError>
    ensures { IfOk result (λ text. string_bytes text ≡ printed_reply line client reply.now why) }
{
    let why = number_of(why);
    let octets = hex::encode(alloc, reply)?;
    match client {
        Client::Udp(peer) => format!(in alloc; "{line} reply udp {peer} {why} {octets}\n"),
        Client::Tcp(number) => format!(in alloc; "{line} reply tcp {number} {why} {octets}\n"),
    }
}

/// The number of a reply's reason in printed lines.
pub(crate) fn number_of(why: Why) -> u8
    ensures { result ≡ number_of why }
{
    match why {
        Why::Answered => 0,
        Why::BadFormat => 1,
        Why::BadOpcode => 2,
        Why::NotServed => 3,
        Why::NoRoute => 4,
        Why::QuestionsFull => 5,
        Why::InquiriesFull => 6,
        Why::NoPort => 7,
        Why::Exhausted => 8,
        Why::Deadline => 9,
        Why::ChainLong => 10,
        Why::TooLarge => 11,
        Why::Stale => 12,
        Why::LocalDenied => 13,
    }
}
