//! The commands.

ghost use Rattle.std.specs.Prelude.{◌≡◌, ◌⊎◌, IfOk, IfErr, OnOk};
ghost use Rattle.forwarder_commands.specs.Commands.{command_by, IsOfOctets, IsFaultOfFile, IsFaultOfCheck};
ghost use Rattle.forwarder_commands.specs.Commands.{IsFaultOfServe, IsFaultOfReplay};
ghost use Rattle.replay_script.specs.Configs.{IsOfStream};
ghost use Rattle.forwarder_commands.specs.Done.{Checks, ServesOctets, IsDone};
ghost use Rattle.forwarder_commands.specs.declared.commands.Command.TheVariants.{Check, Serve, Replay};

use crate::arguments::{LONGEST, argument, count, text};
use crate::checked::write_checked;
use crate::fault::Fault;
use crate::files::Opened;
use crate::refused::say_refused;
use crate::saying::{say, say_unread, unopened};
use crate::serving::serve_config;
use crate::wanted_turns::{Turns, read_turns};
use replay_script::{ReplayFault, config_in, read_limited, replay_run};
use std::io;
use std::io::{BufWriter, Write};
use std::net::Net;
use std::random::RandomSource;
use std::rt::{Clock, Env};
use suffix_routes::Config;

/// A command of the program.
#[derive(Clone, Copy, PartialEq, Eq, Debug)]
pub enum Command {
    /// Say whether a configuration is accepted.
    Check,
    /// Serve clients.
    Serve,
    /// Run a script.
    Replay,
}

/// The command of a first argument, with `count` arguments in all; `None` for any other.
pub fn command_of(word: &str, count: usize) -> Option<Command>
    ensures { result ≡ command_by word.now count }
{
    match word {
        "check" if count == 2 => Some(Command::Check),
        "serve" if count == 3 => Some(Command::Serve),
        "replay" if count == 1 => Some(Command::Replay),
        _ => None,
    }
}

/// Does as the arguments say. All but the names of files are text.
pub fn run<R>(rt: &R) -> Result<(), Fault>
where
    R: Env + Input + Print + AllocGlobal + Net + Clock + RandomSource,
    ensures { OnOk result ((IsDone Check) ⊎ (IsDone Serve) ⊎ (IsDone Replay)) }
{
    let mut room = [0u8; LONGEST];
    let word = text(rt, 1, &mut room).ok_or(Fault::Usage)?;
    match command_of(word, count(rt)) {
        Some(Command::Check) => check(rt),
        Some(Command::Serve) => serve(rt),
        Some(Command::Replay) => replay(rt),
        None => Err(Fault::Usage),
    }
}

/// Prints the number of routes of the configuration named by the second argument.
fn check<R: Env + Print + AllocGlobal>(rt: &R) -> Result<(), Fault>
    ensures done { OnOk result (IsDone Check) }
    ensures fault { IfErr result IsFaultOfCheck }
{
    let mut room = [0u8; LONGEST];
    let name = named_file(rt, &mut room)?;
    check_file(rt, name, &mut io::writer(rt))?;
    Ok(())
}

/// Writes the number of routes of the configuration in the file with this name; faults as of
/// [`load`], and `Device` if the writer fails.
pub fn check_file<R: Print + AllocGlobal, W: Write>(
    rt: &R,
    name: &[u8],
    writer: &mut W,
) -> Result<(), ReplayFault>
    ensures done { OnOk result (Checks (W.contents writer.old) (W.contents writer.new)) }
    ensures fault { IfErr result IsFaultOfFile }
{
    let config = load(rt, name)?;
    write_checked(&config, writer)?;
    Ok(())
}

/// The configuration in the file with this name. `Device` if the file is unreadable or longer than
/// 16,777,216 octets, `Config` if the configuration is refused, `Memory` if memory ran out. After
/// `Device` and `Config`, standard output says why.
pub fn load<R: Print + AllocGlobal>(rt: &R, name: &[u8]) -> Result<Config, ReplayFault>
    ensures read { IfOk result IsOfOctets }
    ensures refused { IfErr result IsFaultOfFile }
{
    let mut file = match Opened::open(name) {
        Ok(file) => file,
        Err(error) => return Err(unopened(rt, name, error)),
    };
    let octets = match read_limited(rt.alloc(), &mut file) {
        Ok(octets) => octets,
        Err(fault) => {
            if fault == ReplayFault::Device {
                say_unread(rt, name, &file);
            }
            return Err(fault);
        }
    };
    let config = config_in(rt.alloc(), rt.alloc(), &octets);
    if let Err(ReplayFault::Config(fault)) = &config {
        say_refused(rt, &octets, fault);
    }
    config
}

/// The name of a file in the second argument; a name too long for a file is unreadable.
fn named_file<'a, R: Env + Print>(rt: &R, room: &'a mut [u8]) -> Result<&'a [u8], ReplayFault>
    ensures { IfErr result IsOfStream }
{
    match argument(rt, 2, room) {
        Ok(name) => Ok(name),
        Err(_) => {
            say(rt, &"the name of the file has more than 4095 octets");
            Err(ReplayFault::Device)
        }
    }
}

/// Serves the turns of the third argument by the configuration named by the second, and prints the
/// counts.
fn serve<R>(rt: &R) -> Result<(), Fault>
where
    R: Env + Print + AllocGlobal + Net + Clock + RandomSource,
    ensures done { OnOk result (IsDone Serve) }
    ensures fault { IfErr result IsFaultOfServe }
{
    let turns = read_turns(rt).ok_or(Fault::Usage)?;
    let mut room = [0u8; LONGEST];
    let name = named_file(rt, &mut room)?;
    serve_file(rt, name, turns, &mut io::writer(rt))
}

/// Serves as many turns by the configuration in the file with this name, and writes the counts;
/// faults as of [`load`] and [`serve_config`].
pub fn serve_file<R, W>(rt: &R, name: &[u8], turns: Turns, writer: &mut W) -> Result<(), Fault>
where
    R: Print + AllocGlobal + Net + Clock + RandomSource,
    W: Write,
    ensures done { OnOk result (ServesOctets turns.number (W.contents writer.old) (W.contents writer.new)) }
    ensures fault { IfErr result IsFaultOfCheck }
{
    let config = load(rt, name)?;
    serve_config(rt, rt.alloc(), config, turns, writer)
}

/// Replays standard input. Lines printed before a fault are written out, too.
fn replay<R: Input + Print + AllocGlobal>(rt: &R) -> Result<(), Fault>
    ensures done { OnOk result (IsDone Replay) }
    ensures fault { IfErr result IsFaultOfReplay }
{
    let mut reader = rt.reader();
    let mut writer = BufWriter::new(rt.alloc(), io::writer(rt))?;
    let ran = replay_run(rt.alloc(), rt.alloc(), &mut reader, &mut writer);
    writer.flush()?;
    ran?;
    Ok(())
}
