//! The service: a forwarder over sockets, both of one configuration.

ghost use Rattle.std.specs.Prelude.{◌≡◌, ◌<◌, ◌-◌, ◌^◌, IfOk, IfErr, OnOk};
ghost use Rattle.replay_script.specs.StepTable.Steps.{initial};
ghost use Rattle.wires.specs.Wire.{journal};
ghost use Rattle.replay_script.specs.Configs.{IsOfStream};
ghost use Rattle.forwarder_commands.specs.Commands.{IsFaultOfStream};
ghost use Rattle.forwarder_commands.specs.Service.{IsWireOf, ServesAndReports, ServesFrom, StopsServing};
ghost use Rattle.forwarder_commands.specs.Service.{journal_of};
ghost use Rattle.socket_wire.specs.History.{IsOfCalls};

use crate::counted::Counted;
use crate::fault::Fault;
use crate::saying::unlistened;
use crate::wanted_turns::Turns;
use replay_script::ReplayFault;
use serving_loop::{Forwarder, serve};
use socket_wire::MioWire;
use std::alloc::Allocator;
use std::hash::{BuildHasher, RandomState};
use std::io::Write;
use std::net::Net;
use std::random::RandomSource;
use std::rt::Clock;
use suffix_routes::Config;
use wires::Wire;

/// Serves as many turns as were asked for by the configuration, at its address, under its limits,
/// and writes a line with the counts. `Device` if the address can't be listened at, which standard
/// output says with the system's reason, or the writer fails; `Memory` if memory ran out.
pub fn serve_config<R, A, T>(
    rt: &R,
    alloc: A,
    config: Config<A>,
    turns: Turns,
    writer: &mut T,
) -> Result<(), Fault>
where
    R: Print + Net + Clock + RandomSource,
    A: Allocator + Copy,
    T: Write,
    ensures serves { OnOk result (ServesFrom (record { config = config; state = initial config }) turns.number
        (T.contents writer.old) (T.contents writer.new)) }
    ensures fault { IfErr result IsFaultOfStream }
{
    let mut wire = wire_of(rt, alloc, &config)?;
    let mut forwarder = forwarder_of(rt, alloc, config)?;
    serve_as_one(alloc, &mut wire, &mut forwarder, turns.number(), writer)
}

/// A wire that listens at the address of the configuration, with its limits. `Device` if the system
/// refuses the address, with the system's reason on standard output; `Memory` if memory ran out.
fn wire_of<'a, R: Print + Net + Clock + RandomSource, A: Allocator + Copy>(
    rt: &'a R,
    alloc: A,
    config: &Config<A>,
) -> Result<MioWire<'a, R, A>, ReplayFault>
    ensures made { IfOk result (λ wire. IsWireOf config.now wire) }
    ensures fault { IfErr result IsOfStream }
{
    let listen = config.listen;
    match MioWire::new(rt, alloc, listen, &config.limits) {
        Ok(wire) => Ok(wire),
        Err(error) => Err(unlistened(rt, listen, error)),
    }
}

/// A new forwarder of the configuration. No stranger knows its hasher.
fn forwarder_of<R: RandomSource, A: Allocator + Copy>(
    rt: &R,
    alloc: A,
    config: Config<A>,
) -> Result<Forwarder<RandomState, A>, ReplayFault>
    ensures new { IfOk result (λ forwarder. forwarder ≡ record { config = config; state = initial config }) }
    ensures fault { IfErr result IsOfStream }
{
    let hasher = RandomState::new(rt)?;
    let forwarder = Forwarder::new(alloc, config, hasher)?;
    Ok(forwarder)
}

/// Serves `turns` turns over sockets with a forwarder of one configuration with its wire. What the
/// wire gave from then on is what the turns took, and what they put is what it was asked to do.
/// All that the wire ever gave and took, the system's calls gave and were asked, in their order, as
/// long as its count of faults is below the last value.
fn serve_as_one<R: Net + Clock, A: Allocator + Copy, T: Write>(
    alloc: A,
    wire: &mut MioWire<'_, R, A>,
    forwarder: &mut Forwarder<RandomState, A>,
    turns: u64,
    writer: &mut T,
) -> Result<(), Fault>
    requires { wire.old.deadline ≡ forwarder.old.config.limits.deadline_ms }
    ensures stops { IfErr result (StopsServing forwarder.old (journal_of wire.old) turns forwarder.new
        (journal_of wire.new) (T.contents writer.old) (T.contents writer.new)) }
    ensures serves { OnOk result (ServesAndReports forwarder.old (journal_of wire.old) turns forwarder.new
        (journal_of wire.new) (T.contents writer.old) (T.contents writer.new)) }
    ensures fault { IfErr result IsFaultOfStream }
    ensures calls { wire.new.faults < 2 ^ 64 - 1 → IsOfCalls A wire.new }
{
    let served = serve_and_report(alloc, wire, forwarder, turns, writer);
    wire.is_of_calls();
    served
}

/// Serves `turns` turns over a wire, and writes a line with the counts.
fn serve_and_report<H, A, W, T>(
    alloc: A,
    wire: &mut W,
    forwarder: &mut Forwarder<H, A>,
    turns: u64,
    writer: &mut T,
) -> Result<(), Fault>
where
    H: BuildHasher + Drop,
    A: Allocator + Copy,
    W: Wire<A>,
    T: Write,
    // An `Err` comes of `serve`, and then nothing is written; or of the writer, and then all turns
    // were served.
    ensures stops { IfErr result (StopsServing forwarder.old
        (journal (W.report wire.old) (W.fault_count wire.old)) turns forwarder.new
        (journal (W.report wire.new) (W.fault_count wire.new)) (T.contents writer.old) (T.contents writer.new)) }
    ensures serves { OnOk result (ServesAndReports forwarder.old
        (journal (W.report wire.old) (W.fault_count wire.old)) turns forwarder.new
        (journal (W.report wire.new) (W.fault_count wire.new)) (T.contents writer.old) (T.contents writer.new)) }
{
    let served = match serve(alloc, wire, forwarder, turns) {
        Ok(served) => served,
        Err(refusal) => return Err(Fault::from(ReplayFault::from(refusal))),
    };
    writeln!(writer, "{}", Counted::of(served))?;
    Ok(())
}
