//! A wire in memory, whose arrivals and refusals the caller chooses.

ghost use Rattle.std.specs.Prelude.{◌≡◌, ◌⊎◌, ◌+◌, ◌-◌, ◌<◌, ◌^◌, None, Some, false, true, OnOk};
ghost use Rattle.std.specs.Prelude.{OnErr, IfSome, is_ok, map};
ghost use Rattle.step_values.specs.Values.{action_of};
ghost use Rattle.wires.specs.Wire.{silence, report_then, journal, ReportsMore, arrival_of, given, arrived, was_put};
ghost use Rattle.wires.specs.Wire.{moment_was, words_were};
ghost use Rattle.wires.specs.Wire.Arrival.{nothing};
ghost use Rattle.script_wire.specs.Scripts.{put_of, turn_of, next_turn, begun, calls_once, faults_once, refuses};
ghost use Rattle.script_wire.specs.Scripts.{standing, counts_want, AllButReport, Reports, Stores};

use plain_values::Octets;
use std::alloc::{AllocError, Allocator, Global};
use std::collections::VecDeque;
use std::marker::Model;
use step_values::Action;
use wires::{Arrival, Wire, WireFault};

/// A turn of a script: its arrival, moment and words.
#[derive(Drop)]
pub struct ScriptTurn<A: Allocator = Global> {
    pub arrival: Arrival<A>,
    /// The moment of each step of the turn, in milliseconds.
    pub moment: u64,
    /// The words of each step of the turn.
    pub words: [u32; 8],
}

/// A wire in memory, with its turns given beforehand. A call of `arrival` begins the next turn
/// and gives its arrival; moment and words of the turn are those of all steps until the next.
/// After the last turn nothing arrives, and moment and words stay. The caller chooses the refused
/// calls. Everything given and taken is stored.
#[derive(Drop)]
pub struct ScriptWire<A: Allocator = Global> {
    /// The turns to come.
    to_come: VecDeque<ScriptTurn<A>, A>,
    /// The moment of the present turn; before the first turn, of the first.
    moment: u64,
    /// The words of this turn.
    words: [u32; 8],
    /// The numbers of the refused calls of `arrival` and `put`, counted together from 0.
    refuse: Vec<u64, A>,
    /// How many such calls there were.
    calls: u64,
    faults: u64,
    stored: Stored<A>,
}

impl<A: Allocator> Model for ScriptWire<A> {
    ghost use Rattle.std.specs.Prelude.{map};
    ghost use Rattle.script_wire.specs.Scripts.{Script, turn_of};

    ghost Value = { Script };

    ghost view = { λ w. record {
      report = w.stored;
      faults = w.faults;
      to_come = map turn_of w.to_come.items;
      moment = w.moment;
      words = w.words;
      refuse = w.refuse.items;
      calls = w.calls;
    } };
}

impl<A: Allocator + Copy> ScriptWire<A> {
    /// A wire with these turns, which refuses the calls of `arrival` and `put` with these numbers,
    /// counted together from 0.
    pub fn new(alloc: A, turns: Vec<ScriptTurn<A>, A>, refuse: Vec<u64, A>) -> ScriptWire<A>
        ensures report { result.report ≡ Some silence }
        ensures faults { result.faults ≡ 0 }
        ensures script { result.to_come ≡ map turn_of turns.items }
        ensures stands { (result.moment ≡ (standing result.to_come).moment)
            × (result.words ≡ (standing result.to_come).words) }
        ensures refuses { (result.refuse ≡ refuse.items) × (result.calls ≡ 0) }
    {
        let (moment, words) = stands_at(turns.as_slice());
        ScriptWire {
            to_come: VecDeque::from_vec(turns),
            moment,
            words,
            refuse,
            calls: 0,
            faults: 0,
            stored: Stored::new(alloc),
        }
    }

    /// The actions so far, in order, each with true if not refused.
    pub fn puts(&self) -> &[(Action<A>, bool)]
        ensures { IfSome self.now.report (λ report. map put_of result.now ≡ report.puts) }
    {
        self.stored.puts()
    }

    /// Begins the next turn, and gives its arrival.
    fn begin(&mut self) -> Arrival<A>
        ensures arrival { arrival_of result ≡ (next_turn self.old).arrival }
        ensures begun { self.new ≡ begun self.old }
    {
        match self.to_come.pop_front() {
            Some(turn) => {
                self.moment = turn.moment;
                self.words = turn.words;
                turn.arrival
            }
            None => Arrival::Nothing,
        }
    }

    /// Counts a call of `arrival` or `put`, and returns whether the script refuses the call.
    fn is_refused(&mut self) -> bool
        ensures refused { result ≡ refuses self.old }
        ensures counts { self.new ≡ calls_once self.old }
    {
        let number = self.calls;
        self.calls = number.saturating_add(1);
        self.refuse.contains(&number)
    }

    /// Counts a fault, unless the count is at its last value.
    fn count_fault(&mut self)
        ensures { self.new ≡ counts_want self.old }
    {
        if self.faults < u64::MAX {
            self.faults += 1;
        }
    }

    /// Stores and returns the moment of the turn. Running out of memory counts as a fault, and
    /// nothing more is reported.
    fn give_moment(&mut self) -> u64
        ensures of_the_turn { result ≡ self.old.moment }
        ensures stores { Stores self.old (moment_was result) self.new }
    {
        let moment = self.moment;
        if self.stored.keep_moment(moment).is_err() {
            self.count_fault();
        }
        moment
    }

    /// Stores and returns the words of the turn. Running out of memory counts as a fault, and
    /// nothing more is reported.
    fn give_words(&mut self) -> [u32; 8]
        ensures of_the_turn { result ≡ self.old.words }
        ensures stores { Stores self.old (words_were result) self.new }
    {
        let words = self.words;
        if self.stored.keep_words(words).is_err() {
            self.count_fault();
        }
        words
    }
}

impl<A: Allocator + Copy> Wire<A> for ScriptWire<A> {
    ghost report = { λ w. w.report };

    ghost fault_count = { λ w. w.faults };

    fn arrival(&mut self) -> Result<Arrival<A>, WireFault>
        ensures reports { ReportsMore (journal self.old.report self.old.faults) (arrived (given result))
            (journal self.new.report self.new.faults) }
        ensures faults { OnErr result (self.old.faults < self.new.faults) }
        ensures last { self.old.faults ≡ 2 ^ 64 - 1 → (given result ≡ Some nothing) × AllButReport self.old self.new }
        ensures gives { self.old.faults < 2 ^ 64 - 1 → OnOk result ((given result ≡ Some (next_turn self.old).arrival)
            × (refuses self.old ≡ false)
            × Reports (calls_once (begun self.old)) self.old.report (arrived (given result)) self.new) }
        ensures refuses { OnErr result (AllButReport (faults_once (calls_once (begun self.old))) self.new
            × (refuses self.old ≡ false → self.new.report ≡ None)) }
        ensures refusal { OnErr result ((self.new.report ≡ report_then self.old.report (arrived None))
            ⊎ (self.new.report ≡ None)) }
    {
        if self.faults == u64::MAX {
            let _ = self.stored.keep_arrival(&Arrival::Nothing);
            return Ok(Arrival::Nothing);
        }
        let arrival = self.begin();
        if self.is_refused() {
            self.faults += 1;
            self.stored.keep_refusal();
            return Err(WireFault);
        }
        match self.stored.keep_arrival(&arrival) {
            Ok(()) => Ok(arrival),
            Err(_) => {
                self.faults += 1;
                Err(WireFault)
            }
        }
    }

    fn put(&mut self, action: &Action<A>) -> Result<(), WireFault>
        ensures reports { ReportsMore (journal self.old.report self.old.faults)
            (was_put (action_of action.now) (is_ok result)) (journal self.new.report self.new.faults) }
        ensures faults { OnErr result (self.old.faults < self.new.faults) }
        ensures last { self.old.faults ≡ 2 ^ 64 - 1 → (is_ok result ≡ true) × AllButReport self.old self.new }
        ensures takes { self.old.faults < 2 ^ 64 - 1 → OnOk result ((refuses self.old ≡ false)
            × Reports (calls_once self.old) self.old.report (was_put (action_of action.now) true) self.new) }
        ensures refuses { OnErr result (AllButReport (faults_once (calls_once self.old)) self.new
            × (refuses self.old ≡ false → self.new.report ≡ None)) }
        ensures refusal { OnErr result ((self.new.report
            ≡ report_then self.old.report (was_put (action_of action.now) false))
            ⊎ (self.new.report ≡ None)) }
    {
        if self.faults == u64::MAX {
            let _ = self.stored.keep_put(action, true);
            return Ok(());
        }
        if self.is_refused() {
            self.faults += 1;
            let _ = self.stored.keep_put(action, false);
            return Err(WireFault);
        }
        match self.stored.keep_put(action, true) {
            Ok(()) => Ok(()),
            Err(_) => {
                self.faults += 1;
                Err(WireFault)
            }
        }
    }

    fn take_back(&mut self, _octets: &mut Octets<A>)
        ensures reports { self.new.report ≡ self.old.report }
        ensures faults { self.new.faults ≡ self.old.faults }
        ensures same { self.new ≡ self.old }
    {}

    fn moment(&mut self) -> u64
        ensures reports { ReportsMore (journal self.old.report self.old.faults) (moment_was result)
            (journal self.new.report self.new.faults) }
        ensures of_the_turn { result ≡ self.old.moment }
        ensures stores { Stores self.old (moment_was result) self.new }
    {
        self.give_moment()
    }

    fn words(&mut self) -> [u32; 8]
        ensures reports { ReportsMore (journal self.old.report self.old.faults) (words_were result)
            (journal self.new.report self.new.faults) }
        ensures of_the_turn { result ≡ self.old.words }
        ensures stores { Stores self.old (words_were result) self.new }
    {
        self.give_words()
    }

    fn faults(&self) -> u64 {
        self.faults
    }
}

/// The report of a wire, stored. Nothing more is reported once memory ran out.
#[derive(Drop)]
struct Stored<A: Allocator> {
    alloc: A,
    reports: bool,
    arrivals: Vec<Result<Arrival<A>, WireFault>, A>,
    puts: Vec<(Action<A>, bool), A>,
    moments: Vec<u64, A>,
    words: Vec<[u32; 8], A>,
}

impl<A: Allocator> Model for Stored<A> {
    ghost use Rattle.std.specs.Prelude.{Option, map};
    ghost use Rattle.wires.specs.Wire.{Report, given};
    ghost use Rattle.script_wire.specs.Scripts.{put_of, stored};

    ghost Value = { Option Report };

    ghost view = { λ s. stored s.reports (map given s.arrivals.items)
        (map put_of s.puts.items) s.moments.items s.words.items };
}

impl<A: Allocator + Copy> Stored<A> {
    fn new(alloc: A) -> Stored<A>
        ensures { result ≡ Some silence }
    {
        Stored {
            alloc,
            reports: true,
            arrivals: Vec::new(alloc),
            puts: Vec::new(alloc),
            moments: Vec::new(alloc),
            words: Vec::new(alloc),
        }
    }

    /// Reports nothing more.
    fn fall_silent(&mut self)
        ensures { self.new ≡ None }
    {
        self.reports = false;
    }

    fn push_arrival(&mut self, arrival: Result<Arrival<A>, WireFault>) -> Result<(), AllocError>
        ensures { OnOk result (self.new ≡ report_then self.old (arrived (given arrival))) }
    {
        self.arrivals.push(arrival)?;
        Ok(())
    }

    fn push_put(&mut self, action: Action<A>, sent: bool) -> Result<(), AllocError>
        ensures { OnOk result (self.new ≡ report_then self.old (was_put (action_of action) sent)) }
    {
        self.puts.push((action, sent))?;
        Ok(())
    }

    fn push_moment(&mut self, moment: u64) -> Result<(), AllocError>
        ensures { OnOk result (self.new ≡ report_then self.old (moment_was moment)) }
    {
        self.moments.push(moment)?;
        Ok(())
    }

    fn push_words(&mut self, words: [u32; 8]) -> Result<(), AllocError>
        ensures { OnOk result (self.new ≡ report_then self.old (words_were words)) }
    {
        self.words.push(words)?;
        Ok(())
    }

    fn copy_arrival(&mut self, arrival: &Arrival<A>) -> Result<(), AllocError>
        ensures { OnOk result (self.new ≡ report_then self.old (arrived (Some (arrival_of arrival.now)))) }
    {
        let copy = arrival.copy(self.alloc)?;
        self.push_arrival(Ok(copy))
    }

    fn copy_put(&mut self, action: &Action<A>, sent: bool) -> Result<(), AllocError>
        ensures { OnOk result (self.new ≡ report_then self.old (was_put (action_of action.now) sent)) }
    {
        let copy = action.copy(self.alloc)?;
        self.push_put(copy, sent)
    }

    /// Stores an arrival. Out of memory, nothing more is reported.
    fn keep_arrival(&mut self, arrival: &Arrival<A>) -> Result<(), AllocError>
        ensures kept { OnOk result (self.new ≡ report_then self.old (arrived (Some (arrival_of arrival.now)))) }
        ensures lost { OnErr result (self.new ≡ None) }
    {
        match self.copy_arrival(arrival) {
            Ok(()) => Ok(()),
            Err(refusal) => {
                self.fall_silent();
                Err(refusal)
            }
        }
    }

    /// Stores the refusal of an arrival. Out of memory, nothing more is reported.
    fn keep_refusal(&mut self)
        ensures { (self.new ≡ report_then self.old (arrived None)) ⊎ (self.new ≡ None) }
    {
        match self.push_arrival(Err(WireFault)) {
            Ok(()) => {}
            Err(_) => self.fall_silent(),
        }
    }

    /// Stores an action and whether it was sent. Out of memory, nothing more is reported.
    fn keep_put(&mut self, action: &Action<A>, sent: bool) -> Result<(), AllocError>
        ensures kept { OnOk result (self.new ≡ report_then self.old (was_put (action_of action.now) sent)) }
        ensures lost { OnErr result (self.new ≡ None) }
    {
        match self.copy_put(action, sent) {
            Ok(()) => Ok(()),
            Err(refusal) => {
                self.fall_silent();
                Err(refusal)
            }
        }
    }

    /// Stores a moment in milliseconds. Out of memory, nothing more is reported.
    fn keep_moment(&mut self, moment: u64) -> Result<(), AllocError>
        ensures kept { OnOk result (self.new ≡ report_then self.old (moment_was moment)) }
        ensures lost { OnErr result (self.new ≡ None) }
    {
        match self.push_moment(moment) {
            Ok(()) => Ok(()),
            Err(refusal) => {
                self.fall_silent();
                Err(refusal)
            }
        }
    }

    /// Stores words. Out of memory, nothing more is reported.
    fn keep_words(&mut self, words: [u32; 8]) -> Result<(), AllocError>
        ensures kept { OnOk result (self.new ≡ report_then self.old (words_were words)) }
        ensures lost { OnErr result (self.new ≡ None) }
    {
        match self.push_words(words) {
            Ok(()) => Ok(()),
            Err(refusal) => {
                self.fall_silent();
                Err(refusal)
            }
        }
    }

    /// The actions so far.
    fn puts(&self) -> &[(Action<A>, bool)]
        ensures { IfSome self.now (λ report. map put_of result.now ≡ report.puts) }
    {
        self.puts.as_slice()
    }
}

/// The moment and the words of a wire with these turns before the first begins.
#[tactic(auto, using(crate::proofs::Storing::standing_some, crate::proofs::Storing::standing_none))]
fn stands_at<A: Allocator>(turns: &[ScriptTurn<A>]) -> (u64, [u32; 8])
    ensures { (result.0 ≡ (standing (map turn_of turns.now)).moment)
        × (result.1 ≡ (standing (map turn_of turns.now)).words) }
{
    match turns.first() {
        Some(turn) => (turn.moment, turn.words),
        None => (0, [0; 8]),
    }
}
