ghost use Rattle.std.specs.Prelude.{◌≡◌, ◌<◌, ◌≤◌, ◌&&◌, ◌++◌, ℕ, true, false, IfOk, None, length};
ghost use Rattle.posix_model.specs.Start.{start};
ghost use Rattle.posix_model.specs.Trace.{left};
ghost use Rattle.posix_model.specs.Deliveries.{next_delivery};
ghost use Rattle.posix_model.specs.Scheduling.{chosen};
ghost use Rattle.replay_io.specs.Writing.{Writes};
ghost use Rattle.trace_text.specs.Output.{IsReadable};
ghost use Rattle.trace_text.specs.Texts.{lines_in, switch_in, end_in};
ghost use Rattle.posix_model.specs.Runs.{is_waiting};
ghost use Rattle.dispatcher.specs.Arriving.{is_empty, AreSignalsOrTicks};
ghost use Rattle.process_engine.specs.Engine.{Engine, IsSound, rules_of, next_place, stop_of, is_due, position_of, moment_of, order};
ghost use Rattle.process_engine.specs.Turns.{Presents, Completes, IsTurn, Goes, Runs};
ghost use Rattle.process_engine.specs.Advancing.{Advances, Proceeds};
ghost use Rattle.kernel_state.specs.Presented.{IsSound as IsSoundOutside};
ghost use Rattle.kernel_state.specs.View.{view};

use crate::moves::make_instruction;
use crate::stage::{Advance, Stage};
use crate::told::{is_thread, with_move};
use crate::{Done, Turn, WriteFault};
use dispatcher::begin_next;
use elf_image::EntryPoint;
use journal_text::Journal;
use kernel_state::{Kernel, Stepped, Tables};
use posix_model::{Ending, Head, Report, Settings};
use ready_queues::{BitmapReady, Ready};
use replay_io::{Sink, SinkFailed};
use rv_exec::Memory;
use std::alloc::Global;
use std::marker::Model;
use thread_base::{NoMemory, Place, Tid};
use trace_text::{Counts, Mode, put_end, put_report, put_run};

/// A process: its kernel, and what its run has come to. Clauses see its position: the run so far with the move in
/// progress, what is still to be told of that move, how many small changes of it are left, and the state that the
/// tables show.
#[derive(Drop)]
pub struct Process {
    kernel: Kernel<BitmapReady>,
    instructions: u64,
    stop: u64,
    last: Option<Tid>,
    stage: Stage,
    settings: Settings,
}

impl Model for Process {
    ghost use Rattle.process_engine.specs.Engine.{Engine, IsSound, rules_of};

    ghost Value = { Engine };

    ghost view = { λ p. record { kernel = p.kernel; instructions = p.instructions; stop = p.stop; last = p.last; stage = p.stage; rules = rules_of p.settings p.kernel.outside.journal } };

    ghost invariant = { λ p. IsSound (record { kernel = p.kernel; instructions = p.instructions; stop = p.stop; last = p.last; stage = p.stage; rules = rules_of p.settings p.kernel.outside.journal }) };
}

impl Process {
    /// A process at the start of its run under a journal: thread 1 stands at the entry, the rest is as the machine's
    /// start says, and nothing is presented. The budget is at most 1,000,000,000, the quantum from 1 to 1,000. NoMemory
    /// is free.
    pub fn new(
        alloc: Global,
        mem: Memory,
        entry: EntryPoint,
        journal: Journal,
        settings: Settings,
    ) -> Result<Process, NoMemory>
        requires budget { settings.budget ≤ 1000000000 }
        requires quantum { (1 ≤ settings.quantum) × (settings.quantum ≤ 1000) }
        requires built { AreSignalsOrTicks journal.entries }
        ensures start { IfOk result (λ p. moment_of p ≡ start mem entry.0) }
        ensures at_rest { IfOk result (λ p. (position_of p).telling ≡ None) }
        ensures rules { IfOk result (λ p. p.rules ≡ rules_of settings journal) }
    {
        let _journal = journal.len();
        let ready = BitmapReady::new(alloc)?;
        let mut kernel = Kernel::new(alloc, ready, mem, entry, settings)?;
        kernel.attach(alloc, journal)?;
        let stop = stop_before(settings.budget, next_place(&kernel));
        Ok(Process {
            kernel,
            instructions: 0,
            stop,
            last: None,
            stage: Stage::Paused,
            settings,
        })
    }

    /// What always holds of a process, told to clauses.
    pub(crate) fn sound(&self)
        ensures { IsSound self.now }
    {
        let _instructions = &self.instructions;
    }

    /// Whether the next entry that was not presented is due: its place is reached, or nothing else can happen. While a
    /// move is in progress none is looked for.
    pub fn due(&self) -> bool
        ensures { result ≡ is_due self.now }
    {
        match self.stage {
            Stage::InCall => false,
            _ => match next_place(&self.kernel) {
                None => false,
                Some(n) => n <= self.instructions || is_waiting(&self.kernel),
            },
        }
    }

    /// Presents the next entry, which is due, after the instructions made: the run stays.
    pub fn present(&mut self)
        requires { is_due self.old ≡ true }
        ensures presents { Presents self.old self.new }
        ensures rules { self.new.rules ≡ self.old.rules }
        ensures paused { self.new.stage ≡ Stage.Paused }
    {
        let number = self.kernel.outside().presented() + 1;
        let n = self.instructions;
        self.kernel.present(number, Place { n, k: 0 });
        self.stop = stop_before(self.settings.budget, next_place(&self.kernel));
        self.stage = Stage::Paused;
    }

    /// Presents all entries that are due, in their order: the run stays.
    pub(crate) fn present_due(&mut self)
        ensures same { position_of self.new ≡ position_of self.old }
        ensures none { is_due self.new ≡ false }
        ensures rules { self.new.rules ≡ self.old.rules }
        ensures paused { self.old.stage ≡ Stage.Paused → self.new.stage ≡ Stage.Paused }
    {
        while self.due() {
            self.present();
        }
    }

    /// Makes the instruction of the thread in place, which has its turn, or begins its move.
    #[inline(always)]
    fn instruction(&mut self) -> Advance
        requires going { self.old.stage ≡ Stage.Going }
        requires before { self.old.instructions < self.old.stop }
        ensures advances { Advances self.old result self.new }
        ensures rules { self.new.rules ≡ self.old.rules }
    {
        self.instructions += 1;
        if make_instruction(&mut self.kernel) {
            return Advance::Plain;
        }
        self.stage = Stage::InCall;
        Advance::Begun(self.last)
    }

    /// Makes the first instruction of a thread's turn, which is the chosen one, or begins its move.
    fn switch_to(&mut self, t: Tid) -> Advance
        requires rest { self.old.stage ≡ Stage.Paused }
        requires none_due { is_due self.old ≡ false }
        requires nothing_waits { is_empty self.old.kernel.outside ≡ true }
        requires settled { next_delivery (view order self.old.kernel.tables) ≡ None }
        requires going_on { (view order self.old.kernel.tables).over ≡ None }
        requires chosen { chosen (view order self.old.kernel.tables) ≡ Some t }
        ensures advances { Advances self.old result self.new }
        ensures switched { result ≡ Advance.Plain → ⊥ }
        ensures rules { self.new.rules ≡ self.old.rules }
    {
        if self.instructions == self.settings.budget {
            return Advance::End(Ending::Budget);
        }
        let before = self.last;
        self.kernel.place(t);
        self.instructions += 1;
        self.last = Some(t);
        if make_instruction(&mut self.kernel) {
            self.stage = Stage::Going;
            return Advance::Switched(before);
        }
        self.stage = Stage::InCall;
        Advance::Begun(before)
    }

    /// Sees how the run goes on where no entry is due that was not presented: it is over, what was presented arrives, a
    /// signal is delivered, nobody can go on, or the chosen thread has its turn.
    fn resume(&mut self) -> Advance
        requires rest { self.old.stage ≡ Stage.Paused }
        requires none_due { is_due self.old ≡ false }
        ensures advances { Advances self.old result self.new }
        ensures switched { result ≡ Advance.Plain → ⊥ }
        ensures rules { self.new.rules ≡ self.old.rules }
    {
        match self.kernel.tables().over() {
            Some(ending) => return Advance::End(ending),
            None => {}
        }
        if begin_next(&mut self.kernel) {
            self.stage = Stage::InCall;
            return Advance::Begun(self.last);
        }
        match self.kernel.chosen() {
            Some(t) => self.switch_to(t),
            None => Advance::End(Ending::Idle),
        }
    }

    /// Goes on by one move, where no entry is due that was not presented: a plain instruction is made, and another move
    /// begun.
    #[inline(always)]
    fn advance(&mut self) -> Advance
        requires rest { (position_of self.old).telling ≡ None }
        requires none_due { is_due self.old ≡ false }
        ensures advances { Advances self.old result self.new }
        ensures rules { self.new.rules ≡ self.old.rules }
    {
        match self.stage {
            Stage::Going => {
                if self.instructions < self.stop {
                    return self.instruction();
                }
                Advance::End(Ending::Budget)
            }
            Stage::Paused => self.resume(),
            Stage::InCall => unreachable!(),
        }
    }

    /// Makes plain instructions of the thread in place, up to its first other move or where it has to be looked whether an
    /// entry is due, and goes on there.
    #[inline(always)]
    fn run_turn(&mut self) -> Advance
        requires { self.old.stage ≡ Stage.Going }
        ensures proceeds { Proceeds self.old.rules self.old result self.new }
        ensures rules { self.new.rules ≡ self.old.rules }
    {
        self.sound();
        while self.instructions < self.stop {
            match self.instruction() {
                Advance::Plain => {}
                advance => return advance,
            }
        }
        self.pause();
        self.go_on()
    }

    /// The thread in place has its turn no longer as a matter of course.
    fn pause(&mut self)
        requires { self.old.stage ≡ Stage.Going }
        ensures paused { self.new.stage ≡ Stage.Paused }
        ensures same { moment_of self.new ≡ moment_of self.old }
        ensures rules { self.new.rules ≡ self.old.rules }
    {
        self.stage = Stage::Paused;
    }

    /// Presents what is due, and goes on from there.
    fn go_on(&mut self) -> Advance
        requires { self.old.stage ≡ Stage.Paused }
        ensures proceeds { Proceeds self.old.rules self.old result self.new }
        ensures rules { self.new.rules ≡ self.old.rules }
    {
        self.present_due();
        self.resume()
    }

    /// Goes on to the next move that may write text, or to the end of the run.
    #[inline(always)]
    fn proceed(&mut self) -> Advance
        requires { (position_of self.old).telling ≡ None }
        ensures proceeds { Proceeds self.old.rules self.old result self.new }
        ensures rules { self.new.rules ≡ self.old.rules }
    {
        match self.stage {
            Stage::Going => self.run_turn(),
            Stage::Paused => self.go_on(),
            Stage::InCall => unreachable!(),
        }
    }

    /// Makes the next small change of the move in progress.
    fn step(&mut self) -> Turn
        requires { self.old.stage ≡ Stage.InCall }
        ensures turn { IsTurn self.old.rules (position_of self.old) result (position_of self.new) }
        ensures rules { self.new.rules ≡ self.old.rules }
    {
        match self.kernel.step() {
            Stepped::More => Turn::Quiet,
            Stepped::Exit(report) => {
                self.stage = Stage::Paused;
                Turn::Made(report)
            }
        }
    }

    /// Makes one plain instruction, begins one move, makes one small change of the move in progress, or tells the
    /// ending, where no entry is due. Made comes exactly with the last change of a move, with its report; Ended exactly
    /// where the run has ended; Quiet exactly where the turn completed no move with lines and told no ending.
    pub fn turn(&mut self) -> Turn
        requires { is_due self.old ≡ false }
        ensures turn { IsTurn self.old.rules (position_of self.old) result (position_of self.new) }
        ensures rules { self.new.rules ≡ self.old.rules }
    {
        match self.stage {
            Stage::InCall => self.step(),
            _ => match self.advance() {
                Advance::End(ending) => Turn::Ended(ending),
                _ => Turn::Quiet,
            },
        }
    }

    /// Makes all that is left of the move in progress, and gives its report.
    fn finish(&mut self) -> Report
        requires { self.old.stage ≡ Stage.InCall }
        ensures completes { Completes (position_of self.old) result (position_of self.new) }
        ensures rules { self.new.rules ≡ self.old.rules }
    {
        let report = self.kernel.finish();
        self.stage = Stage::Paused;
        report
    }

    /// Writes the line before an instruction of another thread than the last; plain text has none.
    #[tactic(auto, using(replay_io::proofs::WritingLemmas::writes_nothing))]
    fn put_switch<O: Sink>(
        &self,
        before: &Option<Tid>,
        mode: Mode,
        out: &mut O,
    ) -> Result<(), SinkFailed>
        ensures { Writes result (O.written out.old) (O.written out.new) (O.faults out.old) (O.faults out.new) (switch_in mode before.now self.now.last) }
    {
        let Mode::Trace = mode else {
            return Ok(());
        };
        let Some(t) = self.last else {
            return Ok(());
        };
        if is_thread(before, t) {
            return Ok(());
        }
        put_run(t, out)
    }

    /// The tables, where no move is in progress.
    pub(crate) fn tables(&self) -> &Tables<BitmapReady>
        requires { (position_of self.now).telling ≡ None }
        ensures { view order result.now ≡ (moment_of self.now).state }
    {
        self.kernel.tables()
    }

    /// The thread that made the last instruction; None exactly where none was made.
    pub fn last(&self) -> Option<Tid>
        ensures { result ≡ self.now.last }
    {
        self.last
    }

    /// Writes the text of a move that was made with this report.
    fn put_made<O: Sink>(
        &self,
        before: &Option<Tid>,
        report: &Report,
        mode: Mode,
        out: &mut O,
    ) -> Result<(), SinkFailed>
        requires readable { IsReadable report.now (moment_of self.now).state.memory }
        requires at_rest { (position_of self.now).telling ≡ None }
        ensures { Writes result (O.written out.old) (O.written out.new) (O.faults out.old) (O.faults out.new) (switch_in mode before.now self.now.last ++ lines_in mode report.now (moment_of self.now).state.memory) }
    {
        self.put_switch(before, mode, out)?;
        put_report(report, self.tables().memory(), mode, out)
    }

    /// Writes the end of the text of a run: of a trace what still pends and the ending, and of plain text nothing.
    #[tactic(auto, using(replay_io::proofs::WritingLemmas::writes_nothing))]
    fn put_last<O: Sink>(&self, ending: &Ending, mode: Mode, out: &mut O) -> Result<(), SinkFailed>
        requires { (position_of self.now).telling ≡ None }
        ensures { Writes result (O.written out.old) (O.written out.new) (O.faults out.old) (O.faults out.new) (end_in mode (left (moment_of self.now).state) ending.now) }
    {
        match mode {
            Mode::Trace => put_end(ending, &self.left(), out),
            Mode::Plain => Ok(()),
        }
    }

    /// Makes the rest of the run and writes its text.
    fn run_on<O: Sink>(&mut self, out: &mut O, mode: Mode) -> Result<Done, SinkFailed>
        requires { (position_of self.old).telling ≡ None }
        ensures { Goes mode self.old.rules (moment_of self.old) result (O.written out.old) (O.written out.new) (O.faults out.old) (O.faults out.new) }
    {
        self.sound();
        let first = self.instructions;
        let mut told = Counts::none();
        loop {
            match self.proceed() {
                Advance::Plain => unreachable!(),
                Advance::Switched(before) => {
                    told = with_move(told, &before, &self.last, &Head::Quiet);
                    self.put_switch(&before, mode, out)?;
                }
                Advance::Begun(before) => {
                    let report = self.finish();
                    told = with_move(told, &before, &self.last, &report.head);
                    self.put_made(&before, &report, mode, out)?;
                }
                Advance::End(ending) => {
                    self.put_last(&ending, mode, out)?;
                    let counts = Counts {
                        instructions: self.instructions - first,
                        ..told
                    };
                    return Ok(Done { ending, counts });
                }
            }
        }
    }

    /// Runs to the end and writes the text of the run, where no move is in progress: its trace, or plain text, which does
    /// not tell the ending. Ok appended the whole text of one ended run and tells its ending and counts; WriteFault comes only where the sink's count of faults
    /// rose in this call, and then a front of the whole text of one ended run was appended. It takes no memory.
    pub fn run<O: Sink>(mut self, out: &mut O, mode: Mode) -> Result<Done, WriteFault>
        requires { (position_of self).telling ≡ None }
        ensures { Runs mode self.rules (moment_of self) result (O.written out.old) (O.written out.new) (O.faults out.old) (O.faults out.new) }
    {
        self.sound();
        match self.run_on(out, mode) {
            Ok(done) => Ok(done),
            Err(SinkFailed) => Err(WriteFault),
        }
    }
}

/// After how many instructions the next entry is reached that was not presented; None exactly where there is none.
fn next_place<R: Ready + Drop>(k: &Kernel<R>) -> Option<u64>
    ensures place { result ≡ next_place k.now.outside.journal k.now.outside.presented }
    ensures sound { IsSoundOutside k.now.outside }
{
    let outside = k.outside();
    let presented = outside.presented();
    if presented == outside.len() {
        return None;
    }
    Some(outside.entry(presented + 1).place.n)
}

/// After how many instructions it has to be looked whether an entry is due: those of the budget, or fewer.
fn stop_before(budget: u64, next: Option<u64>) -> u64
    ensures { result ≡ stop_of budget next }
{
    match next {
        None => budget,
        Some(n) => n.min(budget),
    }
}

/// Whether nothing can happen but by an entry that was not presented.
fn is_waiting<R: Ready + Drop>(k: &Kernel<R>) -> bool
    ensures { result ≡ (is_waiting (view R.order k.now.tables) && is_empty k.now.outside) }
{
    match k.chosen() {
        Some(_) => return false,
        None => {}
    }
    match k.tables().next_delivery() {
        Some(_) => false,
        None => k.outside().is_empty(),
    }
}
