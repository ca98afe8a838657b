ghost use Rattle.std.specs.Prelude.{◌≡◌, ◌<◌, ◌≤◌, ◌+◌, ◌++◌, [], ◌∷◌, true, false, Some, None, IfOk, OnOk, OnErr, length};
ghost use Rattle.thread_base.specs.Orders.{is_nil};
ghost use Rattle.posix_model.specs.Reports.{nothing_told};
ghost use Rattle.posix_model.specs.Scheduling.{chosen};
ghost use Rattle.posix_model.specs.Start.{start_state};
ghost use Rattle.posix_model.specs.Changes.{begun};
ghost use Rattle.posix_model.specs.Calls.{refused};
ghost use Rattle.kernel_state.specs.View.{view, outcome, StayCurrent};
ghost use Rattle.kernel_state.specs.Changing.{Can, change_by, AllCan};
ghost use Rattle.kernel_state.specs.Executing.{HasExecuted};
ghost use Rattle.kernel_state.specs.Kernels.{IsEmpty, IsIdle, IsSoundKernel, remaining, told, owed_by};
ghost use Rattle.kernel_state.specs.Begun.{CanBegin, CanNote, CanStart, HasNotedSome, NotesMore, arguments_of};
ghost use Rattle.kernel_state.specs.Moves.{InProgress, HasMade, IsStep};
ghost use Rattle.kernel_state.specs.Outside.{attached, present, gather, drained, drain};
ghost use Rattle.kernel_state.specs.Presented.{KeepsStanding, TakesDrained};
ghost use Rattle.kernel_state.specs.Small.{IsSmall};

use crate::change::Change;
use crate::outside::Outside;
use crate::rest::Rest;
use crate::tables::Tables;
use elf_image::EntryPoint;
use journal_text::Journal;
use posix_model::{Arguments, Head, Reply, Report, Settings};
use ready_queues::Ready;
use rv_exec::{Event, Memory};
use std::alloc::Global;
use std::marker::Model;
use thread_base::{Errno, NoMemory, Place, Tid};
use unix_process::Taken;

/// What a step of a move gave: more of it is left, or it is made, with its report.
#[derive(Clone, Copy, Debug)]
pub enum Stepped {
    More,
    Exit(Report),
}

/// Whose a move is, with its main line: a thread's, or of what came from outside, with the place where the first of its
/// entries was presented.
#[derive(Clone, Copy, Debug)]
pub enum MainLine {
    OfThread { thread: Tid, head: Head },
    Arrival { head: Head, at: Place },
}

impl MainLine {
    /// A report that tells whose the move is and its main line too.
    fn tell(self, report: Report) -> Report
        ensures { result ≡ told (Some self) report }
    {
        match self {
            MainLine::OfThread { thread, head } => Report {
                tid: thread.number(),
                head,
                ..report
            },
            MainLine::Arrival { head, at } => Report {
                tid: 0,
                head,
                at,
                ..report
            },
        }
    }
}

/// The kernel: all tables, what came from outside, and of the move in progress its small changes, and its main line from
/// its begin to its last change. Its state is good, what it owes made, and each change that is left can be made.
#[derive(Drop)]
pub struct Kernel<R: Ready + Drop> {
    tables: Tables<R>,
    rest: Rest,
    main: Option<MainLine>,
    outside: Outside,
    settings: Settings,
}

impl<R: Ready + Drop> Model for Kernel<R> {
    ghost use Rattle.kernel_state.specs.Kernels.{KernelState, IsSoundKernel};

    ghost Value = { KernelState R };

    ghost view = { λ k. record { tables = k.tables; rest = k.rest; main = k.main; outside = k.outside; settings = k.settings } };

    ghost invariant = { λ k. IsSoundKernel R.order R.prio (record { tables = k.tables; rest = k.rest; main = k.main; outside = k.outside; settings = k.settings }) };
}

impl<R: Ready + Drop> Kernel<R> {
    /// The kernel at the start of a run, over an empty ready list: the machine's start, and no move is in
    /// progress. NoMemory is free.
    pub fn new(
        alloc: Global,
        ready: R,
        memory: Memory,
        entry: EntryPoint,
        settings: Settings,
    ) -> Result<Kernel<R>, NoMemory>
        requires { R.order ready ≡ [] }
        ensures start { IfOk result (λ k. view R.order k.tables ≡ start_state memory entry.0) }
        ensures idle { IfOk result IsIdle }
        ensures settings { IfOk result (λ k. k.settings ≡ settings) }
        ensures outside { IfOk result (λ k. k.outside.presented ≡ 0) }
        ensures ready { IfOk result (λ k. CanBegin R.order k 1) }
    {
        Ok(Kernel {
            tables: Tables::new(alloc, ready, memory, entry)?,
            rest: Rest::new(),
            main: None,
            outside: Outside::new(),
            settings,
        })
    }

    /// The settings of the run.
    pub fn settings(&self) -> Settings
        ensures { result ≡ self.now.settings }
    {
        self.settings
    }

    /// What came from outside.
    pub fn outside(&self) -> &Outside
        ensures { result.now ≡ self.now.outside }
    {
        &self.outside
    }

    /// Takes the journal of the run, with room for the place of each of its entries. After NoMemory nothing has changed.
    pub fn attach(&mut self, alloc: Global, journal: Journal) -> Result<(), NoMemory>
        requires { self.old.outside.presented ≡ 0 }
        ensures made { OnOk result (self.new ≡ record self.old { outside = attached self.old.outside journal }) }
        ensures same { OnErr result (self.new ≡ self.old) }
    {
        self.outside.attach(alloc, journal)
    }

    /// Presents the next entry of the journal at a place.
    pub fn present(&mut self, number: u32, at: Place)
        requires next { number ≡ self.old.outside.presented + 1 }
        requires there { number ≤ length self.old.outside.journal.entries }
        ensures state { self.new ≡ record self.old { outside = present self.old.outside number at } }
        ensures stands { KeepsStanding self.old.outside self.new.outside }
    {
        self.outside.present(number, at);
    }

    /// Takes what came from outside first: all entries of a signal, or one entry of ticks or of input; None exactly where
    /// nothing waits.
    pub fn drain(&mut self) -> Option<Taken>
        ensures first { result ≡ drained (gather self.old.outside).log.slots }
        ensures rest { self.new ≡ record self.old { outside = drain (gather self.old.outside) } }
        ensures stands { TakesDrained self.old.outside result self.new.outside }
    {
        self.outside.gather();
        self.outside.drain()
    }

    /// All tables. What always holds of a kernel is told here.
    pub fn tables(&self) -> &Tables<R>
        ensures tables { result.now ≡ self.now.tables }
        ensures sound { IsSoundKernel R.order R.prio self.now }
    {
        &self.tables
    }

    /// The thread that runs: the first ready one of greatest priority; None exactly where none is ready.
    pub fn chosen(&self) -> Option<Tid>
        ensures { result ≡ chosen (view R.order self.now.tables) }
    {
        self.tables.chosen()
    }

    /// Puts the registers of a thread in place; the machine stays.
    pub fn place(&mut self, t: Tid)
        ensures view { view R.order self.new.tables ≡ view R.order self.old.tables }
        ensures placed { self.new.tables.records.placed ≡ t }
        ensures others { self.new ≡ record self.old { tables = self.new.tables } }
    {
        self.tables.place(t);
    }

    /// Makes one instruction of the thread whose registers are in place, which is the chosen one, up to what its
    /// event asks for: with Next it was made, by the RISC-V manual, and with another event nothing changed.
    #[inline(always)]
    pub fn execute(&mut self) -> Event
        requires idle { self.old.main ≡ None }
        requires chosen { chosen (view R.order self.old.tables) ≡ Some self.old.tables.records.placed }
        ensures executed { HasExecuted (view R.order self.old.tables) self.old.tables.records.placed result (view R.order self.new.tables) }
        ensures placed { self.new.tables.records.placed ≡ self.old.tables.records.placed }
        ensures others { self.new ≡ record self.old { tables = self.new.tables } }
    {
        self.tables.execute()
    }

    /// Notes a small change that the move to be begun has to make, after those noted before.
    fn note(&mut self, change: Change)
        requires room { length self.old.rest.noted.items < 512 }
        requires idle { self.old.main ≡ None }
        ensures noted { self.new.rest.noted.items ≡ self.old.rest.noted.items ++ change ∷ [] }
        ensures next { self.new.rest.next ≡ self.old.rest.next }
        ensures others { self.new ≡ record self.old { rest = self.new.rest } }
    {
        self.rest.noted.push(change);
    }

    /// Notes the one small change of a move of a thread that is ready.
    pub fn note_one(&mut self, t: Tid, change: Change)
        requires ready { CanNote R.order self.old t }
        requires can { Can change (begun (view R.order self.old.tables)) }
        ensures { HasNotedSome R.order self.old self.new (change_by change (begun (view R.order self.old.tables))) }
    {
        self.note_more(change);
    }

    /// Notes the two small changes of a move of a thread that is ready.
    pub fn note_two(&mut self, t: Tid, first: Change, second: Change)
        requires ready { CanNote R.order self.old t }
        requires first { Can first (begun (view R.order self.old.tables)) }
        requires second { Can second (change_by first (begun (view R.order self.old.tables))) }
        ensures { HasNotedSome R.order self.old self.new (change_by second (change_by first (begun (view R.order self.old.tables)))) }
    {
        self.note_more(first);
        self.note_more(second);
    }

    /// Notes one small change more of the move to be begun, after those that were noted before. A move has 512 at
    /// most.
    pub fn note_more(&mut self, change: Change)
        requires room { length self.old.rest.noted.items < 512 }
        requires idle { self.old.main ≡ None }
        ensures noted { NotesMore R.order self.old self.new change }
        ensures length { length self.new.rest.noted.items ≡ length self.old.rest.noted.items + 1 }
        ensures idle { self.new.main ≡ None }
    {
        self.note(change);
    }

    /// Notes the answer of a refusal: an error, and nothing else changes.
    pub fn refuse(&mut self, t: Tid, error: Errno) -> Reply
        requires { CanNote R.order self.old t }
        ensures noted { HasNotedSome R.order self.old self.new (refused (view R.order self.old.tables) t error).outcome }
        ensures reply { result ≡ (refused (view R.order self.old.tables) t error).reply }
    {
        self.note_one(t, Change::reply(t, error.code(), 0));
        Reply::refusal(error)
    }

    /// Begins the move of the small changes that were noted, with its thread and its main line.
    pub fn begin_move(&mut self, t: Tid, head: Head)
        requires { CanStart R.order self.old }
        ensures { self.new ≡ record self.old { main = Some (MainLine.OfThread t head) } }
    {
        self.main = Some(MainLine::OfThread { thread: t, head });
    }

    /// Begins the arrival of the small changes that were noted, with its main line and the place where the first of its
    /// entries was presented.
    pub fn begin_arrival(&mut self, head: Head, at: Place)
        requires { CanStart R.order self.old }
        ensures { self.new ≡ record self.old { main = Some (MainLine.Arrival head at) } }
    {
        self.main = Some(MainLine::Arrival { head, at });
    }

    /// Makes the next small change of the move in progress, and no other. Exit comes exactly where it was the last
    /// one.
    pub fn step(&mut self) -> Stepped
        requires { InProgress self.old }
        ensures step { IsStep R.order self.old result self.new }
        ensures small { IsSmall (view R.order self.old.tables) (view R.order self.new.tables) }
    {
        make_next(&mut self.tables, &mut self.rest);
        if self.rest.is_empty() {
            Stepped::Exit(take_report(&mut self.tables, &mut self.rest, &mut self.main))
        } else {
            Stepped::More
        }
    }

    /// Makes all that is left of the move in progress, and gives its report: the tables then show what was owed.
    pub fn finish(&mut self) -> Report
        requires { InProgress self.old }
        ensures state { view R.order self.new.tables ≡ (owed_by R.order self.old).state }
        ensures report { result ≡ (owed_by R.order self.old).report }
        ensures idle { IsIdle self.new }
        ensures settings { self.new.settings ≡ self.old.settings }
        ensures outside { self.new.outside ≡ self.old.outside }
    {
        while !self.rest.is_empty() {
            make_next(&mut self.tables, &mut self.rest);
        }
        take_report(&mut self.tables, &mut self.rest, &mut self.main)
    }
}

/// Makes the first of the small changes that are left: the others are left.
fn make_next<R: Ready + Drop>(tables: &mut Tables<R>, rest: &mut Rest)
    requires some { is_nil (remaining rest.old) ≡ false }
    requires can { AllCan (outcome R.order tables.old) (remaining rest.old) }
    ensures made { HasMade R.order tables.old rest.old tables.new rest.new }
    ensures current { StayCurrent R.order R.prio tables.old tables.new }
{
    let change = rest.take();
    tables.make(change);
}

/// The report of a move whose changes are all made; no move is in progress then, and nothing is told.
#[tactic(auto, unfolding(crate::specs::View::view, crate::specs::View::outcome))]
fn take_report<R: Ready + Drop>(
    tables: &mut Tables<R>,
    rest: &mut Rest,
    main: &mut Option<MainLine>,
) -> Report
    ensures report { result ≡ told main.old (outcome R.order tables.old).report }
    ensures view { view R.order tables.new ≡ view R.order tables.old }
    ensures untold { tables.new.report ≡ nothing_told }
    ensures current { StayCurrent R.order R.prio tables.old tables.new }
    ensures empty { IsEmpty rest.new }
    ensures main { main.new ≡ None }
{
    let report = match main {
        None => tables.report,
        Some(main) => main.tell(tables.report),
    };
    tables.report = Report::nothing();
    rest.clear();
    *main = None;
    report
}

/// The arguments of a call by their names, from a0, a1, a2 and a3.
pub fn arguments_from(args: [u32; 4]) -> Arguments
    ensures { result ≡ arguments_of args }
{
    Arguments {
        a0: args[0],
        a1: args[1],
        a2: args[2],
        a3: args[3],
    }
}
