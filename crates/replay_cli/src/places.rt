ghost use Rattle.std.specs.Prelude.{◌≡◌, ◌≢◌, ◌⊎◌, ◌++◌, true, false, codes, IfSome, IfErr, OnOk, List, ℕ, None, Some};
ghost use Rattle.replay_io.specs.Writing.{Writes};
ghost use Rattle.posix_model.specs.Threads.{exists};
ghost use Rattle.posix_model.specs.Trace.{end_text};
ghost use Rattle.kernel_state.specs.Records.{thread_in};
ghost use Rattle.process_engine.specs.Engine.{moment_of, position_of};
ghost use Rattle.replay_cli.specs.Words.{are_accepted, request, image_name, journal_name};
ghost use Rattle.replay_cli.specs.Headline.{loaded};
ghost use Rattle.replay_cli.specs.Causes.{IsJournal, Cause, Fails, IsSmooth};
ghost use Rattle.replay_cli.specs.Places.{place_at, place_lines, faults_with, fault_of, fault_text, places_text, TellsPlacesOf, TellsFrontOf};

use crate::event::{event_at, faults_by};
use crate::failure::{Failure, Status};
use crate::lines::{put_fault, put_place};
use crate::top::accept;
use kernel_state::ThreadRecord;
use posix_model::Ending;
use process_engine::Process;
use replay_io::{Files, Sink, SinkFailed, Words};
use std::alloc::Global;
use thread_base::{Sig, Tid};
use trace_text::put_end;

/// Writes the line of a thread, where it is there.
#[tactic(auto, unfolding(crate::specs::Places::place_at), using(replay_io::proofs::WritingLemmas::writes_nothing))]
fn put_place_at<O: Sink>(process: &Process, t: Tid, out: &mut O) -> Result<(), SinkFailed>
    requires { (position_of process.now).telling ≡ None }
    ensures { Writes result (O.written out.old) (O.written out.new) (O.faults out.old) (O.faults out.new) (place_at (moment_of process.now).state t) }
{
    match process.find(t) {
        None => Ok(()),
        Some(known) => put_place(t, &known, out),
    }
}

/// Writes a line for each thread, by number.
fn put_all_places<O: Sink>(process: &Process, out: &mut O) -> Result<(), SinkFailed>
    requires { (position_of process.now).telling ≡ None }
    ensures { Writes result (O.written out.old) (O.written out.new) (O.faults out.old) (O.faults out.new) (place_lines (moment_of process.now).state) }
{
    for index in 0..64usize {
        put_place_at(process, Tid::at(index), out)?;
    }
    Ok(())
}

/// Whether the instruction at which a thread stands faults with this signal.
fn faults_with(process: &Process, t: Tid, known: &ThreadRecord, signal: Sig) -> bool
    requires at_rest { (position_of process.now).telling ≡ None }
    requires there { exists (moment_of process.now).state t ≡ true }
    requires known { thread_in known.now ((moment_of process.now).state.threads t).frames ≡ (moment_of process.now).state.threads t }
    ensures { result ≡ faults_with (moment_of process.now).state t signal }
{
    let event = event_at(&known.regs, process.memory());
    faults_by(event, &process.top(t), &known.activity.leaving, signal)
}

/// Writes the line of the fault with this signal of the thread of the last instruction, where it stands at one.
#[tactic(auto, using(replay_io::proofs::WritingLemmas::writes_nothing))]
fn put_fault_of<O: Sink>(process: &Process, signal: Sig, out: &mut O) -> Result<(), SinkFailed>
    requires { (position_of process.now).telling ≡ None }
    ensures { Writes result (O.written out.old) (O.written out.new) (O.faults out.old) (O.faults out.new) (fault_of (moment_of process.now).state (moment_of process.now).last signal) }
{
    let Some(t) = process.last() else {
        return Ok(());
    };
    match process.find(t) {
        None => Ok(()),
        Some(known) => {
            if faults_with(process, t, &known, signal) {
                put_fault(t, signal, &known.regs, process.memory(), out)
            } else {
                Ok(())
            }
        }
    }
}

/// Writes the line of the fault, where a signal ended the run and the thread of the last instruction stands at a fault
/// with it.
#[tactic(auto, unfolding(crate::specs::Places::fault_text), using(replay_io::proofs::WritingLemmas::writes_nothing))]
fn put_last_fault<O: Sink>(
    process: &Process,
    ending: &Ending,
    out: &mut O,
) -> Result<(), SinkFailed>
    requires { (position_of process.now).telling ≡ None }
    ensures { Writes result (O.written out.old) (O.written out.new) (O.faults out.old) (O.faults out.new) (fault_text (moment_of process.now) ending.now) }
{
    match *ending {
        Ending::Killed(signal) => put_fault_of(process, signal, out),
        Ending::Exit(_) => Ok(()),
        Ending::Idle => Ok(()),
        Ending::Budget => Ok(()),
    }
}

/// Writes the line of the fault, and the last lines of the trace.
fn put_last<O: Sink>(process: &Process, ending: &Ending, out: &mut O) -> Result<(), SinkFailed>
    requires { (position_of process.now).telling ≡ None }
    ensures { Writes result (O.written out.old) (O.written out.new) (O.faults out.old) (O.faults out.new) (fault_text (moment_of process.now) ending.now ++ end_text (moment_of process.now) ending.now) }
{
    put_last_fault(process, ending, out)?;
    put_end(ending, &process.left(), out)
}

/// Writes where the threads stand, the fault, and the last lines of the trace.
#[tactic(auto, unfolding(crate::specs::Places::places_text))]
fn put_places<O: Sink>(process: &Process, ending: &Ending, out: &mut O) -> Result<(), SinkFailed>
    requires { (position_of process.now).telling ≡ None }
    ensures { Writes result (O.written out.old) (O.written out.new) (O.faults out.old) (O.faults out.new) (places_text (moment_of process.now) ending.now) }
{
    put_all_places(process, out)?;
    put_last(process, ending, out)
}

/// Accepts the image and the journal, runs, and writes where the threads stand at the end; the first thing that
/// fails ends it.
fn attempt_places<F: Files, O: Sink>(
    alloc: Global,
    words: &Words,
    files: &mut F,
    out: &mut O,
) -> Result<(), Failure>
    ensures words { OnOk result (are_accepted words.now ≡ true) }
    ensures journal { OnOk result (IsJournal (F.content files.old (journal_name words.now))) }
    ensures ran { OnOk result (IfSome (F.content files.old (image_name words.now)) (λ image. IfSome (F.content files.old (journal_name words.now)) (λ journal. TellsPlacesOf (request words.now) (loaded image) (loaded journal) (O.written out.old) (O.written out.new)))) }
    ensures kept { OnOk result (O.faults out.new ≡ O.faults out.old) }
    ensures cause { IfErr result (Cause words.now (F.content files.old) (F.faults files.old) (F.faults files.new) (O.faults out.old) (O.faults out.new)) }
    ensures nothing { IfErr result (λ f. f ≢ Failure.Output → out.new ≡ out.old) }
    ensures front { IfErr result (λ f. f ≡ Failure.Output → IfSome (F.content files.old (image_name words.now)) (λ image. IfSome (F.content files.old (journal_name words.now)) (λ journal. TellsFrontOf (request words.now) (loaded image) (loaded journal) (O.written out.old) (O.written out.new)))) }
{
    let mut process = match accept(alloc, words, files) {
        Ok(accepted) => accepted.process,
        Err(failure) => return Err(failure),
    };
    let ending = process.run_to_end();
    match put_places(&process, &ending, out) {
        Ok(()) => Ok(()),
        Err(SinkFailed) => Err(Failure::Output),
    }
}

/// Makes the run that `replay` makes of the same words and files, and writes to `out` where its threads stand at
/// its end: for each thread a line, another where a signal ended the run and the thread of the last instruction stands
/// at a fault with it, and the last lines of the trace. Where it does not come to that it writes one line to `err` and
/// tells why by its status, as `replay` does. The words are those of `replay`; the option `--plain`, which speaks of the
/// text of the run, changes nothing here.
pub fn tell_places<F: Files, O: Sink, E: Sink>(
    alloc: Global,
    words: &Words,
    files: &mut F,
    out: &mut O,
    err: &mut E,
) -> Status
    // Where it ran, a whole run of the machine from the image's start, under the journal, leads to the moment whose
    // threads are told, and ends as is told. Under a journal without entries there is one such run, so it is the one
    // that `replay` makes.
    ensures ran { result ≡ Status.Ran → IfSome (F.content files.old (image_name words.now)) (λ image. IfSome (F.content files.old (journal_name words.now)) (λ journal. TellsPlacesOf (request words.now) (loaded image) (loaded journal) (O.written out.old) (O.written out.new))) }
    ensures accepted { result ≡ Status.Ran → IsJournal (F.content files.old (journal_name words.now)) }
    ensures kept { result ≡ Status.Ran → O.faults out.new ≡ O.faults out.old }
    ensures quiet { result ≡ Status.Ran → err.new ≡ err.old }

    // Each other status has its cause, and its line on `err`.
    ensures fails { (result ≡ Status.Ran) ⊎ Fails (codes "fsu_where") result (Cause words.now (F.content files.old) (F.faults files.old) (F.faults files.new) (O.faults out.old) (O.faults out.new)) (E.written err.old) (E.written err.new) (E.faults err.old) (E.faults err.new) }
    ensures words { result ≡ Status.Words → are_accepted words.now ≡ false }
    ensures refused { are_accepted words.now ≡ false → (result ≡ Status.Words) ⊎ (result ≡ Status.NoMemory) }

    // What stands in `out` afterwards.
    ensures nothing { result ≢ Status.Ran → result ≢ Status.WriteFault → out.new ≡ out.old }
    ensures front { result ≡ Status.WriteFault → IfSome (F.content files.old (image_name words.now)) (λ image. IfSome (F.content files.old (journal_name words.now)) (λ journal. TellsFrontOf (request words.now) (loaded image) (loaded journal) (O.written out.old) (O.written out.new))) }

    // Where all is accepted and nothing fails, it runs, or memory runs out.
    ensures complete { IsSmooth words.now (F.content files.old) (F.faults files.old) (F.faults files.new) (O.faults out.old) (O.faults out.new) → (result ≡ Status.Ran) ⊎ (result ≡ Status.NoMemory) }
{
    match attempt_places(alloc, words, files, out) {
        Ok(()) => Status::Ran,
        Err(failure) => {
            let _ = failure.put_line("fsu_where", err);
            failure.status()
        }
    }
}
