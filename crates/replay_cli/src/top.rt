ghost use Rattle.std.specs.Prelude.{◌≡◌, ◌≢◌, ◌<◌, ◌≤◌, ◌⊎◌, ◌+◌, true, false, [], codes, length, slice_index_or, take, IfSome, IfOk, IfErr, OnOk, List, ℕ, Option, Some, None};
ghost use Rattle.journal_text.specs.Refusals.{entries_of};
ghost use Rattle.journal_text.specs.Valid as valid;
ghost use Rattle.rv_exec.specs.Window.{IsMemorySize};
ghost use Rattle.elf_image.specs.Refusal.{first_refusal};
ghost use Rattle.replay_io.specs.Writing.{Rose};
ghost use Rattle.posix_model.specs.Start as machine;
ghost use Rattle.dispatcher.specs.Arriving.{AreSignalsOrTicks};
ghost use Rattle.process_engine.specs.Engine.{moment_of, position_of};
ghost use Rattle.replay_cli.specs.Words.{are_accepted, request, image_name, journal_name};
ghost use Rattle.replay_cli.specs.Journal.{first_refused};
ghost use Rattle.replay_cli.specs.Failures.{status_of};
ghost use Rattle.replay_cli.specs.Headline.{loaded, rules_under, IsStartOf, WritesRunOf, WritesFrontOf};
ghost use Rattle.replay_cli.specs.Beside.{IsBeside, TellsRunOf};
ghost use Rattle.replay_cli.specs.Causes.{IsImage, IsJournal, ImageCause, JournalCause, Cause, Tells, Fails, IsSmooth};

use crate::failure::{Failure, Status};
use crate::journal::read_accepted;
use crate::request::read_request;
use elf_image::EntryPoint;
use journal_text::{Journal, JournalRefusal};
use posix_model::Ending;
use process_engine::{Process, WriteFault};
use replay_io::{Files, LoadRefusal, Sink, Words};
use rv_exec::Memory;
use std::alloc::Global;
use thread_base::NoMemory;
use trace_text::{Mode, put_ending};

/// The most bytes of an image or a journal.
const MOST: usize = 16_777_216;

/// The first bytes of what a name holds, with one more than an image or a journal may have.
#[tactic(auto, unfolding(crate::specs::Headline::loaded))]
fn load_file<F: Files>(alloc: Global, name: &str, files: &mut F) -> Result<Vec<u8>, LoadRefusal>
    ensures bytes { IfOk result (λ v. IfSome (F.content files.old name.now) (λ c. v.items ≡ loaded c)) }
    ensures same { (n : List ℕ) → F.content files.new n ≡ F.content files.old n }
    ensures later { (n : List ℕ) → F.faults files.old n ≤ F.faults files.new n }
    ensures failed { result ≡ Err LoadRefusal.Failed → Rose (F.faults files.old name.now) (F.faults files.new name.now) }
{
    files.load(alloc, name, MOST)
}

/// An image in its window of memory, and where its program begins.
#[derive(Drop)]
struct Program {
    mem: Memory,
    entry: EntryPoint,
}

/// The program of an image in a memory of this size, or why there is none.
fn accept_image<F: Files>(
    alloc: Global,
    name: &str,
    size: u32,
    files: &mut F,
) -> Result<Program, Failure>
    requires { IsMemorySize size }
    ensures start { IfOk result (λ p. IfSome (F.content files.old name.now) (λ image. IsStartOf size (loaded image) (machine.start p.mem p.entry.0))) }
    ensures cause { IfErr result (ImageCause size (F.content files.old name.now) (F.faults files.old name.now) (F.faults files.new name.now)) }
    ensures same { (n : List ℕ) → F.content files.new n ≡ F.content files.old n }
    ensures later { (n : List ℕ) → F.faults files.old n ≤ F.faults files.new n }
{
    let image = match load_file(alloc, name, files) {
        Ok(bytes) => bytes,
        Err(LoadRefusal::Failed) => return Err(Failure::ImageFile),
        Err(LoadRefusal::NoMemory) => return Err(Failure::Memory),
    };
    let Ok(mut mem) = Memory::new(alloc, size) else {
        return Err(Failure::Memory);
    };
    match elf_image::load(&image, &mut mem) {
        Ok(entry) => Ok(Program { mem, entry }),
        Err(refusal) => Err(Failure::Image(refusal)),
    }
}

/// The journal that a name holds, or why it is not accepted.
fn accept_journal<F: Files>(alloc: Global, name: &str, files: &mut F) -> Result<Journal, Failure>
    ensures accepted { OnOk result (IsJournal (F.content files.old name.now)) }
    ensures entries { IfOk result (λ j. IfSome (F.content files.old name.now) (λ journal. j ≡ entries_of (loaded journal))) }
    ensures journal { IfOk result valid.IsJournal }
    ensures built { IfOk result (λ j. AreSignalsOrTicks j.entries) }
    ensures cause { IfErr result (JournalCause (F.content files.old name.now) (F.faults files.old name.now) (F.faults files.new name.now)) }
    ensures same { (n : List ℕ) → F.content files.new n ≡ F.content files.old n }
    ensures later { (n : List ℕ) → F.faults files.old n ≤ F.faults files.new n }
{
    let bytes = match load_file(alloc, name, files) {
        Ok(bytes) => bytes,
        Err(LoadRefusal::Failed) => return Err(Failure::JournalFile),
        Err(LoadRefusal::NoMemory) => return Err(Failure::Memory),
    };
    match read_accepted(alloc, &bytes) {
        Ok(journal) => Ok(journal),
        Err(JournalRefusal::NoMemory) => Err(Failure::Memory),
        Err(refusal) => Err(Failure::Journal(refusal)),
    }
}

/// What the words, the image and the journal make together: the process at the image's start, and what is to be
/// written of its run.
#[derive(Drop)]
pub(crate) struct Accepted {
    pub(crate) process: Process,
    mode: Mode,
}

/// Reads the words, loads and checks image and journal, and makes the process at the image's start; the first
/// thing that fails ends it.
pub(crate) fn accept<F: Files>(
    alloc: Global,
    words: &Words,
    files: &mut F,
) -> Result<Accepted, Failure>
    ensures words { OnOk result (are_accepted words.now ≡ true) }
    ensures journal { OnOk result (IsJournal (F.content files.old (journal_name words.now))) }
    ensures start { IfOk result (λ a. IfSome (F.content files.old (image_name words.now)) (λ image. IsStartOf (request words.now).memory (loaded image) (moment_of a.process))) }
    ensures at_rest { IfOk result (λ a. (position_of a.process).telling ≡ None) }
    ensures rules { IfOk result (λ a. IfSome (F.content files.old (journal_name words.now)) (λ journal. a.process.rules ≡ rules_under (request words.now).settings (loaded journal))) }
    ensures mode { IfOk result (λ a. a.mode ≡ (request words.now).mode) }
    ensures cause { IfErr result (λ f. (a b : ℕ) → Cause words.now (F.content files.old) (F.faults files.old) (F.faults files.new) a b f) }
    ensures early { IfErr result (λ f. f ≢ Failure.Output) }
    ensures same { (n : List ℕ) → F.content files.new n ≡ F.content files.old n }
{
    let request = match read_request(alloc, words) {
        Ok(request) => request,
        Err(failure) => return Err(failure),
    };
    let program = match accept_image(alloc, request.image.as_str(), request.memory, files) {
        Ok(program) => program,
        Err(failure) => return Err(failure),
    };
    let journal = match accept_journal(alloc, request.journal.as_str(), files) {
        Ok(journal) => journal,
        Err(failure) => return Err(failure),
    };
    match Process::new(alloc, program.mem, program.entry, journal, request.settings) {
        Ok(process) => Ok(Accepted {
            process,
            mode: request.mode,
        }),
        Err(NoMemory) => Err(Failure::Memory),
    }
}

/// A run that was written whole: how it ended, and what was written of it.
#[derive(Clone, Copy)]
struct Ran {
    ending: Ending,
    mode: Mode,
}

impl Ran {
    /// Writes to the error sink what belongs beside the text: beside plain text the line of the ending.
    #[tactic(auto, using(replay_io::proofs::WritingLemmas::writes_nothing))]
    fn put_beside<E: Sink>(self, err: &mut E)
        ensures beside { IsBeside self.mode self.ending (E.written err.old) (E.written err.new) (E.faults err.old) (E.faults err.new) }
        ensures quiet { self.mode ≡ Mode.Trace → err.new ≡ err.old }
    {
        match self.mode {
            Mode::Trace => {}
            Mode::Plain => {
                let _ = put_ending(&self.ending, err);
            }
        }
    }
}

/// Accepts the image and the journal and runs; the first thing that fails ends it.
fn attempt<F: Files, O: Sink>(
    alloc: Global,
    words: &Words,
    files: &mut F,
    out: &mut O,
) -> Result<Ran, Failure>
    ensures words { OnOk result (are_accepted words.now ≡ true) }
    ensures journal { OnOk result (IsJournal (F.content files.old (journal_name words.now))) }
    ensures mode { IfOk result (λ r. r.mode ≡ (request words.now).mode) }
    ensures ran { IfOk result (λ r. IfSome (F.content files.old (image_name words.now)) (λ image. IfSome (F.content files.old (journal_name words.now)) (λ journal. WritesRunOf (request words.now) r.ending (loaded image) (loaded journal) (O.written out.old) (O.written out.new)))) }
    ensures kept { OnOk result (O.faults out.new ≡ O.faults out.old) }
    ensures cause { IfErr result (Cause words.now (F.content files.old) (F.faults files.old) (F.faults files.new) (O.faults out.old) (O.faults out.new)) }
    ensures nothing { IfErr result (λ f. f ≢ Failure.Output → out.new ≡ out.old) }
    ensures front { IfErr result (λ f. f ≡ Failure.Output → IfSome (F.content files.old (image_name words.now)) (λ image. IfSome (F.content files.old (journal_name words.now)) (λ journal. WritesFrontOf (request words.now) (loaded image) (loaded journal) (O.written out.old) (O.written out.new)))) }
    ensures same { (n : List ℕ) → F.content files.new n ≡ F.content files.old n }
{
    let Accepted { process, mode } = match accept(alloc, words, files) {
        Ok(accepted) => accepted,
        Err(failure) => return Err(failure),
    };
    match process.run(out, mode) {
        Ok(done) => Ok(Ran {
            ending: done.ending,
            mode,
        }),
        Err(WriteFault) => Err(Failure::Output),
    }
}

/// Replays the image under the journal that the words name: loads and checks both, and writes the text of
/// the run to `out`: its trace, or under the option `--plain` what its threads wrote, and then the line of the ending to
/// `err`. Where it does not run to its end it writes one line to `err` and tells why by its status. Nothing but reading the words and loading may find no memory, and then nothing was written to `out`.
pub fn replay<F: Files, O: Sink, E: Sink>(
    alloc: Global,
    words: &Words,
    files: &mut F,
    out: &mut O,
    err: &mut E,
) -> Status
    // Where it ran, what came to `out` is the text of one list of moves; that list is a run of the thread
    // machine from the image's start under the journal, and the last line names its ending: of a trace in `out`, and
    // beside plain text in `err`, where a trace leaves nothing.
    ensures ran { result ≡ Status.Ran → IfSome (F.content files.old (image_name words.now)) (λ image. IfSome (F.content files.old (journal_name words.now)) (λ journal. TellsRunOf (request words.now) (loaded image) (loaded journal) (O.written out.old) (O.written out.new) (E.written err.old) (E.written err.new) (E.faults err.old) (E.faults err.new))) }
    ensures accepted { result ≡ Status.Ran → IsJournal (F.content files.old (journal_name words.now)) }
    ensures kept { result ≡ Status.Ran → O.faults out.new ≡ O.faults out.old }
    ensures quiet { result ≡ Status.Ran → (request words.now).mode ≡ Mode.Trace → err.new ≡ err.old }

    // Each other status has its cause, and its line on `err`.
    ensures fails { (result ≡ Status.Ran) ⊎ Fails (codes "fsu_replay") result (Cause words.now (F.content files.old) (F.faults files.old) (F.faults files.new) (O.faults out.old) (O.faults out.new)) (E.written err.old) (E.written err.new) (E.faults err.old) (E.faults err.new) }
    ensures words { result ≡ Status.Words → are_accepted words.now ≡ false }
    ensures refused { are_accepted words.now ≡ false → (result ≡ Status.Words) ⊎ (result ≡ Status.NoMemory) }
    ensures read { result ≡ Status.ReadFault → Rose (F.faults files.old (image_name words.now)) (F.faults files.new (image_name words.now)) ⊎ (IsImage (request words.now).memory (F.content files.old (image_name words.now)) × Rose (F.faults files.old (journal_name words.now)) (F.faults files.new (journal_name words.now))) }
    ensures image { result ≡ Status.Image → IfSome (F.content files.old (image_name words.now)) (λ image. first_refusal (loaded image) (request words.now).memory ≢ None) }
    ensures journal { result ≡ Status.Journal → IfSome (F.content files.old (journal_name words.now)) (λ journal. first_refused (loaded journal) ≢ None) }
    ensures write { result ≡ Status.WriteFault → Rose (O.faults out.old) (O.faults out.new) }

    // What stands in `out` afterwards.
    ensures nothing { result ≢ Status.Ran → result ≢ Status.WriteFault → out.new ≡ out.old }
    ensures front { result ≡ Status.WriteFault → IfSome (F.content files.old (image_name words.now)) (λ image. IfSome (F.content files.old (journal_name words.now)) (λ journal. WritesFrontOf (request words.now) (loaded image) (loaded journal) (O.written out.old) (O.written out.new))) }

    // Where all is accepted and nothing fails, it runs, or memory runs out.
    ensures complete { IsSmooth words.now (F.content files.old) (F.faults files.old) (F.faults files.new) (O.faults out.old) (O.faults out.new) → (result ≡ Status.Ran) ⊎ (result ≡ Status.NoMemory) }
{
    match attempt(alloc, words, files, out) {
        Ok(ran) => {
            ran.put_beside(err);
            Status::Ran
        }
        Err(failure) => {
            let _ = failure.put_line("fsu_replay", err);
            failure.status()
        }
    }
}
