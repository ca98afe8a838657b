ghost use Rattle.std.specs.Prelude.{◌≡◌};
ghost use Rattle.replay_io.specs.Writing.{Writes};
ghost use Rattle.replay_cli.specs.Failures.{code_of, status_of, cause_line, line_of, image_line, journal_line};

use elf_image::ImageRefusal;
use journal_text::JournalRefusal;
use replay_io::{Sink, SinkFailed};
use trace_text::put_line;

/// How a replay ended. It ran to its end, or: the words are refused, a file could not be read, the image or
/// the journal is refused, the output could not be written, or memory ran out.
#[derive(Clone, Copy, Debug, PartialEq, Eq)]
pub enum Status {
    Ran,
    Words,
    ReadFault,
    Image,
    Journal,
    WriteFault,
    NoMemory,
}

impl Status {
    /// The exit code: 0 where it ran, else 2 to 7 in the order of the variants.
    pub fn code(self) -> u8
        ensures { result ≡ code_of self }
    {
        match self {
            Status::Ran => 0,
            Status::Words => 2,
            Status::ReadFault => 3,
            Status::Image => 4,
            Status::Journal => 5,
            Status::WriteFault => 6,
            Status::NoMemory => 7,
        }
    }
}

/// Why a replay did not run to its end: the words are refused, the image's or the journal's file could not
/// be read, the image or the journal is refused, the output could not be written, or memory ran out.
#[derive(Clone, Copy, Debug, PartialEq, Eq)]
pub enum Failure {
    Words,
    ImageFile,
    JournalFile,
    Image(ImageRefusal),
    Journal(JournalRefusal),
    Output,
    Memory,
}

impl Failure {
    /// The status that tells it.
    pub fn status(self) -> Status
        ensures { result ≡ status_of self }
    {
        match self {
            Failure::Words => Status::Words,
            Failure::ImageFile | Failure::JournalFile => Status::ReadFault,
            Failure::Image(_) => Status::Image,
            Failure::Journal(_) => Status::Journal,
            Failure::Output => Status::WriteFault,
            Failure::Memory => Status::NoMemory,
        }
    }

    /// Writes the line that tells it, which begins with the name of the program.
    #[tactic(auto, unfolding(crate::specs::Failures::line_of))]
    pub fn put_line<E: Sink>(self, program: &str, err: &mut E) -> Result<(), SinkFailed>
        ensures { Writes result (E.written err.old) (E.written err.new) (E.faults err.old) (E.faults err.new) (line_of program.now self) }
    {
        err.put(program.as_bytes())?;
        self.put_cause(err)
    }

    /// Writes the rest of the line after the program's name.
    #[tactic(auto, unfolding(crate::specs::Failures::cause_line))]
    fn put_cause<E: Sink>(self, err: &mut E) -> Result<(), SinkFailed>
        ensures { Writes result (E.written err.old) (E.written err.new) (E.faults err.old) (E.faults err.new) (cause_line self) }
    {
        match self {
            Failure::Words => put_line(b": words", &[], err),
            Failure::ImageFile => put_line(b": cannot read image", &[], err),
            Failure::JournalFile => put_line(b": cannot read journal", &[], err),
            Failure::Image(refusal) => put_image_line(refusal, err),
            Failure::Journal(refusal) => put_journal_line(refusal, err),
            Failure::Output => put_line(b": cannot write", &[], err),
            Failure::Memory => put_line(b": no memory", &[], err),
        }
    }
}

/// Writes the line of a refused image.
#[tactic(auto, unfolding(crate::specs::Failures::image_line))]
fn put_image_line<E: Sink>(refusal: ImageRefusal, err: &mut E) -> Result<(), SinkFailed>
    ensures { Writes result (E.written err.old) (E.written err.new) (E.faults err.old) (E.faults err.new) (image_line refusal) }
{
    match refusal {
        ImageRefusal::TooLong => put_line(b": image refused: TooLong", &[], err),
        ImageRefusal::Short => put_line(b": image refused: Short", &[], err),
        ImageRefusal::Magic => put_line(b": image refused: Magic", &[], err),
        ImageRefusal::Class => put_line(b": image refused: Class", &[], err),
        ImageRefusal::Order => put_line(b": image refused: Order", &[], err),
        ImageRefusal::Version => put_line(b": image refused: Version", &[], err),
        ImageRefusal::FileType => put_line(b": image refused: FileType", &[], err),
        ImageRefusal::Machine => put_line(b": image refused: Machine", &[], err),
        ImageRefusal::Flags => put_line(b": image refused: Flags", &[], err),
        ImageRefusal::HeaderSize => put_line(b": image refused: HeaderSize", &[], err),
        ImageRefusal::SegmentCount => put_line(b": image refused: SegmentCount", &[], err),
        ImageRefusal::TableOutOfFile => put_line(b": image refused: TableOutOfFile", &[], err),
        ImageRefusal::Dynamic(i) => put_line(b": image refused: Dynamic", &[u64::from(i)], err),
        ImageRefusal::SegmentOutOfFile(i) => put_line(
            b": image refused: SegmentOutOfFile",
            &[u64::from(i)],
            err,
        ),
        ImageRefusal::SizeAboveMemory(i) => put_line(
            b": image refused: SizeAboveMemory",
            &[u64::from(i)],
            err,
        ),
        ImageRefusal::OutsideWindow(i) => put_line(
            b": image refused: OutsideWindow",
            &[u64::from(i)],
            err,
        ),
        ImageRefusal::Entry => put_line(b": image refused: Entry", &[], err),
    }
}

/// Writes the line of a refused journal.
#[tactic(auto, unfolding(crate::specs::Failures::journal_line))]
fn put_journal_line<E: Sink>(refusal: JournalRefusal, err: &mut E) -> Result<(), SinkFailed>
    ensures { Writes result (E.written err.old) (E.written err.new) (E.faults err.old) (E.faults err.new) (journal_line refusal) }
{
    match refusal {
        JournalRefusal::TooLong => put_line(b": journal refused: TooLong", &[], err),
        JournalRefusal::Header => put_line(b": journal refused: Header", &[], err),
        JournalRefusal::Line(number) => put_line(
            b": journal refused: Line",
            &[u64::from(number)],
            err,
        ),
        JournalRefusal::Number(number) => put_line(
            b": journal refused: Number",
            &[u64::from(number)],
            err,
        ),
        JournalRefusal::Signal(number) => put_line(
            b": journal refused: Signal",
            &[u64::from(number)],
            err,
        ),
        JournalRefusal::Order(number) => put_line(
            b": journal refused: Order",
            &[u64::from(number)],
            err,
        ),
        JournalRefusal::AfterEof(number) => put_line(
            b": journal refused: AfterEof",
            &[u64::from(number)],
            err,
        ),
        JournalRefusal::TooMany(number) => put_line(
            b": journal refused: TooMany",
            &[u64::from(number)],
            err,
        ),
        JournalRefusal::NoMemory => put_line(b": journal refused: NoMemory", &[], err),
    }
}
