ghost use Rattle.std.specs.Prelude.{◌≡◌, ◌≤◌, IfOk, IfErr, OnOk, true, option_map};
ghost use Rattle.rv_exec.specs.Window.{IsMemorySize};
ghost use Rattle.command_words.specs.Accepted.{settings_of};
ghost use Rattle.replay_cli.specs.Words.{are_accepted, mode_by, request, request_in};
ghost use Rattle.replay_cli.specs.Requests.{request_of};
ghost use Rattle.replay_cli.specs.Causes.{WordsCause};

use crate::failure::Failure;
use command_words::{Mode as AskedMode, Options, Source, read_options};
use posix_model::Settings;
use replay_io::Words;
use std::alloc::Global;
use trace_text::Mode;

/// A run that the words ask for: the names of the image and of the journal, budget and quantum, the bytes of
/// memory, and what is written of it.
#[derive(Drop)]
pub(crate) struct Request {
    pub(crate) image: String,
    pub(crate) journal: String,
    pub(crate) settings: Settings,
    pub(crate) memory: u32,
    pub(crate) mode: Mode,
}

/// What is written of a run, by the options.
fn mode_by(mode: AskedMode) -> Mode
    ensures { result ≡ mode_by mode }
{
    match mode {
        AskedMode::Trace => Mode::Trace,
        AskedMode::Plain => Mode::Plain,
    }
}

/// The run that options ask for; None for generated pairs, which are not built yet.
fn request_in(options: Options) -> Option<Request>
    ensures { option_map request_of result ≡ request_in (settings_of options) }
{
    let Options {
        source,
        budget,
        quantum,
        memory,
        mode,
    } = options;
    let Source::Files { image, journal } = source else {
        return None;
    };
    Some(Request {
        image,
        journal,
        settings: Settings { budget, quantum },
        memory,
        mode: mode_by(mode),
    })
}

/// The run that the words ask for, or why there is none.
#[tactic(auto, unfolding(crate::specs::Words::asked))]
pub(crate) fn read_request(alloc: Global, words: &Words) -> Result<Request, Failure>
    ensures accepted { OnOk result (are_accepted words.now ≡ true) }
    ensures request { IfOk result (λ r. request words.now ≡ request_of r) }
    ensures budget { IfOk result (λ r. r.settings.budget ≤ 1000000000) }
    ensures quantum { IfOk result (λ r. (1 ≤ r.settings.quantum) × (r.settings.quantum ≤ 1000)) }
    ensures memory { IfOk result (λ r. IsMemorySize r.memory) }
    ensures cause { IfErr result (WordsCause words.now) }
{
    let Ok(options) = read_options(alloc, words) else {
        return Err(Failure::Memory);
    };
    let Some(options) = options else {
        return Err(Failure::Words);
    };
    match request_in(options) {
        Some(request) => Ok(request),
        None => Err(Failure::Words),
    }
}
