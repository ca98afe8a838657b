ghost use Rattle.std.specs.Prelude.{◌≡◌, IfOk, option_map};
ghost use Rattle.std.specs.String.{string_bytes};
ghost use Rattle.clap.specs.Words.{first_of, found_of, one_of, rows_of};
ghost use Rattle.command_words.specs.Accepted.{accepted, is_set, mode_of, origin, origin_of, settings_in, settings_of, two_names};

use crate::options::{Mode, Options, Source};
use crate::parse::{list, parse};
use crate::value::{budget, memory, number, quantum};
use clap::ArgMatches;
use replay_io::Words;
use std::alloc::Global;
use thread_base::NoMemory;

/// The text of a positional or an option.
fn text<'a>(matches: &ArgMatches<'a>, id: &str) -> Option<&'a str>
    ensures { option_map (λ s. s.now) result ≡ first_of id.now (rows_of (found_of matches.now)) }
{
    matches.get_str(id)
}

/// Whether a flag was given.
fn is_set(matches: &ArgMatches, id: &str) -> bool
    ensures { result ≡ is_set (one_of id.now (rows_of (found_of matches.now))) }
{
    matches.get_one::<bool>(id).unwrap_or(false)
}

/// A text of one's own.
fn owned(alloc: Global, text: &str) -> Result<String, NoMemory>
    ensures { IfOk result (λ own. string_bytes own ≡ text.now) }
{
    String::from_str(alloc, text).or(Err(NoMemory))
}

/// The files of two names; None where a name is missing.
fn files(
    alloc: Global,
    image: Option<&str>,
    journal: Option<&str>,
) -> Result<Option<Source>, NoMemory>
    ensures { IfOk result (λ r. option_map origin_of r ≡ two_names (option_map (λ s. s.now) image.entry) (option_map (λ s. s.now) journal.entry)) }
{
    let (Some(image), Some(journal)) = (image, journal) else {
        return Ok(None);
    };
    Ok(Some(Source::Files {
        image: owned(alloc, image)?,
        journal: owned(alloc, journal)?,
    }))
}

/// What is run: a seed goes with neither a name nor `--plain`.
fn source(
    alloc: Global,
    image: Option<&str>,
    journal: Option<&str>,
    seed: Option<&str>,
    is_plain: bool,
) -> Result<Option<Source>, NoMemory>
    ensures { IfOk result (λ r. option_map origin_of r
        ≡ origin (option_map (λ s. s.now) image.entry) (option_map (λ s. s.now) journal.entry) (option_map (λ s. s.now) seed.entry) is_plain) }
{
    let Some(seed) = seed else {
        return files(alloc, image, journal);
    };
    if image.is_some() || journal.is_some() || is_plain {
        return Ok(None);
    }
    Ok(number(seed).map(Source::Seed))
}

/// The options that the matches give; None where a word rule refuses.
fn read(alloc: Global, matches: &ArgMatches) -> Result<Option<Options>, NoMemory>
    ensures { IfOk result (λ r. option_map settings_of r ≡ settings_in (rows_of (found_of matches.now))) }
{
    let is_plain = is_set(matches, "plain");
    let Some(budget) = budget(text(matches, "budget")) else {
        return Ok(None);
    };
    let Some(quantum) = quantum(text(matches, "quantum")) else {
        return Ok(None);
    };
    let Some(memory) = memory(text(matches, "mem")) else {
        return Ok(None);
    };
    let image = text(matches, "image");
    let journal = text(matches, "journal");
    let Some(source) = source(alloc, image, journal, text(matches, "gen"), is_plain)? else {
        return Ok(None);
    };
    Ok(Some(Options {
        source,
        budget,
        quantum,
        memory,
        mode: if is_plain { Mode::Plain } else { Mode::Trace },
    }))
}

/// Reads the words of a command line, without the program's own name:
/// `IMAGE JOURNAL [--budget N] [--quantum Q] [--mem BYTES] [--plain]` or
/// `--gen SEED [--budget N] [--quantum Q] [--mem BYTES]`. None where the words are refused.
#[tactic(auto, unfolding(crate::specs::Accepted::accepted))]
pub fn read_options(alloc: Global, words: &Words) -> Result<Option<Options>, NoMemory>
    // The options are those of the words, and there are none exactly where the word rules refuse them.
    ensures { IfOk result (λ r. option_map settings_of r ≡ accepted words.now) }
{
    let texts = list(alloc, words)?;
    let Some(matches) = parse(alloc, texts.as_slice())? else {
        return Ok(None);
    };
    read(alloc, &matches)
}
