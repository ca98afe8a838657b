ghost use Rattle.std.specs.Prelude.{◌≡◌, IfOk, IfSome, is_some, map};
ghost use Rattle.clap.specs.Words.{found_of, rows_of};
ghost use Rattle.command_words.specs.Program.{is_taken, rows_given};

use crate::program::program;
use clap::ArgMatches;
use clap::error::ErrorKind;
use replay_io::Words;
use std::alloc::Global;
use thread_base::NoMemory;

/// The words as texts side by side.
pub fn list<'a>(alloc: Global, words: &'a Words) -> Result<Vec<&'a str>, NoMemory>
    ensures { IfOk result (λ texts. map (λ s. s.now) texts.items ≡ words.entry.now) }
{
    let mut texts = Vec::new(alloc);
    for i in 0..words.len() {
        if texts.push(words.word(i)).is_err() {
            return Err(NoMemory);
        }
    }
    Ok(texts)
}

/// The matches of the command; None where it refuses the words.
pub fn parse<'a>(alloc: Global, words: &'a [&'a str]) -> Result<Option<ArgMatches<'a>>, NoMemory>
    ensures taken { IfOk result (λ r. is_some r ≡ is_taken (map (λ s. s.now) words.entry.now)) }
    ensures rows { IfOk result (λ r. IfSome r (λ m. rows_of (found_of m) ≡ rows_given (map (λ s. s.now) words.entry.now))) }
{
    let Ok(command) = program(alloc) else {
        return Err(NoMemory);
    };
    match command.try_get_matches_from(words) {
        Ok(matches) => Ok(Some(matches)),
        Err(error) => match error.kind() {
            ErrorKind::OutOfMemory => Err(NoMemory),
            _ => Ok(None),
        },
    }
}
