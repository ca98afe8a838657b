ghost use Rattle.std.specs.Prelude.{◌≡◌, IfOk, false};
ghost use Rattle.clap.specs.Words.{app_of, rule_of};
ghost use Rattle.command_words.specs.Program.{flag_named, option_named, program};

use clap::{Arg, ArgAction, Command};
use std::alloc::{AllocError, Global};

/// An option `--name` with one text as its value.
fn option<'a>(alloc: Global, name: &'a str) -> Arg<'a>
    ensures rule { rule_of result ≡ option_named name.entry.now }
    ensures local { result.global ≡ false }
{
    Arg::new(alloc, name).long(name)
}

/// A flag `--name`.
fn flag<'a>(alloc: Global, name: &'a str) -> Arg<'a>
    ensures rule { rule_of result ≡ flag_named name.entry.now }
    ensures local { result.global ≡ false }
{
    option(alloc, name).action(ArgAction::SetTrue)
}

/// The command that reads the words. It has no flag `--steps`, so that word is refused: the exit path is not
/// made in steps yet, so a trace has no places within it to tell.
pub fn program<'a>(alloc: Global) -> Result<Command<'a>, AllocError>
    ensures { IfOk result (λ c. app_of c ≡ program) }
{
    let start = Command::new(alloc, "fsu_replay").no_binary_name(true);
    let image = start.arg(Arg::new(alloc, "image"))?;
    let journal = image.arg(Arg::new(alloc, "journal"))?;
    let budget = journal.arg(option(alloc, "budget"))?;
    let quantum = budget.arg(option(alloc, "quantum"))?;
    let memory = quantum.arg(option(alloc, "mem"))?;
    let seed = memory.arg(option(alloc, "gen"))?;
    seed.arg(flag(alloc, "plain"))
}
