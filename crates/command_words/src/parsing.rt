// The command line as `clap` has it: up to five words and the flags `--json` and `--faults`, with no help and no version.
ghost use Rattle.std.specs.Prelude.{◌≡◌, IfOk, IfErr, map, true};
ghost use Rattle.clap.specs.Words.{HasMatchesOf, app_of, kind_of, takes};
ghost use Rattle.command_words.specs.Parsed.{five_words, program};

use clap::error::ErrorKind;
use clap::{Arg, ArgAction, ArgMatches, Command, Error};
use std::alloc::{AllocError, Global};

/// A command line of up to five words.
fn five_words<'a>(alloc: Global) -> Result<Command<'a>, AllocError>
    ensures { IfOk result (λ c. app_of c ≡ five_words) }
{
    let word = Arg::new(alloc, "word");
    let first = Arg::new(alloc, "first");
    let second = Arg::new(alloc, "second");
    let third = Arg::new(alloc, "third");
    let fourth = Arg::new(alloc, "fourth");
    let bare = Command::new(alloc, "fronthaul")
        .no_binary_name(true)
        .disable_help_flag(true)
        .disable_version_flag(true);
    bare.arg(word)?
        .arg(first)?
        .arg(second)?
        .arg(third)?
        .arg(fourth)
}

/// The program's command line.
fn program<'a>(alloc: Global) -> Result<Command<'a>, AllocError>
    ensures { IfOk result (λ c. app_of c ≡ program) }
{
    let json = Arg::new(alloc, "json")
        .long("json")
        .action(ArgAction::SetTrue);
    let faults = Arg::new(alloc, "faults")
        .long("faults")
        .action(ArgAction::SetTrue);
    let words = five_words(alloc)?;
    words.arg(json)?.arg(faults)
}

/// What `clap` finds among the words. Words that the command line takes fail only for want of memory.
pub(crate) fn matches_in<'a>(alloc: Global, words: &'a [&'a str]) -> Result<ArgMatches<'a>, Error>
    ensures ok { IfOk result (HasMatchesOf program (map (λ w. w.now) words.entry.now)) }
    ensures err { IfErr result (λ e. takes program (map (λ w. w.now) words.entry.now) ≡ true
        → kind_of e ≡ ErrorKind.OutOfMemory) }
{
    let command = program(alloc)?;
    command.try_get_matches_from(words)
}
