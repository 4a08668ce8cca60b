//! The program's definition for clap.
ghost use Rattle.std.specs.Prelude.{◌≡◌, IfOk, false};
ghost use Rattle.clap.specs.Words.{rule_of};
ghost use Rattle.swh_words.specs.Definition.{
  IsDefinedAs,
  one_word,
  some_words,
  init_app,
  load_app,
  ask_app,
  check_app,
  cook_app,
  identify_app,
  bare_app,
  program_app,
};
ghost use Rattle.clap.specs.Words.{new_app};
ghost use Rattle.std.specs.Prelude.{codes};

use clap::{Arg, Command};
use std::alloc::{AllocError, Global};

// A word that has to be there.
fn one_word<'a>(alloc: Global, name: &'a str) -> Arg<'a>
    ensures rule { rule_of result ≡ one_word name.entry.now }
    ensures local { result.global ≡ false }
{
    Arg::new(alloc, name).required(true)
}

// One word or more.
fn some_words<'a>(alloc: Global, name: &'a str) -> Arg<'a>
    ensures rule { rule_of result ≡ some_words name.entry.now }
    ensures local { result.global ≡ false }
{
    one_word(alloc, name).num_args(1..)
}

fn init_command<'a>(alloc: Global) -> Result<Command<'a>, AllocError>
    ensures { IfOk result (IsDefinedAs init_app) }
{
    Command::new(alloc, "init").arg(one_word(alloc, "dir"))
}

fn load_command<'a>(alloc: Global) -> Result<Command<'a>, AllocError>
    ensures { IfOk result (IsDefinedAs load_app) }
{
    Command::new(alloc, "load")
        .arg(one_word(alloc, "dir"))?
        .arg(one_word(alloc, "jobs"))
}

fn ask_command<'a>(alloc: Global) -> Result<Command<'a>, AllocError>
    ensures { IfOk result (IsDefinedAs ask_app) }
{
    Command::new(alloc, "ask")
        .arg(one_word(alloc, "dir"))?
        .arg(some_words(alloc, "path"))
}

fn check_command<'a>(alloc: Global) -> Result<Command<'a>, AllocError>
    ensures { IfOk result (IsDefinedAs check_app) }
{
    Command::new(alloc, "check").arg(one_word(alloc, "dir"))
}

fn cook_command<'a>(alloc: Global) -> Result<Command<'a>, AllocError>
    ensures { IfOk result (IsDefinedAs cook_app) }
{
    Command::new(alloc, "cook")
        .arg(one_word(alloc, "dir"))?
        .arg(one_word(alloc, "swhid"))?
        .arg(one_word(alloc, "out"))
}

fn identify_command<'a>(alloc: Global) -> Result<Command<'a>, AllocError>
    ensures { IfOk result (IsDefinedAs identify_app) }
{
    Command::new(alloc, "identify")
        .arg(one_word(alloc, "kind"))?
        .arg(one_word(alloc, "path"))
}

// A program with no subcommand yet, whose words begin with one, and that has no help and no version.
fn bare_command<'a>(alloc: Global) -> Command<'a>
    ensures { IsDefinedAs (bare_app (new_app (codes "swharc"))) result }
{
    Command::new(alloc, "swharc")
        .no_binary_name(true)
        .disable_help_flag(true)
        .disable_help_subcommand(true)
        .disable_version_flag(true)
        .subcommand_required(true)
}

/// The program's definition for clap: `init`, `load`, `ask`, `check`, `cook` and `identify`, with their words.
/// Fails where memory runs out.
pub fn program<'a>(alloc: Global) -> Result<Command<'a>, AllocError>
    ensures { IfOk result (IsDefinedAs program_app) }
{
    bare_command(alloc)
        .subcommand(init_command(alloc)?)?
        .subcommand(load_command(alloc)?)?
        .subcommand(ask_command(alloc)?)?
        .subcommand(check_command(alloc)?)?
        .subcommand(cook_command(alloc)?)?
        .subcommand(identify_command(alloc)?)
}
