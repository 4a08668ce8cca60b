//! Which command words are.
ghost use Rattle.std.specs.Prelude.{
  ◌≡◌,
  List,
  [],
  IfSome,
  IfOk,
  IfErr,
  IsSomeAnd,
  None,
  map,
  codes,
  option_map,
  string_bytes,
};
ghost use Rattle.clap.specs.Words.{all_of, first_of, found_of, rows_of, subcommand_rows_of};
ghost use Rattle.swh_words.specs.Words.{Wanted, IsCommand, AsksFor, wanted_by};
ghost use Rattle.swh_base.specs.Kind.{kind_letters};
ghost use Rattle.swh_words.specs.Commands.{Answers};
ghost use Rattle.swh_words.specs.Spelling.{IsNoKind};
ghost use Rattle.swh_words.specs.declared.command.WordsFault.TheVariants.{Words};

use crate::definition::program;
use crate::{Command, WordsFault};
use clap::ArgMatches;
use clap::error::ErrorKind;
use std::alloc::{AllocError, Global};
use swh_base::Kind;

// The kind of these letters.
fn kind_of(letters: &str) -> Option<Kind>
    ensures some { IfSome result (λ kind. letters.now ≡ kind_letters kind) }
    ensures none { result ≡ None → IsNoKind letters.now }
{
    if letters == "cnt" {
        Some(Kind::Content)
    } else if letters == "dir" {
        Some(Kind::Directory)
    } else if letters == "rev" {
        Some(Kind::Revision)
    } else if letters == "rel" {
        Some(Kind::Release)
    } else if letters == "snp" {
        Some(Kind::Snapshot)
    } else {
        None
    }
}

// The value of a name.
fn value_of<'a>(values: &ArgMatches<'a>, name: &str) -> Option<&'a str>
    ensures { option_map (λ v. v.now) result ≡ first_of name.now (rows_of (found_of values.now)) }
{
    values.get_str(name)
}

// The values of a name, in their order.
fn values_of<'a>(
    alloc: Global,
    values: &ArgMatches<'a>,
    name: &str,
) -> Result<Option<Vec<&'a str>>, AllocError>
    ensures { IfOk result (λ found. option_map (λ v. map (λ value. value.now) v.items) found
        ≡ all_of name.now (rows_of (found_of values.now))) }
{
    match values.get_strs(name) {
        Some(texts) => Ok(Some(texts.to_vec(alloc)?)),
        None => Ok(None),
    }
}

fn init_of<'a>(values: &ArgMatches<'a>) -> Result<Command<'a>, WordsFault>
    ensures { Answers (AsksFor (codes "init", rows_of (found_of values.now))) result }
{
    let Some(dir) = value_of(values, "dir") else {
        return Err(WordsFault::Words);
    };
    Ok(Command::Init { dir })
}

fn load_of<'a>(values: &ArgMatches<'a>) -> Result<Command<'a>, WordsFault>
    ensures { Answers (AsksFor (codes "load", rows_of (found_of values.now))) result }
{
    let Some(dir) = value_of(values, "dir") else {
        return Err(WordsFault::Words);
    };
    let Some(jobs) = value_of(values, "jobs") else {
        return Err(WordsFault::Words);
    };
    Ok(Command::Load { dir, jobs })
}

fn ask_of<'a>(alloc: Global, values: &ArgMatches<'a>) -> Result<Command<'a>, WordsFault>
    ensures { Answers (AsksFor (codes "ask", rows_of (found_of values.now))) result }
{
    let Some(dir) = value_of(values, "dir") else {
        return Err(WordsFault::Words);
    };
    let Some(paths) = values_of(alloc, values, "path")? else {
        return Err(WordsFault::Words);
    };
    if paths.is_empty() {
        return Err(WordsFault::Words);
    }
    Ok(Command::Ask { dir, paths })
}

fn check_of<'a>(values: &ArgMatches<'a>) -> Result<Command<'a>, WordsFault>
    ensures { Answers (AsksFor (codes "check", rows_of (found_of values.now))) result }
{
    let Some(dir) = value_of(values, "dir") else {
        return Err(WordsFault::Words);
    };
    Ok(Command::Check { dir })
}

fn cook_of<'a>(values: &ArgMatches<'a>) -> Result<Command<'a>, WordsFault>
    ensures { Answers (AsksFor (codes "cook", rows_of (found_of values.now))) result }
{
    let Some(dir) = value_of(values, "dir") else {
        return Err(WordsFault::Words);
    };
    let Some(swhid) = value_of(values, "swhid") else {
        return Err(WordsFault::Words);
    };
    let Some(out) = value_of(values, "out") else {
        return Err(WordsFault::Words);
    };
    Ok(Command::Cook { dir, swhid, out })
}

fn identify_of<'a>(values: &ArgMatches<'a>) -> Result<Command<'a>, WordsFault>
    ensures { Answers (AsksFor (codes "identify", rows_of (found_of values.now))) result }
{
    let Some(letters) = value_of(values, "kind") else {
        return Err(WordsFault::Words);
    };
    let Some(path) = value_of(values, "path") else {
        return Err(WordsFault::Words);
    };
    let Some(kind) = kind_of(letters) else {
        return Err(WordsFault::Words);
    };
    if kind == Kind::Directory {
        Ok(Command::IdentifyFolder { path })
    } else {
        Ok(Command::Identify { kind, path })
    }
}

// The command of a subcommand's name and values.
fn command_of<'a>(
    alloc: Global,
    name: &str,
    values: &ArgMatches<'a>,
) -> Result<Command<'a>, WordsFault>
    ensures { Answers (AsksFor (name.now, rows_of (found_of values.now))) result }
{
    if name == "init" {
        init_of(values)
    } else if name == "load" {
        load_of(values)
    } else if name == "ask" {
        ask_of(alloc, values)
    } else if name == "check" {
        check_of(values)
    } else if name == "cook" {
        cook_of(values)
    } else if name == "identify" {
        identify_of(values)
    } else {
        Err(WordsFault::Words)
    }
}

// The command of what clap gives.
fn command_given<'a>(alloc: Global, matches: &ArgMatches<'a>) -> Result<Command<'a>, WordsFault>
    ensures { Answers (λ wanted. IsSomeAnd (subcommand_rows_of matches.now) (λ given. AsksFor given wanted)) result }
{
    match matches.subcommand() {
        Some((name, values)) => command_of(alloc, name, values),
        None => Err(WordsFault::Words),
    }
}

/// The command that the words are, which are those after the program's name. Its texts are the words' own. Fails with
/// `Words` where the words are no command, or where memory runs out.
pub fn parse_words<'a>(alloc: Global, words: &'a [String]) -> Result<Command<'a>, WordsFault>
    ensures ok { IfOk result (λ command. IsCommand (map string_bytes words.now) (wanted_by command)) }
    ensures err { IfErr result (λ fault. fault ≡ Words → (wanted : Wanted)
        → IsCommand (map string_bytes words.now) wanted → ⊥) }
{
    let program = program(alloc)?;
    match program.try_get_matches_from(words) {
        Ok(matches) => command_given(alloc, &matches),
        Err(error) if error.kind() == ErrorKind::OutOfMemory => Err(WordsFault::Memory),
        Err(_error) => Err(WordsFault::Words),
    }
}
