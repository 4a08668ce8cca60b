// The top call.
ghost use Rattle.std.specs.Prelude.{◌≡◌, ◌⊎◌, map, string_bytes};
ghost use Rattle.swh_words.specs.Words.{Wanted, IsCommand, IsOffered, wanted_by};
ghost use Rattle.swh_program.specs.Commands.{Does, Comes, NeedsNoYard};
ghost use Rattle.swh_exit.specs.LeftAlone.{KeepsOthers, TouchesNothing};
ghost use Rattle.swh_exit.specs.Run.{IsStatus};
ghost use Rattle.swh_program.specs.Run.{IsNoCommand, NamesFailed, RefusesWords, TellsFailures};
ghost use Rattle.swh_exit.specs.declared.answer.Answer.TheVariants.{Words, Memory};

use crate::{Outside, Reading, Shown, init, read_archive};
use std::alloc::Global;
use swh_base::Namer;
use swh_exit::{Answer, tell};
use swh_identify::{identify, identify_folder};
use swh_outside::{Clock, Depot, Doors, Gate, Origins, Sink, Yard};
use swh_words::{Command, WordsFault, parse_words};

impl<N: Namer, P: Depot, O: Origins, Y: Yard, K: Sink, C: Clock, D: Doors, G: Gate> Outside<
    N,
    P,
    O,
    Y,
    K,
    C,
    D,
    G,
> {
    // What a command comes to.
    fn carry_out(&mut self, alloc: Global, command: &Command<'_>) -> Answer
        requires { IsOffered (wanted_by command.now) }
        ensures comes { Comes (wanted_by command.now) (⟦<Self as Shown>⟧.span self.old self.new) result }
        ensures yard { NeedsNoYard (wanted_by command.now) → self.new.yard ≡ self.old.yard }
        ensures same_sink { self.new.sink ≡ self.old.sink }
        ensures rest { KeepsOthers (⟦<Self as Shown>⟧.span self.old self.new) }
    {
        match command {
            Command::Init { dir } => init(&mut self.depot, dir),
            Command::Load { dir, jobs } => self.load(alloc, dir, jobs),
            Command::Ask { dir, paths } => {
                let reading = Reading::Ask {
                    paths: paths.as_slice(),
                };
                read_archive(
                    alloc,
                    self.namer,
                    &mut self.depot,
                    &mut self.yard,
                    dir,
                    &reading,
                )
            }
            Command::Check { dir } => read_archive(
                alloc,
                self.namer,
                &mut self.depot,
                &mut self.yard,
                dir,
                &Reading::Check,
            ),
            Command::Cook { dir, swhid, out } => self.cook(alloc, dir, swhid, out),
            Command::Identify { kind, path } => identify(
                alloc,
                &self.namer,
                &mut self.desk,
                *kind,
                path,
            ),
            Command::IdentifyFolder { path } => {
                identify_folder(alloc, &self.namer, &mut self.desk, path)
            }
        }
    }

    // What the words come to.
    fn obey(&mut self, alloc: Global, words: &[String]) -> Answer
        ensures refused { IsNoCommand (map string_bytes words.now) → (result ≡ Words) ⊎ (result ≡ Memory) }
        ensures untouched { IsNoCommand (map string_bytes words.now)
            → TouchesNothing (⟦<Self as Shown>⟧.span self.old self.new) }
        ensures comes { (wanted : Wanted) → IsCommand (map string_bytes words.now) wanted
            → Comes wanted (⟦<Self as Shown>⟧.span self.old self.new) result }
        ensures named { NamesFailed (⟦<Self as Shown>⟧.span self.old self.new) result }
        ensures yard { (wanted : Wanted) → IsCommand (map string_bytes words.now) wanted → NeedsNoYard wanted
            → self.new.yard ≡ self.old.yard }
        ensures same_sink { self.new.sink ≡ self.old.sink }
        ensures rest { KeepsOthers (⟦<Self as Shown>⟧.span self.old self.new) }
    {
        match parse_words(alloc, words) {
            Ok(command) => self.carry_out(alloc, &command),
            Err(WordsFault::Words) => Answer::Words,
            Err(WordsFault::Memory) => Answer::Memory,
        }
    }
}

/// Does what the words say, prints what came of it, and gives the status: 0 done, 1 found wanting, 2 the words or the
/// job file are refused, 3 the archive is not as it has to be, 4 a part of the outside failed, 5 memory ran out.
/// Everything opened is given back.
pub fn run<R, N: Namer, P: Depot, O: Origins, Y: Yard, K: Sink, C: Clock, D: Doors, G: Gate>(
    _rt: &R,
    alloc: Global,
    words: &[String],
    world: &mut Outside<N, P, O, Y, K, C, D, G>,
) -> u8
    ensures status { IsStatus result }

    // Words that are no command are told, and touch nothing.
    ensures refused { IsNoCommand (map string_bytes words.now)
        → RefusesWords (⟦<Outside<N, P, O, Y, K, C, D, G> as Shown>⟧.span world.old world.new) result }

    // A command does what its record says: its answer is told, and 0, 1, 2 and 3 come exactly of their causes.
    ensures does { (wanted : Wanted) → IsCommand (map string_bytes words.now) wanted
        → Does wanted (⟦<Outside<N, P, O, Y, K, C, D, G> as Shown>⟧.span world.old world.new) result }

    // 4: a part of the outside failed, and where a line names one, that one.
    ensures failures { TellsFailures (⟦<Outside<N, P, O, Y, K, C, D, G> as Shown>⟧.span world.old world.new) result }

    // What no command has a use for is as it was, and no count of faults falls; the yard is as it was too, but for `cook`.
    ensures rest { KeepsOthers (⟦<Outside<N, P, O, Y, K, C, D, G> as Shown>⟧.span world.old world.new) }
    ensures yard { (wanted : Wanted) → IsCommand (map string_bytes words.now) wanted → NeedsNoYard wanted
        → world.new.yard ≡ world.old.yard }
{
    let answer = world.obey(alloc, words);
    tell(&mut world.sink, &answer)
}
