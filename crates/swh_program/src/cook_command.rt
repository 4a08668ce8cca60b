// The command `cook`.
ghost use Rattle.std.specs.Prelude.{◌≡◌, ◌≢◌, ◌≤◌, IfOk, map, string_bytes};
ghost use Rattle.swh_outside.specs.Faults.{Rose};
ghost use Rattle.swh_dircook.specs.Made.{yarded};
ghost use Rattle.swh_replay.specs.Replay.{archive_of};
ghost use Rattle.swh_exit.specs.Answers.{TellsLine};
ghost use Rattle.swh_program.specs.CookCommand.{
  cook_line,
  not_held_line,
  uncarried_line,
  no_swhid_line,
  TellsUncooked,
  cooking,
  LeavesYard,
  Cooks,
};
ghost use Rattle.swh_exit.specs.Damage.{IsUndamaged};
ghost use Rattle.swh_exit.specs.LeftAlone.{KeepsOthers};
ghost use Rattle.swh_program.specs.Reading.{IsOfArchive};
ghost use Rattle.swh_program.specs.Yards.{yards};
ghost use Rattle.swh_exit.specs.declared.answer.Ending.TheVariants as ending;
ghost use Rattle.swh_exit.specs.declared.answer.Answer.TheVariants.{OutsideDisk};

use crate::outside::{Outside, Shown};
use crate::reading::{Reading, read_archive};
use itoa::Buffer;
use std::alloc::Global;
use swh_base::{Bytes, Memory, Name, Namer};
use swh_carried::{CookFault, Why, why_word};
use swh_cook::cook_name;
use swh_exit::{Answer, Ending, Text};
use swh_model::Look;
use swh_outside::{Clock, Depot, Doors, Gate, Origins, Sink, Yard};
use swh_replay::Replayed;
use swh_swhid::{SwhidFault, core_text, parse};

// What is printed of a name that was cooked.
fn cook_line(alloc: Global, name: &Name, head: &Option<Bytes>) -> Result<Bytes, Memory>
    ensures { IfOk result (λ line. line ≡ cook_line name.now head.now) }
{
    let mut text = [0; 50];
    core_text(name, &mut text);
    let mut line = Vec::new(alloc);
    line.extend_from_slice(&text)?;
    line.push(b'\t')?;
    match head {
        Some(head) => line.extend_from_slice(head.as_slice())?,
        None => line.push(b'-')?,
    }
    line.push(b'\n')?;
    Ok(Bytes::from_vec(line))
}

// What is printed of a name that is not held.
fn not_held_line(alloc: Global, name: &Name) -> Result<Bytes, Memory>
    ensures { IfOk result (λ line. line ≡ not_held_line name.now) }
{
    let mut text = [0; 50];
    core_text(name, &mut text);
    let mut line = Vec::new(alloc);
    line.extend_from_slice(b"swharc: not held ")?;
    line.extend_from_slice(&text)?;
    line.push(b'\n')?;
    Ok(Bytes::from_vec(line))
}

// What is printed of an object that is not carried.
fn uncarried_line(alloc: Global, name: &Name, why: Why) -> Result<Bytes, Memory>
    ensures { IfOk result (λ line. line ≡ uncarried_line name.now why) }
{
    let mut text = [0; 50];
    core_text(name, &mut text);
    let mut line = Vec::new(alloc);
    line.extend_from_slice(b"swharc: uncarried ")?;
    line.extend_from_slice(&text)?;
    line.push(b' ')?;
    line.extend_from_slice(why_word(why).as_bytes())?;
    line.push(b'\n')?;
    Ok(Bytes::from_vec(line))
}

// What is printed of a word that is no SWHID.
fn no_swhid_line(alloc: Global, at: u64) -> Result<Bytes, Memory>
    ensures { IfOk result (λ line. line ≡ no_swhid_line at) }
{
    let mut digits = Buffer::new();
    let mut line = Vec::new(alloc);
    line.extend_from_slice(b"swharc: no swhid ")?;
    line.extend_from_slice(digits.format(at).as_bytes())?;
    line.push(b'\n')?;
    Ok(Bytes::from_vec(line))
}

// The answer that tells a name that was cooked.
fn tell_cooked(alloc: Global, name: &Name, head: &Option<Bytes>) -> Answer
    ensures { TellsLine (cook_line name.now head.now) ending.Done result }
{
    match cook_line(alloc, name, head) {
        Ok(line) => Answer::Told {
            text: Text::of(alloc, line),
            ending: Ending::Done,
        },
        Err(_) => Answer::Memory,
    }
}

// The answer that tells a name that is not held.
fn tell_not_held(alloc: Global, name: &Name) -> Answer
    ensures { TellsLine (not_held_line name.now) ending.Wanting result }
{
    match not_held_line(alloc, name) {
        Ok(line) => Answer::Told {
            text: Text::of(alloc, line),
            ending: Ending::Wanting,
        },
        Err(_) => Answer::Memory,
    }
}

// The answer that tells an object that is not carried.
fn tell_uncarried(alloc: Global, name: &Name, why: Why) -> Answer
    ensures { TellsLine (uncarried_line name.now why) ending.Wanting result }
{
    match uncarried_line(alloc, name, why) {
        Ok(line) => Answer::Told {
            text: Text::of(alloc, line),
            ending: Ending::Wanting,
        },
        Err(_) => Answer::Memory,
    }
}

// The answer that tells a word that is no SWHID.
fn tell_no_swhid(alloc: Global, at: u64) -> Answer
    ensures { TellsLine (no_swhid_line at) ending.Wanting result }
{
    match no_swhid_line(alloc, at) {
        Ok(line) => Answer::Told {
            text: Text::of(alloc, line),
            ending: Ending::Wanting,
        },
        Err(_) => Answer::Memory,
    }
}

// The answer that tells why a name was not cooked.
fn tell_uncooked(alloc: Global, fault: CookFault) -> Answer
    ensures { TellsUncooked fault result }
{
    match fault {
        CookFault::NotHeld { name } => tell_not_held(alloc, &name),
        CookFault::Uncarried { name, why } => tell_uncarried(alloc, &name, why),
        CookFault::WriteFault => Answer::OutsideYard,
        CookFault::Memory => Answer::Memory,
    }
}

/// Cooks a name of an archive into the yard, at the path `out`, and tells what came of it.
pub fn tell_cook<Y: Yard>(
    alloc: Global,
    replayed: &Replayed,
    name: Name,
    yard: &mut Y,
    out: &str,
) -> Answer
    ensures told { IsOfArchive (cooking (yards Y.Sink.tells (yarded (Y.Sink.begun yard.old) (Y.Sink.taken yard.old))
        (yarded (Y.Sink.begun yard.new) (Y.Sink.taken yard.new)) (yard.new ≡ yard.old)
        (Rose (Y.Sink.faults yard.old) (Y.Sink.faults yard.new))) name out.now) (archive_of replayed.now) result }
    ensures leaves { LeavesYard (yards Y.Sink.tells (yarded (Y.Sink.begun yard.old) (Y.Sink.taken yard.old))
        (yarded (Y.Sink.begun yard.new) (Y.Sink.taken yard.new)) (yard.new ≡ yard.old)
        (Rose (Y.Sink.faults yard.old) (Y.Sink.faults yard.new))) (archive_of replayed.now) name out.now result }
    ensures undamaged { IsUndamaged result }
    ensures inside { result ≢ OutsideDisk }
    ensures later { Y.Sink.faults yard.old ≤ Y.Sink.faults yard.new }
{
    replayed.is_graph();
    match cook_name(alloc, replayed, name, yard, out) {
        Ok(head) => tell_cooked(alloc, &name, &head),
        Err(fault) => tell_uncooked(alloc, fault),
    }
}

impl<N: Namer, P: Depot, O: Origins, Y: Yard, K: Sink, C: Clock, D: Doors, G: Gate> Outside<
    N,
    P,
    O,
    Y,
    K,
    C,
    D,
    G,
> {
    /// Cooks the name of a SWHID, which the archive in a folder holds, into the yard, at a path. The SWHID is read first;
    /// then the archive is opened.
    pub fn cook(&mut self, alloc: Global, dir: &str, swhid: &str, out: &str) -> Answer
        ensures cooks { Cooks dir.now swhid.now out.now (⟦<Self as Shown>⟧.span self.old self.new) result }
        ensures same_sink { self.new.sink ≡ self.old.sink }
        ensures rest { KeepsOthers (⟦<Self as Shown>⟧.span self.old self.new) }
    {
        let name = match parse(alloc, swhid.as_bytes()) {
            Ok(swhid) => swhid.core,
            Err(SwhidFault::BadText { at }) => return tell_no_swhid(alloc, at),
            Err(SwhidFault::Memory) => return Answer::Memory,
        };
        let reading = Reading::Cook { name, out };
        read_archive(
            alloc,
            self.namer,
            &mut self.depot,
            &mut self.yard,
            dir,
            &reading,
        )
    }
}
