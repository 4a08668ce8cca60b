// The command `identify dir`.
ghost use Rattle.std.specs.Prelude.{◌≡◌, ◌≤◌, ℕ, IfOk};
ghost use Rattle.swh_outside.specs.Faults.{Rose};
ghost use Rattle.swh_dirload.specs.declared.fault.DirFault.TheVariants.{ReadFault as NotRead};
ghost use Rattle.swh_dirload.specs.May.{IsAbovePlain, MayRefusePlain};
ghost use Rattle.swh_exit.specs.Answers.{TellsLine};
ghost use Rattle.swh_identify.specs.IdentifyFolderCommand.{
  other_line,
  limit_line,
  AnswersFault,
  FolderEnds,
  IsFolderAnswer,
};
ghost use Rattle.swh_exit.specs.declared.answer.Ending.TheVariants as ending;
ghost use Rattle.swh_exit.specs.declared.answer.Answer.TheVariants.{OutsideFolder};

use crate::identify_command::{tell_name, tell_refusal};
use std::alloc::Global;
use swh_base::{Bytes, Kind, Memory, Name, Namer, Which, escape};
use swh_dirload::{DirFault, name_folder};
use swh_exit::{Answer, Ending, Text};
use swh_outside::{Opened, Origins};

// What is printed of an item that is neither file nor folder.
fn other_line(alloc: Global, path: &[u8]) -> Result<Bytes, Memory>
    ensures { IfOk result (λ line. line ≡ other_line path.now) }
{
    let escaped = escape(alloc, path)?;
    let mut line = Vec::new(alloc);
    line.extend_from_slice(b"swharc: other ")?;
    line.extend_from_slice(escaped.as_bytes())?;
    line.push(b'\n')?;
    Ok(Bytes::from_vec(line))
}

// What is printed of a limit that a folder passes.
fn limit_line(which: Which) -> &'static [u8]
    requires { (number : ℕ) × IsAbovePlain which number }
    ensures { result.now ≡ limit_line which }
{
    match which {
        Which::Body => b"swharc: limit body\n".as_slice(),
        Which::Stream => b"swharc: limit stream\n".as_slice(),
        Which::Path => b"swharc: limit path\n".as_slice(),
        Which::Objects
        | Which::Bytes
        | Which::Store
        | Which::Ledger
        | Which::Line
        | Which::Ref
        | Which::Refs => unreachable!(),
    }
}

// The answer that tells an item that is neither file nor folder.
fn tell_other(alloc: Global, path: &[u8]) -> Answer
    ensures { TellsLine (other_line path.now) ending.Wanting result }
{
    match other_line(alloc, path) {
        Ok(line) => Answer::Told {
            text: Text::of(alloc, line),
            ending: Ending::Wanting,
        },
        Err(_) => Answer::Memory,
    }
}

// The answer that tells why there is no directory.
fn tell_fault(alloc: Global, fault: &DirFault) -> Answer
    requires { MayRefusePlain fault.now }
    ensures answers { AnswersFault fault.now result }
    ensures failed { fault.now ≡ NotRead → result ≡ OutsideFolder }
{
    match fault {
        DirFault::OtherKind { path } => tell_other(alloc, path.as_slice()),
        DirFault::BadModes { line: _ } => unreachable!(),
        DirFault::Limit { which, number: _ } => tell_refusal(alloc, limit_line(*which)),
        DirFault::ReadFault => Answer::OutsideFolder,
        DirFault::Memory => Answer::Memory,
    }
}

/// Names the folder at a path, which has no listing, as a directory.
pub fn identify_folder<N: Namer, O: Origins>(
    alloc: Global,
    namer: &N,
    desk: &mut O,
    path: &str,
) -> Answer
    ensures one_of { IsFolderAnswer N.id_of result }
    ensures ends { O.tells → FolderEnds N.id_of (O.folder_at desk.old path.now) result }
    ensures later { O.faults desk.old ≤ O.faults desk.new }
    // Nothing fails unheard.
    ensures quiet { (result ≡ OutsideFolder → ⊥) → O.faults desk.new ≡ O.faults desk.old }
    ensures cause { result ≡ OutsideFolder → Rose (O.faults desk.old) (O.faults desk.new) }
{
    let mut folder = match desk.folder(path) {
        Opened::Found(folder) => folder,
        Opened::NotFound => return tell_refusal(alloc, b"swharc: not found\n"),
        Opened::Failed => return Answer::OutsideFolder,
        Opened::Memory => return Answer::Memory,
    };
    let named = name_folder(alloc, namer, &mut folder);
    desk.back_folder(folder);
    match named {
        Ok(id) => {
            let kind = Kind::Directory;
            tell_name(alloc, &Name { kind, id })
        }
        Err(fault) => tell_fault(alloc, &fault),
    }
}
