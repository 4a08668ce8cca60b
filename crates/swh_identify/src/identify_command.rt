// The command `identify`.
ghost use Rattle.std.specs.Prelude.{◌≡◌, ◌≢◌, ◌+◌, ◌<◌, ◌≤◌, ℕ, List, Some, IfOk, IsErrOf, length, codes};
ghost use Rattle.swh_fastlex.specs.ReadOn.{IsQuietBut};
ghost use Rattle.swh_fastlex.specs.Whole.{IsAllThatWasLeft, GivesAtMost};
ghost use Rattle.swh_fastlex.specs.declared.fault.SourceFault.TheVariants.{Failed, Limit};
ghost use Rattle.swh_exit.specs.Refusal.{refusal};
ghost use Rattle.swh_base.specs.declared.kind.Kind.TheVariants.{Directory};
ghost use Rattle.swh_outside.specs.Faults.{Rose};
ghost use Rattle.swh_exit.specs.Answers.{TellsLine};
ghost use Rattle.swh_identify.specs.IdentifyCommand.{
  name_of_bytes,
  name_line,
  bad_line,
  IsBody,
  IsIdentifyAnswer,
  IdentifyEnds,
};
ghost use Rattle.swh_exit.specs.Run.{IsQuiet};
ghost use Rattle.swh_exit.specs.declared.answer.Ending.TheVariants as ending;
ghost use Rattle.swh_exit.specs.declared.answer.Answer.TheVariants.{OutsideSource};

use itoa::Buffer;
use std::alloc::Global;
use swh_base::{BODY_LIMIT, Bytes, Kind, Memory, Name, Namer};
use swh_exit::{Answer, Ending, Text};
use swh_fastlex::{SourceFault, read_source_reserved};
use swh_object::{Object, ObjectFault};
use swh_outside::{Opened, Origins, Source};
use swh_swhid::core_text;

// A name as it is printed.
fn name_line(alloc: Global, name: &Name) -> Result<Bytes, Memory>
    ensures { IfOk result (λ line. line ≡ name_line name.now) }
{
    let mut text = [0; 50];
    core_text(name, &mut text);
    let mut line = Vec::new(alloc);
    line.extend_from_slice(&text)?;
    line.push(b'\n')?;
    Ok(Bytes::from_vec(line))
}

// What is printed of bytes that are no body of this kind.
fn bad_line(alloc: Global, kind: Kind, at: u64) -> Result<Bytes, Memory>
    ensures { IfOk result (λ line. line ≡ bad_line kind at) }
{
    let mut digits = Buffer::new();
    let mut line = Vec::new(alloc);
    line.extend_from_slice(b"swharc: bad ")?;
    line.extend_from_slice(kind.letters())?;
    line.push(b' ')?;
    line.extend_from_slice(digits.format(at).as_bytes())?;
    line.push(b'\n')?;
    Ok(Bytes::from_vec(line))
}

/// The answer that tells a name.
pub fn tell_name(alloc: Global, name: &Name) -> Answer
    ensures { TellsLine (name_line name.now) ending.Done result }
{
    match name_line(alloc, name) {
        Ok(line) => Answer::Told {
            text: Text::of(alloc, line),
            ending: Ending::Done,
        },
        Err(_) => Answer::Memory,
    }
}

// The answer that tells where bytes are no body of this kind.
fn tell_bad(alloc: Global, kind: Kind, at: u64) -> Answer
    ensures { TellsLine (bad_line kind at) ending.Wanting result }
{
    match bad_line(alloc, kind, at) {
        Ok(line) => Answer::Told {
            text: Text::of(alloc, line),
            ending: Ending::Wanting,
        },
        Err(_) => Answer::Memory,
    }
}

/// The answer that tells why there is no name.
pub fn tell_refusal(alloc: Global, line: &[u8]) -> Answer
    ensures { TellsLine line.now ending.Wanting result }
{
    match Bytes::from_slice(alloc, line) {
        Ok(line) => Answer::Told {
            text: Text::of(alloc, line),
            ending: Ending::Wanting,
        },
        Err(_) => Answer::Memory,
    }
}

// What is told of a file that is longer than a body may be.
fn tell_limit(alloc: Global) -> Answer
    ensures { TellsLine (refusal (codes "limit body")) ending.Wanting result }
{
    tell_refusal(alloc, b"swharc: limit body\n")
}

// What bytes come to as a body of this kind.
fn name_bytes<N: Namer>(alloc: Global, namer: &N, kind: Kind, bytes: Vec<u8>) -> Answer
    ensures ends { IdentifyEnds N.id_of kind (Some bytes.items) result }
    ensures inside { result ≢ OutsideSource }
{
    match Object::make(alloc, namer, kind, bytes) {
        Ok(object) => tell_name(alloc, &object.name()),
        Err(ObjectFault::BadBody { at }) => tell_bad(alloc, kind, at),
        Err(ObjectFault::TooLong { .. }) => tell_limit(alloc),
        Err(ObjectFault::Memory) => Answer::Memory,
    }
}

// The bytes of a source that may be a body. No more than one byte above the limit is taken.
fn read_body<S: Source>(alloc: Global, source: &mut S) -> Result<Vec<u8>, SourceFault>
    ensures whole { S.tells → IfOk result (λ bytes. IsAllThatWasLeft (S.left source.old)
        (S.left source.new) bytes.items) }
    ensures within { IfOk result (λ bytes. length bytes.items ≤ BODY_LIMIT) }
    ensures over { S.tells → IsErrOf result Limit → BODY_LIMIT < length (S.left source.old) }
    ensures given { S.tells → GivesAtMost (S.given source.old) (S.given source.new) (BODY_LIMIT + 1) }
    ensures same_path { S.path source.new ≡ S.path source.old }
    ensures later { S.faults source.old ≤ S.faults source.new }
    ensures quiet { IsQuietBut (S.faults source.old) (S.faults source.new) Failed result }
    ensures cause { IsErrOf result Failed → Rose (S.faults source.old) (S.faults source.new) }
{
    read_source_reserved(alloc, source, BODY_LIMIT as usize)
}

/// Names the bytes of the file at a path as a body of this kind. A file of more bytes than a body may have is read no
/// further than one byte above them.
pub fn identify<N: Namer, O: Origins>(
    alloc: Global,
    namer: &N,
    desk: &mut O,
    kind: Kind,
    path: &str,
) -> Answer
    requires { kind ≢ Directory }
    ensures one_of { IsIdentifyAnswer N.id_of kind result }
    ensures ends { O.tells → IdentifyEnds N.id_of kind (O.file_at desk.old path.now) result }
    ensures later { O.faults desk.old ≤ O.faults desk.new }
    // Nothing fails unheard: behind a limit, too, nothing is read whose failure would not be told.
    ensures quiet { (result ≡ OutsideSource → ⊥) → O.faults desk.new ≡ O.faults desk.old }
    ensures cause { result ≡ OutsideSource → Rose (O.faults desk.old) (O.faults desk.new) }

    // A body of its kind is named, unless memory runs out, where the desk did not fail.
    ensures complete { (bytes : List ℕ) → O.tells → O.file_at desk.old path.now ≡ Some bytes → IsBody kind bytes
        → IsQuiet (O.faults desk.old) (O.faults desk.new)
        → TellsLine (name_line (name_of_bytes N.id_of kind bytes)) ending.Done result }
{
    let mut source = match desk.file(path) {
        Opened::Found(source) => source,
        Opened::NotFound => return tell_refusal(alloc, b"swharc: not found\n"),
        Opened::Failed => return Answer::OutsideSource,
        Opened::Memory => return Answer::Memory,
    };
    let read = read_body(alloc, &mut source);
    desk.back(source);
    match read {
        Ok(bytes) => name_bytes(alloc, namer, kind, bytes),
        Err(SourceFault::Failed) => Answer::OutsideSource,
        Err(SourceFault::Limit) => tell_limit(alloc),
        Err(SourceFault::Memory) => Answer::Memory,
    }
}
