//! An input, read and made at once (git-fast-import(1), input format and commands).
ghost use Rattle.std.specs.Prelude.{◌≡◌, ◌≤◌, ◌++◌, ℕ, List, [], IfOk, IfErr, IfSome};
ghost use Rattle.std.specs.Option.{option_copied};
ghost use Rattle.swh_base.specs.Text.{IsRef};
ghost use Rattle.swh_outside.specs.Views.{sources};
ghost use Rattle.swh_fastlex.specs.ReadOn.{IsQuietBut};
ghost use Rattle.swh_fastload.specs.declared.bad.InputFault.TheVariants.{ReadFault as SourceFailed};
ghost use Rattle.swh_fastload.specs.Giving.{AreWholeAndNew, BreaksOff, EndsStream, GoesOn};
ghost use Rattle.swh_fastload.specs.Loaded.{making_of};
ghost use Rattle.swh_fastload.specs.Reading.{ReadsUpTo};
ghost use Rattle.swh_fastload.specs.Input.{Means};
ghost use Rattle.swh_fastload.specs.Sourced.{MeansLeft, ExplainsSource};
ghost use Rattle.swh_dedup.specs.Giving.{AreNew};
ghost use Rattle.swh_dedup.specs.Whole.{HasAllThatIsReached};

use crate::bad::InputFault;
use crate::parts::{StreamPart, StreamParts};
use std::alloc::Global;
use swh_base::{Memory, Namer};
use swh_dedup::Objects;
use swh_fastlex::Window;
use swh_fastread::Lent;
use swh_object::Object;
use swh_outside::Source;

/// All objects, with the last ones behind them.
fn with_last<N: Namer>(objects: Vec<Object<N>>, last: Objects<N>) -> Result<Objects<N>, Memory>
    ensures objects { IfOk result (λ all. all.objects.items ≡ objects.items ++ last.objects.items) }
    ensures snapshot { IfOk result (λ all. all.snapshot ≡ last.snapshot) }
{
    let Objects {
        objects: mut more,
        snapshot,
    } = last;
    let mut objects = objects;
    objects.append(&mut more)?;
    Ok(Objects { objects, snapshot })
}

/// The objects of all parts of a stream, in the order in which they are given.
fn load_all<N: Namer, S: Source>(
    alloc: Global,
    parts: &mut StreamParts<N, S>,
    head: Option<&[u8]>,
) -> Result<Objects<N>, InputFault>
    requires { IfSome (option_copied head) IsRef }
    ensures given { (text : List ℕ) (faults : ℕ) (path : List ℕ)
        → GoesOn N.id_of S.tells text faults path [] parts.old
        → IfOk result (EndsStream N.id_of S.tells (option_copied head.entry) text faults path [] parts.new) }
    ensures err { (text : List ℕ) (faults : ℕ) (path : List ℕ)
        → GoesOn N.id_of S.tells text faults path [] parts.old
        → IfErr result (BreaksOff N.id_of S.tells (option_copied head.entry) text faults
        parts.new.standing.place.faults) }
    ensures same_path { parts.new.standing.place.path ≡ parts.old.standing.place.path }
    ensures later { parts.old.standing.place.faults ≤ parts.new.standing.place.faults }
    ensures quiet { IsQuietBut parts.old.standing.place.faults parts.new.standing.place.faults SourceFailed result }
{
    let mut objects = Vec::new(alloc);
    'stream: loop {
        let mut more = match parts.next(alloc, head) {
            Ok(StreamPart::More(more)) => more,
            Ok(StreamPart::Last(last)) => return Ok(with_last(objects, last)?),
            Err(fault) => return Err(fault),
        };
        objects.append(&mut more)?;
    }
}

/// Puts what a source makes, or why it makes nothing, and hands the source back.
fn load_lent<'a, N: Namer, S: Source>(
    alloc: Global,
    namer: &N,
    head: Option<&[u8]>,
    source: &'a mut S,
    loaded: &mut Result<Objects<N>, InputFault>,
) -> Lent<'a, S>
    requires { IfSome (option_copied head) IsRef }
    ensures means { S.tells → IfOk loaded.new (λ made. Means N.id_of (option_copied head.entry) (S.left source.old)
        (making_of made)) }
    ensures all { IfOk loaded.new (λ made. AreWholeAndNew N.id_of made.objects.items made.snapshot) }
    ensures stops { S.tells → IfOk loaded.new (λ _. ReadsUpTo (S.left source.old) (S.left result.source.now)) }
    ensures quiet { IsQuietBut (S.faults source.old) (S.faults result.source.now) SourceFailed loaded.new }
    ensures breaks { IfErr loaded.new (BreaksOff N.id_of S.tells (option_copied head.entry) (S.left source.old)
        (S.faults source.old) (S.faults result.source.now)) }

    ensures same_reference { result.source.ghost_name ≡ source.entry.ghost_name }
    ensures same_path { S.path result.source.now ≡ S.path source.old }
    ensures later { S.faults source.old ≤ S.faults result.source.now }
{
    let window = match Window::new(alloc) {
        Ok(window) => window,
        Err(fault) => {
            *loaded = Err(fault.into());
            return Lent { source };
        }
    };
    let mut parts = StreamParts::new(alloc, window, *namer, Lent { source });
    *loaded = load_all(alloc, &mut parts, head);
    parts.close()
}

/// Reads what is left of a source, and makes its objects, where this head is named, or none.
pub fn load_source<N: Namer, S: Source>(
    alloc: Global,
    namer: &N,
    head: Option<&[u8]>,
    source: &mut S,
) -> Result<Objects<N>, InputFault>
    requires { IfSome (option_copied head) IsRef }
    // What is made is what the input means.
    ensures ok { IfOk result (λ loaded. MeansLeft N.id_of (option_copied head.entry)
        (sources S.tells S.left S.faults S.path) source.old (making_of loaded)) }
    // The objects have all of their children, and the snapshot is one of them.
    ensures whole { IfOk result (HasAllThatIsReached N.id_of) }
    // Each comes once, and after all that it names.
    ensures order { IfOk result (λ loaded. AreNew N.id_of [] loaded.objects.items) }
    // What stands behind the stream is left, but for a window. No read failed, unless that is the answer.
    ensures read { S.tells → IfOk result (λ _. ReadsUpTo (S.left source.old) (S.left source.new)) }
    ensures quiet { IsQuietBut (S.faults source.old) (S.faults source.new) SourceFailed result }
    // An input that is refused breaks so, or the source failed.
    ensures err { IfErr result (ExplainsSource N.id_of (option_copied head.entry)
        (sources S.tells S.left S.faults S.path) source.old source.new) }

    ensures same_path { S.path source.new ≡ S.path source.old }
    ensures later { S.faults source.old ≤ S.faults source.new }
{
    let mut loaded = Err(InputFault::Memory);
    let Lent { source: _ } = load_lent(alloc, namer, head, source, &mut loaded);
    loaded
}
