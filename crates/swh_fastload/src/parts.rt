//! A stream that is read and made part by part (git-fast-import(1), input format and commands).
ghost use Rattle.std.specs.Prelude.{◌≡◌, ◌<◌, ◌≤◌, ◌^◌, ◌++◌, ◌∷◌, [], ℕ, List, Ok, IfOk, IfErr, IfSome};
ghost use Rattle.std.specs.Option.{option_copied};
ghost use Rattle.swh_base.specs.Text.{IsRef};
ghost use Rattle.swh_base.specs.declared.entry.Entry.{Entry};
ghost use Rattle.swh_fastlex.specs.ReadOn.{IsQuietBut};
ghost use Rattle.swh_fastrows.specs.Places.{HoldsFront};
ghost use Rattle.swh_fastread.specs.declared.reader.Ending.TheVariants.{Open};
ghost use Rattle.swh_fastload.specs.declared.bad.InputFault.TheVariants.{ReadFault as SourceFailed};
ghost use Rattle.swh_fastload.specs.Giving.{AreWholeAndNew, BreaksOff, GivesNext, GoesOn, IfLast, IfMore, IsLast, meaning_of};
ghost use Rattle.swh_fastload.specs.Input.{Means};
ghost use Rattle.swh_fastload.specs.Reading.{read_fault, feed_fault, BreaksSo, HasGiven, HasRead, IsQuiet};

use crate::bad::{BadStream, InputFault};
use crate::load::FastLoad;
use std::alloc::{AllocError, Global};
use std::marker::Model;
use swh_base::{Name, Namer, Shared};
use swh_dedup::Objects;
use swh_fastlex::Window;
use swh_fastmeaning::FeedFault;
use swh_fastread::{ReadFail, Reader};
use swh_object::Object;
use swh_outside::Source;

/// What a stream makes next.
#[derive(Drop)]
pub enum StreamPart<N: Namer> {
    /// What the next command makes, with more of the stream behind it.
    More(Vec<Object<N>>),
    /// The snapshot of the tips, at the end of the stream.
    Last(Objects<N>),
}

/// A stream with the loader of its commands. It keeps the body of each object that was given: its own, or an equal one that
/// it was lent to share. Contracts see where its reader stands and what its loader knows.
#[derive(Drop)]
pub struct StreamParts<N: Namer, S: Source> {
    reader: Reader<S>,
    load: FastLoad<N>,
}

impl<N: Namer, S: Source> Model for StreamParts<N, S> {
    ghost use Rattle.swh_fastload.specs.Giving.{StreamState};

    ghost Value = { StreamState };

    ghost view = { λ p. record { standing = p.reader; loading = p.load } };
}

/// Why a stream that is not read on makes no more.
fn read_fault(fail: ReadFail) -> InputFault
    ensures { result ≡ read_fault fail }
{
    match fail {
        ReadFail::BadStream { at, why } => InputFault::Bad(BadStream::Stream { at, why }),
        ReadFail::ReadFault => InputFault::ReadFault,
        ReadFail::Limit { which, number } => InputFault::Bad(BadStream::Limit { which, number }),
        ReadFail::Memory => InputFault::Memory,
    }
}

/// Why a stream with a command that is not carried out makes no more.
fn feed_fault(fault: FeedFault) -> InputFault
    ensures { result ≡ feed_fault fault }
{
    match fault {
        FeedFault::BadStream { at, why } => InputFault::Bad(BadStream::Stream { at, why }),
        FeedFault::Limit { which, number } => InputFault::Bad(BadStream::Limit { which, number }),
        FeedFault::Memory => InputFault::Memory,
    }
}

/// The end of a stream of which all commands were carried out: its snapshot.
fn end_stream<N: Namer>(
    alloc: Global,
    load: &mut FastLoad<N>,
    head: Option<&[u8]>,
) -> Result<Objects<N>, InputFault>
    requires head { IfSome (option_copied head) IsRef }
    ensures means { (text : List ℕ) (given : List Entry) → HasRead N.id_of text load.old given
        → IfOk result (λ last. Means N.id_of (option_copied head.entry) text
        (meaning_of (given ++ last.objects.items) last.snapshot)) }
    ensures all { (given : List Entry) → HasGiven N.id_of load.old given
        → IfOk result (λ last. AreWholeAndNew N.id_of (given ++ last.objects.items) last.snapshot) }
    ensures breaks { (text : List ℕ) (given : List Entry) → HasRead N.id_of text load.old given
        → IfErr result (BreaksSo N.id_of (option_copied head.entry) text) }
    ensures quiet { (given : List Entry) → HasGiven N.id_of load.old given → IfErr result IsQuiet }
{
    let snapshot = match load.finish(alloc, head) {
        Ok(snapshot) => snapshot,
        Err(fault) => return Err(feed_fault(fault)),
    };
    let id = snapshot.name().id;
    let mut objects = Vec::new(alloc);
    match objects.push(snapshot) {
        Ok(()) => Ok(Objects {
            objects,
            snapshot: id,
        }),
        Err(fault) => Err(AllocError::from(fault).into()),
    }
}

/// The end of a stream as its last part.
fn last_part<N: Namer>(
    alloc: Global,
    load: &mut FastLoad<N>,
    head: Option<&[u8]>,
) -> Result<StreamPart<N>, InputFault>
    requires head { IfSome (option_copied head) IsRef }
    ensures means { (text : List ℕ) (given : List Entry) → HasRead N.id_of text load.old given
        → IfOk result (IfLast (λ last. Means N.id_of (option_copied head.entry) text
        (meaning_of (given ++ last.objects.items) last.snapshot))) }
    ensures all { (given : List Entry) → HasGiven N.id_of load.old given
        → IfOk result (IfLast (λ last. AreWholeAndNew N.id_of (given ++ last.objects.items) last.snapshot)) }
    ensures breaks { (text : List ℕ) (given : List Entry) → HasRead N.id_of text load.old given
        → IfErr result (BreaksSo N.id_of (option_copied head.entry) text) }
    ensures quiet { (given : List Entry) → HasGiven N.id_of load.old given → IfErr result IsQuiet }
    ensures last { IfOk result IsLast }
{
    match end_stream(alloc, load, head) {
        Ok(last) => Ok(StreamPart::Last(last)),
        Err(fault) => Err(fault),
    }
}

/// The objects of a stream's next command, or its snapshot where it ends.
fn next_part<N: Namer, S: Source>(
    alloc: Global,
    reader: &mut Reader<S>,
    load: &mut FastLoad<N>,
    head: Option<&[u8]>,
) -> Result<StreamPart<N>, InputFault>
    requires head { IfSome (option_copied head) IsRef }
    ensures given { (text : List ℕ) (faults : ℕ) (path : List ℕ) (given : List Entry)
        → GoesOn N.id_of S.tells text faults path given (record { standing = reader.old; loading = load.old })
        → IfOk result (GivesNext N.id_of S.tells (option_copied head.entry) text faults path given
        (record { standing = reader.new; loading = load.new })) }
    ensures err { (text : List ℕ) (faults : ℕ) (path : List ℕ) (given : List Entry)
        → GoesOn N.id_of S.tells text faults path given (record { standing = reader.old; loading = load.old })
        → IfErr result (BreaksOff N.id_of S.tells (option_copied head.entry) text faults reader.new.place.faults) }
    ensures still { IfOk result (λ part. IfMore part (reader.new.ending ≡ Open)) }
    ensures onward { IfOk result (λ part. IfMore part (reader.old.place.at < reader.new.place.at)) }
    ensures same_path { reader.new.place.path ≡ reader.old.place.path }
    ensures later { reader.old.place.faults ≤ reader.new.place.faults }
    ensures quiet { IsQuietBut reader.old.place.faults reader.new.place.faults SourceFailed result }
{
    let command = match reader.next_command() {
        Ok(Some(command)) => command,
        Ok(None) => return last_part(alloc, load, head),
        Err(fail) => return Err(read_fault(fail)),
    };
    match load.feed(alloc, command) {
        Ok(objects) => Ok(StreamPart::More(objects)),
        Err(fault) => Err(feed_fault(fault)),
    }
}

impl<N: Namer, S: Source> StreamParts<N, S> {
    /// The stream that a source has left, read through a window that holds nothing.
    pub fn new(alloc: Global, window: Window, namer: N, source: S) -> StreamParts<N, S>
        requires empty { window.bytes ≡ [] }
        requires first { window.place ≡ 0 }
        ensures { GoesOn N.id_of S.tells (S.left source) (S.faults source) (S.path source) [] result }
    {
        let reader = Reader::new(alloc, window, source);
        let load = FastLoad::new(alloc, namer);
        StreamParts { reader, load }
    }

    /// The next part of the stream. A command that makes nothing new gives an empty part.
    ///
    /// # Errors
    ///
    /// The stream breaks, or its source failed, or memory ran out. What was given before is what the whole commands before
    /// make.
    pub fn next(&mut self, alloc: Global, head: Option<&[u8]>) -> Result<StreamPart<N>, InputFault>
        requires { IfSome (option_copied head) IsRef }
        ensures given { (text : List ℕ) (faults : ℕ) (path : List ℕ) (given : List Entry)
            → GoesOn N.id_of S.tells text faults path given self.old
            → IfOk result (GivesNext N.id_of S.tells (option_copied head.entry) text faults path given self.new) }
        ensures err { (text : List ℕ) (faults : ℕ) (path : List ℕ) (given : List Entry)
            → GoesOn N.id_of S.tells text faults path given self.old
            → IfErr result (BreaksOff N.id_of S.tells (option_copied head.entry) text faults
            self.new.standing.place.faults) }
        ensures still { IfOk result (λ part. IfMore part (self.new.standing.ending ≡ Open)) }
        // Each part takes the reader on, to no more than 2^33.
        ensures onward { IfOk result (λ part. IfMore part
            (self.old.standing.place.at < self.new.standing.place.at)) }
        ensures within { self.old.standing.place.at ≤ 2 ^ 33 }
        ensures same_path { self.new.standing.place.path ≡ self.old.standing.place.path }
        ensures later { self.old.standing.place.faults ≤ self.new.standing.place.faults }
        ensures quiet { IsQuietBut self.old.standing.place.faults self.new.standing.place.faults SourceFailed result }
    {
        let _place = self.reader.place();
        next_part(alloc, &mut self.reader, &mut self.load, head)
    }

    /// Where an object of this name and body was given, this body is kept in place of its own. Nothing else changes.
    pub fn share(&mut self, name: &Name, body: Shared<u8>)
        ensures { self.new ≡ self.old }
    {
        self.load.share(name, body);
    }

    /// The source, which may have given more than was read, by a window at most.
    pub fn close(self) -> S
        ensures faults { S.faults result ≡ self.standing.place.faults }
        ensures path { S.path result ≡ self.standing.place.path }
        ensures left { HoldsFront self.standing.place.buffered self.standing.place.rest (S.left result) }
    {
        let StreamParts { reader, load: _ } = self;
        reader.close()
    }
}
