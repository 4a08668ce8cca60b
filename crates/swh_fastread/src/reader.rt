//! The reader of a stream's commands.
ghost use Rattle.std.specs.Prelude.{◌≡◌, ◌≤◌, ◌⊎◌, ◌+◌, [], false, length, IfOk, IfErr, IfSome, IsErrOf, ◌<◌, ◌^◌};
ghost use Rattle.swh_outside.specs.Faults.{Rose};
ghost use Rattle.swh_fastlex.specs.ReadOn.{IsQuietBut};
ghost use Rattle.swh_fastrows.specs.ReadOn.{AreReadOn};
ghost use Rattle.swh_fastgrammar.specs.Givable.{IsGivable};
ghost use Rattle.swh_fastrows.specs.declared.fail.ReadFail.TheVariants.{ReadFault as SourceFailed};
ghost use Rattle.swh_fastread.specs.declared.reader.Ending.TheVariants.{Open as IsOpen, Refused as IsRefused};
ghost use Rattle.swh_fastrows.specs.Explains.{Explains};
ghost use Rattle.swh_fastrows.specs.Places.{HoldsFront};
ghost use Rattle.swh_fastrows.specs.Failing.{MayFail};
ghost use Rattle.swh_fastread.specs.Standing.{Answers, Repeats, ending_of};
ghost use Rattle.swh_fastread.specs.Steps.{FindsNext};

use crate::items::{Next, read_next};
use std::alloc::Global;
use std::marker::Model;
use swh_fastgrammar::Command;
use swh_fastlex::Window;
use swh_fastrows::{ReadFail, RowReader};
use swh_outside::Source;

/// How a reader ended.
#[derive(Clone, Copy, Debug, PartialEq, Eq)]
pub enum Ending {
    /// It did not.
    Open,
    /// The stream has no more commands.
    AtEnd,
    /// It refused the stream.
    Refused(ReadFail),
}

/// A stream, read command by command.
#[derive(Drop)]
pub struct Reader<S: Source> {
    rows: RowReader<S>,
    promised: bool,
    ending: Ending,
}

impl<S: Source> Model for Reader<S> {
    ghost use Rattle.swh_fastread.specs.Standing.{Standing};

    ghost Value = { Standing };

    ghost view = { λ r. record { place = r.rows; promised = r.promised; ending = r.ending } };
}

impl<S: Source> Reader<S> {
    /// A reader of the stream that the source has left, through a window that holds nothing.
    pub fn new(alloc: Global, window: Window, source: S) -> Reader<S>
        requires empty { window.bytes ≡ [] }
        requires first { window.place ≡ 0 }
        ensures place { result.place ≡ record { at = 0; held = []; rest = S.left source; buffered = 0; faults = S.faults source; path = S.path source } }
        ensures promised { result.promised ≡ false }
        ensures open { result.ending ≡ IsOpen }
    {
        Reader {
            rows: RowReader::new(alloc, window, source),
            promised: false,
            ending: Ending::Open,
        }
    }

    /// The next command, where the reader did not end.
    fn read_on(&mut self) -> Result<Option<Command>, ReadFail>
        ensures found { S.tells → IfOk result (FindsNext self.old.place self.new.place self.old.promised
            self.new.promised) }
        ensures givable { IfOk result (λ found. IfSome found IsGivable) }
        ensures onward { IfOk result (λ found. IfSome found (λ _. self.old.place.at < self.new.place.at)) }
        ensures fails { S.tells → IfErr result (Explains self.old.place self.old.promised) }
        ensures may { IfErr result MayFail }
        ensures ending { self.new.ending ≡ ending_of result }

        ensures on { AreReadOn self.old.place self.new.place SourceFailed result }
    {
        match read_next(&mut self.rows, self.promised) {
            Ok(Next { command, promised }) => {
                self.promised = promised;
                self.ending = match command {
                    Some(_) => Ending::Open,
                    None => Ending::AtEnd,
                };
                Ok(command)
            }
            Err(fail) => {
                self.ending = Ending::Refused(fail);
                Err(fail)
            }
        }
    }

    /// The next command, or none where the stream ends.
    ///
    /// # Errors
    ///
    /// The stream's first fault, or a limit that it passes, with no whole command before; or the source failed, or
    /// memory ran out. Once it ended or failed it answers the same ever after.
    pub fn next_command(&mut self) -> Result<Option<Command>, ReadFail>
        ensures command { S.tells → self.old.ending ≡ IsOpen → IfOk result (Answers self.old self.new) }
        ensures givable { IfOk result (λ found. IfSome found IsGivable) }
        ensures onward { IfOk result (λ found. IfSome found (λ _. self.old.place.at < self.new.place.at)) }
        ensures fails { S.tells → self.old.ending ≡ IsOpen → IfErr result (Explains self.old.place self.old.promised) }
        ensures may { self.old.ending ≡ IsOpen → IfErr result MayFail }
        ensures ending { self.new.ending ≡ ending_of result }
        ensures again { Repeats self.old.ending self.old self.new result }

        ensures same_path { self.new.place.path ≡ self.old.place.path }
        ensures later { self.old.place.faults ≤ self.new.place.faults }
        ensures quiet { IfOk result (λ _. self.new.place.faults ≡ self.old.place.faults) }
        // Nor was a failure heard with any other answer than that the source failed.
        ensures heard { IsQuietBut self.old.place.faults self.new.place.faults SourceFailed result }
        ensures cause { IsErrOf result SourceFailed → (self.old.ending ≡ IsRefused SourceFailed)
            ⊎ Rose self.old.place.faults self.new.place.faults }
    {
        match self.ending {
            Ending::Open => self.read_on(),
            Ending::AtEnd => Ok(None),
            Ending::Refused(fail) => Err(fail),
        }
    }

    /// The place of the first byte that is to be read, which is never far behind the end that a stream may have.
    pub fn place(&self) -> u64
        ensures at { result ≡ self.now.place.at }
        ensures within { result ≤ 2 ^ 33 }
    {
        self.rows.place()
    }

    /// How many bytes its source gave beyond the commands that were answered and the lines that were skipped after them:
    /// a line and a window at most.
    pub fn held(&self) -> u64
        ensures count { result ≡ length self.now.place.held + self.now.place.buffered }
        ensures within { result ≤ 1114112 }
    {
        self.rows.count()
    }

    /// The source, which may have given more than was read, by a window at most.
    pub fn close(self) -> S
        ensures faults { S.faults result ≡ self.place.faults }
        ensures path { S.path result ≡ self.place.path }
        ensures left { HoldsFront self.place.buffered self.place.rest (S.left result) }
    {
        let Reader { rows, .. } = self;
        rows.back()
    }
}
