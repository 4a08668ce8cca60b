// What a run comes to, what it prints, and its status.
ghost use Rattle.std.specs.Prelude.{◌≡◌, ◌≤◌};
ghost use Rattle.swh_outside.specs.Faults.{HasCause};
ghost use Rattle.swh_outside.specs.Sink.{IsPut};
ghost use Rattle.swh_exit.specs.Answers.{told_by, last_line_of, last_line_for, status_of, status_for, IsToldOf};

use crate::text::{Text, put_some};
use swh_base::Bytes;
use swh_outside::{Failed, Sink};

/// How a run ends that prints lines or replies.
#[derive(Clone, Copy, Debug, PartialEq, Eq)]
pub enum Ending {
    /// Everything is there.
    Done,
    /// A job is not full, a reply is not 200, or a file is no body of its kind.
    Wanting,
    /// A disk failed.
    OutsideDisk,
    /// Memory was refused.
    Memory,
}

#[derive(Debug, Drop)]
pub enum Answer {
    /// An archive was made.
    Made,
    /// Lines of jobs or on a file, or replies, each with its LF.
    Told { text: Text, ending: Ending },
    /// The words are outside the grammar.
    Words,
    /// There is no job file.
    NoJobFile,
    /// The job file has a line that breaks, and this line tells the first, with its LF.
    BadJob { text: Bytes },
    /// The archive was made before.
    AlreadyMade,
    /// There is no archive.
    NotMade,
    /// The archive's files stand for no history, or a body that is held reads otherwise, and this line tells where, with
    /// its LF.
    Damaged { text: Bytes },
    /// A disk, or the depot, failed.
    OutsideDisk,
    /// The job file, or the file that is read, failed.
    OutsideSource,
    /// The folder that is read failed.
    OutsideFolder,
    /// The yard failed.
    OutsideYard,
    /// The clock failed.
    OutsideClock,
    /// Memory was refused.
    Memory,
}

impl Ending {
    // The line that is printed after what is told, if any.
    fn last_line(self) -> &'static [u8]
        ensures { result.now ≡ last_line_for self }
    {
        match self {
            Ending::Done | Ending::Wanting => b"".as_slice(),
            Ending::OutsideDisk => b"swharc: outside disk\n".as_slice(),
            Ending::Memory => b"swharc: memory\n".as_slice(),
        }
    }

    fn status(self) -> u8
        ensures { result ≡ status_for self }
    {
        match self {
            Ending::Done => 0,
            Ending::Wanting => 1,
            Ending::OutsideDisk => 4,
            Ending::Memory => 5,
        }
    }
}

impl Answer {
    // Puts what is told before the last line.
    fn put_told<K: Sink>(&self, sink: &mut K) -> Result<(), Failed>
        ensures bytes { K.tells → IsPut (K.taken sink.old) (told_by self.now) (K.taken sink.new) result }
        ensures cause { HasCause (K.faults sink.old) (K.faults sink.new) result }
    {
        match self {
            Answer::Told { text, .. } => text.put(sink),
            Answer::BadJob { text } | Answer::Damaged { text } => put_some(sink, text.as_slice()),
            _ => Ok(()),
        }
    }

    // The last line that is printed, if any.
    fn last_line(&self) -> &'static [u8]
        ensures { result.now ≡ last_line_of self.now }
    {
        match self {
            Answer::Made => b"made\n".as_slice(),
            Answer::Told { ending, .. } => ending.last_line(),
            Answer::Words => b"swharc: words\n".as_slice(),
            Answer::NoJobFile => b"swharc: no job file\n".as_slice(),
            Answer::BadJob { .. } | Answer::Damaged { .. } => b"".as_slice(),
            Answer::AlreadyMade => b"swharc: made\n".as_slice(),
            Answer::NotMade => b"swharc: not made\n".as_slice(),
            Answer::OutsideDisk => b"swharc: outside disk\n".as_slice(),
            Answer::OutsideSource => b"swharc: outside source\n".as_slice(),
            Answer::OutsideFolder => b"swharc: outside folder\n".as_slice(),
            Answer::OutsideYard => b"swharc: outside yard\n".as_slice(),
            Answer::OutsideClock => b"swharc: outside clock\n".as_slice(),
            Answer::Memory => b"swharc: memory\n".as_slice(),
        }
    }

    fn status(&self) -> u8
        ensures { result ≡ status_of self.now }
    {
        match self {
            Answer::Made => 0,
            Answer::Told { ending, .. } => ending.status(),
            Answer::Words | Answer::NoJobFile | Answer::BadJob { .. } => 2,
            Answer::AlreadyMade | Answer::NotMade | Answer::Damaged { .. } => 3,
            Answer::OutsideDisk
            | Answer::OutsideSource
            | Answer::OutsideFolder
            | Answer::OutsideYard
            | Answer::OutsideClock => 4,
            Answer::Memory => 5,
        }
    }
}

/// Prints what an answer says, and gives its status, or 4 where the sink fails.
pub fn tell<K: Sink>(sink: &mut K, answer: &Answer) -> u8
    ensures told { IsToldOf answer.now K.tells (K.taken sink.old) (K.taken sink.new) (K.faults sink.old)
        (K.faults sink.new) result }
    ensures later { K.faults sink.old ≤ K.faults sink.new }
{
    let Ok(()) = answer.put_told(sink) else {
        return 4;
    };
    let Ok(()) = put_some(sink, answer.last_line()) else {
        return 4;
    };
    answer.status()
}
