//! Rows of a stream, read from a source: lines that are looked at before they are taken.
ghost use Rattle.std.specs.Prelude.{◌≡◌, ◌≢◌, ◌≤◌, ◌<◌, ◌+◌, ◌^◌, ◌++◌, ◌∷◌, [], false, length, IfOk, IfErr, IsErrOf};
ghost use Rattle.swh_base.specs.Limits.{body_limit, line_limit};
ghost use Rattle.swh_outside.specs.Faults.{HasCause};
ghost use Rattle.swh_fastrows.specs.ReadOn.{AreReadOn};
ghost use Rattle.swh_fastlex.specs.Line.{IsLine};
ghost use Rattle.swh_fastlex.specs.Delimited.{AreLines};
ghost use Rattle.swh_fastlex.specs.declared.fault.DataFault.TheVariants.{Failed as DataFailed};
ghost use Rattle.swh_fastrows.specs.declared.ahead.Ahead.TheVariants.{Line, End as AtEnd};
ghost use Rattle.swh_fastlex.specs.declared.fault.LineFault.TheVariants.{Failed as LineFailed, End, Limit};
ghost use Rattle.swh_fastrows.specs.declared.fail.Outside.TheVariants.{Failed};
ghost use Rattle.swh_fastrows.specs.Held.{IsAhead, EndsHeld, HeldCounts, IsShort, IsFed, TakesLines, LinesFail};
ghost use Rattle.swh_fastrows.specs.Places.{HoldsFront, left, Took};
ghost use Rattle.swh_fastgrammar.specs.Row.{is_comment};

use crate::ahead::{Ahead, ahead_of};
use crate::fail::Outside;
use crate::hold::hold_line;
use std::alloc::Global;
use std::marker::Model;
use swh_fastlex::{DataFault, LineFault, Window, next_data, next_delimited, next_feed};
use swh_outside::Source;

/// The bytes of a stream.
pub const STREAM_LIMIT: u64 = 1 << 32;

/// Whether a line is skipped.
fn is_comment(line: &[u8]) -> bool
    ensures { result ≡ is_comment line.now }
{
    line.starts_with(b"#")
}

/// A source of which the next line may be looked at before it is taken.
#[derive(Drop)]
pub struct RowReader<S: Source> {
    alloc: Global,
    source: S,
    window: Window,
    held: Vec<u8>,
    at: u64,
}

impl<S: Source> Model for RowReader<S> {
    ghost use Rattle.swh_fastrows.specs.Places.{ReaderState};

    ghost Value = { ReaderState };

    ghost use Rattle.std.specs.Prelude.{◌++◌, length};
    ghost use Rattle.swh_fastrows.specs.Held.{Holds};
    ghost use Rattle.swh_fastlex.specs.Line.{unread};

    ghost view = { λ r. record { at = r.at; held = r.held.items; rest = unread r.window (S.left r.source); buffered = length r.window.bytes; faults = S.faults r.source; path = S.path r.source } };

    ghost invariant = { λ r. Holds S.tells r.at r.held.items r.window (S.left r.source) };
}

impl<S: Source> RowReader<S> {
    /// The rows of a source, read through a window that holds nothing.
    pub fn new(alloc: Global, window: Window, source: S) -> RowReader<S>
        requires empty { window.bytes ≡ [] }
        requires first { window.place ≡ 0 }
        ensures { result ≡ record { at = 0; held = []; rest = S.left source; buffered = 0; faults = S.faults source; path = S.path source } }
    {
        let held = Vec::new(alloc);
        RowReader {
            alloc,
            source,
            window,
            held,
            at: 0,
        }
    }

    /// The source, which may have given more than was taken, by a window at most.
    pub fn back(self) -> S
        ensures faults { S.faults result ≡ self.faults }
        ensures path { S.path result ≡ self.path }
        ensures left { HoldsFront self.buffered self.rest (S.left result) }
    {
        let _count = self.window.count();
        let RowReader { source, .. } = self;
        source
    }

    /// How many bytes its source gave that were not taken: those that are held, and those in the window.
    pub fn count(&self) -> u64
        ensures count { result ≡ length self.now.held + self.now.buffered }
        ensures within { result ≤ 1114112 }
    {
        self.held.len() as u64 + self.window.count() as u64
    }

    /// The place of the first byte that was not taken.
    pub fn at(&self) -> u64
        ensures { result ≡ self.now.at }
    {
        self.at
    }

    /// The place of the first byte that was not taken, of which contracts here also say that it is never far behind the
    /// end that a stream may have.
    pub fn place(&self) -> u64
        ensures at { result ≡ self.now.at }
        ensures within { result ≤ 2 ^ 33 }
    {
        self.at
    }

    /// The place after the bytes that are held.
    pub fn end(&self) -> u64
        requires { self.now.at ≤ 2 ^ 33 }
        ensures { result ≡ self.now.at + length self.now.held }
    {
        self.at + self.held.len() as u64
    }

    /// The allocator of what is read.
    pub fn alloc(&self) -> Global {
        self.alloc
    }

    /// What is held, without the LF after it.
    pub fn line(&self) -> &[u8]
        requires { IsLine self.now.held }
        ensures { self.now.held ≡ result.now ++ 10 ∷ [] }
    {
        &self.held[..self.held.len() - 1]
    }

    /// Takes the line that is held.
    pub fn take(&mut self)
        requires { IsLine self.old.held }
        ensures { self.new ≡ record { at = self.old.at + length self.old.held; held = []; rest = self.old.rest; buffered = self.old.buffered; faults = self.old.faults; path = self.old.path } }
    {
        self.at += self.held.len() as u64;
        self.held.clear();
    }

    /// Holds the next line. Where that fails, nothing is held.
    fn fill(&mut self) -> Result<(), Outside>
        requires empty { self.old.held ≡ [] }
        requires start { self.old.at ≤ STREAM_LIMIT }
        ensures kept { S.tells → IfOk result (λ _. left self.new ≡ left self.old) }
        ensures same_place { IfOk result (λ _. self.new.at ≡ self.old.at) }
        ensures end { S.tells → IfOk result (λ _. EndsHeld self.new) }
        ensures onward { self.old.at ≤ self.new.at }
        ensures within { self.new.at ≤ 2 ^ 33 }

        ensures on { AreReadOn self.old self.new Failed result }
    {
        match hold_line(&mut self.window, &mut self.source, &mut self.held) {
            Ok(()) => Ok(()),
            Err(fault) => {
                let _count = self.window.count();
                self.held.clear();
                self.at = self.window.place();
                Err(fault)
            }
        }
    }

    /// Holds the next line, where none is held, and answers what is held then.
    fn hold(&mut self) -> Result<Ahead, Outside>
        ensures ahead { IfOk result (IsAhead self.new.at self.new.held) }
        ensures kept { S.tells → IfOk result (λ _. left self.new ≡ left self.old) }
        ensures same_place { IfOk result (λ _. self.new.at ≡ self.old.at) }
        ensures end { S.tells → IfOk result (λ ahead. ahead ≡ AtEnd → self.new.rest ≡ []) }
        ensures onward { self.old.at ≤ self.new.at }
        ensures within { self.new.at ≤ 2 ^ 33 }

        ensures on { AreReadOn self.old self.new Failed result }
    {
        if !self.held.is_empty() {
            return Ok(ahead_of(self.at, &self.held));
        }
        if self.at > STREAM_LIMIT {
            return Ok(Ahead::Over);
        }
        self.fill()?;
        Ok(ahead_of(self.at, &self.held))
    }

    /// Passes over comments, holds the next line, and answers what is held then.
    pub fn look(&mut self) -> Result<Ahead, Outside>
        ensures ahead { IfOk result (IsAhead self.new.at self.new.held) }
        ensures counts { IfOk result (λ ahead. ahead ≡ Line → HeldCounts self.new.held) }
        ensures took { S.tells → IfOk result (λ _. Took self.old self.new []) }
        ensures end { S.tells → IfOk result (λ ahead. ahead ≡ AtEnd → self.new.rest ≡ []) }
        ensures onward { self.old.at ≤ self.new.at }
        ensures within { self.new.at ≤ 2 ^ 33 }

        ensures on { AreReadOn self.old self.new Failed result }
    {
        'comments: loop {
            match self.hold()? {
                Ahead::Line => {}
                ahead => return Ok(ahead),
            }
            if !is_comment(self.line()) {
                return Ok(Ahead::Line);
            }
            self.take();
        }
    }

    /// The next bytes, so many of them.
    ///
    /// # Errors
    ///
    /// The input ends before, or as `next_data` fails.
    pub fn bytes(&mut self, count: u64) -> Result<Vec<u8>, LineFault>
        requires empty { self.old.held ≡ [] }
        requires start { self.old.at ≤ STREAM_LIMIT }
        requires fits { count ≤ body_limit }
        ensures count { IfOk result (λ bytes. length bytes.items ≡ count) }
        ensures taken { S.tells → IfOk result (λ bytes. self.old.rest ≡ bytes.items ++ self.new.rest) }
        ensures counted { S.tells → IfOk result (λ _. self.new.at ≡ self.old.at + count) }
        ensures end { S.tells → IsErrOf result End → IsShort count self.old self.new }
        ensures not_limit { IfErr result (λ fault. fault ≢ Limit) }
        ensures held { self.new.held ≡ [] }
        ensures onward { IfOk result (λ _. self.old.at ≤ self.new.at) }
        ensures within { self.new.at ≤ self.old.at + count }

        ensures on { AreReadOn self.old self.new LineFailed result }
    {
        let bytes = next_data(self.alloc, &mut self.window, &mut self.source, count);
        let _count = self.window.count();
        self.at = self.window.place();
        bytes
    }

    /// The lines before the line that is just this word, which is passed too; `limit` is the most of their bytes.
    ///
    /// # Errors
    ///
    /// As `next_delimited` fails.
    pub fn delimited(&mut self, word: &[u8], limit: usize) -> Result<Vec<u8>, DataFault>
        requires empty { self.old.held ≡ [] }
        requires start { self.old.at ≤ STREAM_LIMIT }
        requires fits { limit ≤ body_limit }
        requires short { length word.now ≤ line_limit }
        ensures lines { IfOk result (λ bytes. AreLines word.now bytes.items) }
        ensures within { IfOk result (λ bytes. length bytes.items ≤ limit) }
        ensures taken { S.tells → IfOk result (λ bytes. TakesLines self.old self.new word.now bytes.items) }
        ensures fails { S.tells → IfErr result (LinesFail self.old self.new word.now limit) }
        ensures held { self.new.held ≡ [] }
        ensures onward { IfOk result (λ _. self.old.at ≤ self.new.at) }
        ensures most { self.new.at ≤ self.old.at + (limit + line_limit + 1) }

        ensures on { AreReadOn self.old self.new DataFailed result }
    {
        let bytes = next_delimited(self.alloc, &mut self.window, &mut self.source, word, limit);
        let _count = self.window.count();
        self.at = self.window.place();
        bytes
    }

    /// Takes an LF where one is next.
    pub fn feed(&mut self) -> Result<bool, swh_outside::Failed>
        requires empty { self.old.held ≡ [] }
        requires start { self.old.at < 2 ^ 33 }
        ensures feed { S.tells → IfOk result (IsFed self.old self.new) }
        ensures held { self.new.held ≡ [] }
        ensures onward { IfOk result (λ _. self.old.at ≤ self.new.at) }

        ensures same_path { self.new.path ≡ self.old.path }
        ensures cause { HasCause self.old.faults self.new.faults result }
    {
        let fed = next_feed(&mut self.window, &mut self.source);
        let _count = self.window.count();
        self.at = self.window.place();
        fed
    }
}
