// Text that is printed, in pieces: so a long body is printed where it lies, without a copy of it.
ghost use Rattle.std.specs.Prelude.{◌≡◌, flat_map};
ghost use Rattle.swh_outside.specs.Faults.{HasCause};
ghost use Rattle.swh_outside.specs.Sink.{IsPut};

use std::alloc::Global;
use std::marker::Model;
use std::mem;
use swh_base::{Bytes, Memory, Shared};
use swh_outside::{Failed, Sink};

/// From how many bytes on a piece is kept as it is: to copy fewer costs less than one more call of the system.
const LONG: usize = 16_384;

/// Text in pieces, which contracts see as one list of bytes.
#[derive(Debug, Drop)]
pub struct Text {
    pieces: Vec<Shared<u8>>,
    last: Bytes,
}

impl Model for Text {
    ghost use Rattle.std.specs.Prelude.{ℕ, List, ◌++◌, flat_map};

    ghost Value = { List ℕ };

    ghost view = { λ t. flat_map (λ piece. piece) t.pieces.items ++ t.last };
}

/// Text that is being written, in pieces.
#[derive(Drop)]
pub struct TextBuilder {
    pieces: Vec<Shared<u8>>,
    last: Vec<u8>,
}

impl Model for TextBuilder {
    ghost use Rattle.std.specs.Prelude.{ℕ, List, ◌++◌, flat_map};

    ghost Value = { List ℕ };

    ghost view = { λ t. flat_map (λ piece. piece) t.pieces.items ++ t.last.items };
}

/// Puts bytes, where there are any.
pub fn put_some<K: Sink>(sink: &mut K, bytes: &[u8]) -> Result<(), Failed>
    ensures bytes { K.tells → IsPut (K.taken sink.old) bytes.now (K.taken sink.new) result }
    ensures cause { HasCause (K.faults sink.old) (K.faults sink.new) result }
{
    if bytes.is_empty() {
        return Ok(());
    }
    sink.put(bytes)
}

// Puts pieces one after the other.
fn put_pieces<K: Sink>(sink: &mut K, pieces: &[Shared<u8>]) -> Result<(), Failed>
    ensures bytes { K.tells → IsPut (K.taken sink.old) (flat_map (λ piece. piece) pieces.now)
        (K.taken sink.new) result }
    ensures cause { HasCause (K.faults sink.old) (K.faults sink.new) result }
{
    for piece in pieces {
        if let Err(failed) = put_some(sink, piece.as_slice()) {
            return Err(failed);
        }
    }
    Ok(())
}

impl Text {
    /// A text of one piece.
    pub fn of(alloc: Global, piece: Bytes) -> Text
        ensures { result ≡ piece }
    {
        Text {
            pieces: Vec::new(alloc),
            last: piece,
        }
    }

    /// Puts the pieces one after the other.
    pub fn put<K: Sink>(&self, sink: &mut K) -> Result<(), Failed>
        ensures bytes { K.tells → IsPut (K.taken sink.old) self.now (K.taken sink.new) result }
        ensures cause { HasCause (K.faults sink.old) (K.faults sink.new) result }
    {
        if let Err(failed) = put_pieces(sink, self.pieces.as_slice()) {
            return Err(failed);
        }
        put_some(sink, self.last.as_slice())
    }
}

impl TextBuilder {
    ghost use Rattle.std.specs.Prelude.{◌≡◌, ◌++◌, [], OnOk};

    /// A text of no bytes.
    pub fn new(alloc: Global) -> TextBuilder
        ensures { result ≡ [] }
    {
        TextBuilder {
            pieces: Vec::new(alloc),
            last: Vec::new(alloc),
        }
    }

    /// Adds a copy of these bytes at the end.
    pub fn write(&mut self, bytes: &[u8]) -> Result<(), Memory>
        ensures { OnOk result (self.new ≡ self.old ++ bytes.now) }
    {
        self.last.extend_from_slice(bytes)?;
        Ok(())
    }

    /// Adds these bytes at the end; a long piece is taken over without a copy.
    pub fn append(&mut self, alloc: Global, piece: Shared<u8>) -> Result<(), Memory>
        ensures { OnOk result (self.new ≡ self.old ++ piece) }
    {
        if piece.as_slice().len() < LONG {
            return self.write(piece.as_slice());
        }
        let before = mem::replace(&mut self.last, Vec::new(alloc));
        self.pieces.push(Shared::from_vec(before)?)?;
        self.pieces.push(piece)?;
        Ok(())
    }

    /// The text as it was written.
    pub fn finish(self) -> Text
        ensures { result ≡ self }
    {
        let TextBuilder { pieces, last } = self;
        Text {
            pieces,
            last: Bytes::from_vec(last),
        }
    }
}
