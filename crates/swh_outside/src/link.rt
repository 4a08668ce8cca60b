// A link to somebody outside: bytes in and bytes out.
ghost use Rattle.std.specs.Prelude.{◌≡◌};

use crate::{Sink, Source};

/// A source and a sink in one, with one count of faults. What it gives and what it takes do not touch each other.
pub trait Link: Source + Sink {
    /// Ends what is put: the other side reads the end behind what it was sent. What it still sends may be read and
    /// lost, and none of it is told. Nothing is put or got behind it.
    fn finish(&mut self)
        // What it leaves as it was.
        ensures same_taken { Self.Sink.taken self.new ≡ Self.Sink.taken self.old }
        ensures same_heard { Self.Sink.heard self.new ≡ Self.Sink.heard self.old }
        ensures same_left { Self.Source.left self.new ≡ Self.Source.left self.old }
        ensures same_faults { Self.Source.faults self.new ≡ Self.Source.faults self.old };

    /// Told on both sides or on none.
    ghost both_tell: { (Self.Source.tells → Self.Sink.tells) × (Self.Sink.tells → Self.Source.tells) };

    ghost one_count: { (link : Self) → Self.Source.faults link ≡ Self.Sink.faults link };

    /// A `get` leaves what was put, and a `put` what is left and was heard.
    ghost puts_stay: { (link : Self) → Self.Source.put_so_far link ≡ Self.Sink.taken link };

    ghost gets_stay: { (link : Self)
        → Self.Sink.heard link ≡ record { left = Self.Source.left link; given = Self.Source.given link; ended = Self.Source.ended link } };
}
