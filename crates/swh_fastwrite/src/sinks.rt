//! Sinks take a text.
ghost use Rattle.swh_fastwrite.specs.Sinks.{IntoSink, FrontIntoSink, sinks_add_up};

use crate::taker::Taker;
use swh_outside::{Failed, Sink};

impl<K: Sink> Taker for K {
    ghost takes = { IntoSink K.tells K.taken K.begun K.heard };

    ghost takes_front = { FrontIntoSink K.tells K.taken K.begun K.heard };

    ghost failures = { K.faults };

    ghost adds_up = { sinks_add_up K.tells K.taken K.begun K.heard };

    fn take(&mut self, bytes: &[u8]) -> Result<(), Failed> {
        self.put(bytes)
    }
}
