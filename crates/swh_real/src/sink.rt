// A stream of the system that takes bytes, as standard output.
ghost use Rattle.std.specs.Prelude.{◌≡◌};

use std::io;
use std::io::Write;
use std::marker::Model;
use swh_files::Count;
use swh_outside::{Failed, Sink};

/// Where output goes. Each `put` is flushed. A contract sees the count of faults.
#[derive(Drop)]
pub struct RealSink<W: Write + Drop> {
    writer: W,
    count: Count,
}

impl<W: Write + Drop> Model for RealSink<W> {
    ghost use Rattle.std.specs.Prelude.{ℕ};

    ghost Value = { ℕ };

    ghost view = { λ sink. sink.count };
}

impl<W: Write + Drop> RealSink<W> {
    pub fn new(writer: W) -> Self
        ensures { result ≡ 0 }
    {
        RealSink {
            writer,
            count: Count::new(),
        }
    }

    /// How often it has failed.
    pub fn faults(&self) -> u64
        ensures { result ≡ self.now }
    {
        self.count.get()
    }
}

impl<W: Write + Drop + Send> Sink for RealSink<W> {
    ghost use Rattle.std.specs.Prelude.{[]};

    ghost tells = { ⊥ };

    ghost taken = { λ _. [] };

    ghost faults = { λ sink. sink };

    fn put(&mut self, bytes: &[u8]) -> Result<(), Failed> {
        match write_out(&mut self.writer, bytes) {
            Ok(()) => Ok(()),
            Err(_) => Err(self.count.refuse()),
        }
    }
}

fn write_out<W: Write>(writer: &mut W, bytes: &[u8]) -> io::Result<()> {
    writer.write_all(bytes)?;
    writer.flush()
}
