// How connections end, and how they are counted.
ghost use Rattle.std.specs.Prelude.{◌≡◌, ◌+◌, ◌<◌, ◌^◌};
ghost use Rattle.swh_desk.specs.Links.{no_connection, ended, one_if_broken, one_if_starved};

use swh_serve::{ServeFault, Served};

/// How many connections ended, and how.
#[derive(Clone, Copy, Debug)]
pub struct Tally {
    /// All of them.
    pub served: u32,
    /// Those whose link failed, or ended inside a request.
    pub broken: u32,
    /// Those that ended for want of memory.
    pub starved: u32,
}

/// Why no more connections are served.
#[derive(Debug, Drop)]
pub enum ServeStop {
    /// The doors failed.
    Door,
    /// The clock failed.
    Clock,
}

/// How a connection counts.
#[derive(Clone, Copy, Debug)]
pub enum Ended {
    Whole,
    Broken,
    Starved,
}

impl Tally {
    /// Of no connection.
    pub fn new() -> Self
        ensures { result ≡ no_connection }
    {
        Tally {
            served: 0,
            broken: 0,
            starved: 0,
        }
    }

    /// Counts one more. No part counts more than all.
    pub fn add(&mut self, ended: Ended)
        requires few { self.old.served + 1 < 2 ^ 32 }
        requires broken { self.old.broken + 1 < 2 ^ 32 }
        requires starved { self.old.starved + 1 < 2 ^ 32 }
        ensures served { self.new.served ≡ self.old.served + 1 }
        ensures broken { self.new.broken ≡ self.old.broken + one_if_broken ended }
        ensures starved { self.new.starved ≡ self.old.starved + one_if_starved ended }
    {
        self.served += 1;
        match ended {
            Ended::Whole => {}
            Ended::Broken => self.broken += 1,
            Ended::Starved => self.starved += 1,
        }
    }
}

/// How a connection counts that came to this.
pub fn ended_by(served: &Result<Served, ServeFault>) -> Ended
    ensures { result ≡ ended served.now }
{
    match served {
        Ok(_) => Ended::Whole,
        Err(ServeFault::Memory) => Ended::Starved,
        Err(ServeFault::Read) => Ended::Broken,
        Err(ServeFault::Write) => Ended::Broken,
        Err(ServeFault::Short { held: _ }) => Ended::Broken,
    }
}
