// The real parts of the outside that a command may need.
use std::alloc::{AllocError, Global};
use swh_real::{RealClock, RealDepot, RealDoors, RealOrigins, RealYard};
use swh_words::{Command, WordsFault, parse_words};

/// The parts that stand on files, the clock and sockets.
#[derive(Drop)]
pub struct Parts {
    pub depot: RealDepot<HostRuntime>,
    pub desk: RealOrigins<HostRuntime>,
    pub origins: RealOrigins<HostRuntime>,
    pub yard: RealYard<HostRuntime>,
    pub clock: RealClock<HostRuntime>,
    pub doors: RealDoors<HostRuntime>,
}

// The depot for a command. `init` makes the files of an archive and `load` writes to them, alone; others leave them as
// they are, and go beside each other.
fn depot_for(rt: HostRuntime, alloc: Global, command: &Command<'_>) -> RealDepot<HostRuntime> {
    match command {
        Command::Init { .. } => RealDepot::to_make(rt, alloc),
        Command::Load { .. } => RealDepot::to_write(rt, alloc),
        _ => RealDepot::to_read(rt, alloc),
    }
}

/// The parts for what the words ask. Words that are no command have use for none.
pub fn parts_for(rt: &HostRuntime, alloc: Global, words: &[String]) -> Result<Parts, AllocError> {
    let depot = match parse_words(alloc, words) {
        Ok(command) => depot_for(rt.clone()?, alloc, &command),
        Err(WordsFault::Words) => RealDepot::to_read(rt.clone()?, alloc),
        Err(WordsFault::Memory) => return Err(AllocError),
    };
    Ok(Parts {
        depot,
        desk: RealOrigins::new(rt.clone()?, alloc),
        origins: RealOrigins::new(rt.clone()?, alloc),
        yard: RealYard::new(rt.clone()?, alloc),
        clock: RealClock::new(rt.clone()?),
        doors: RealDoors::new(rt.clone()?),
    })
}
