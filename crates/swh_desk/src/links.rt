// Connections, one after another.
ghost use Rattle.std.specs.Prelude.{◌≡◌, ◌≢◌, ◌≤◌, Ok, Err};
ghost use Rattle.swh_outside.specs.Views.{disks};
ghost use Rattle.swh_outside.specs.Faults.{Rose};
ghost use Rattle.swh_desk.specs.Links.{IsTurnEnd, AreServed};
ghost use Rattle.swh_desk.specs.declared.tally.ServeStop.TheVariants.{Door, Clock as ClockFailed};

use crate::keeping::serve_at_keeper;
use crate::tally::{Ended, ServeStop, Tally, ended_by};
use std::alloc::Global;
use swh_base::Namer;
use swh_keeper::Keeper;
use swh_outside::{Clock, Disk, Doors, Link, OutFault};

// Lets the next link in, serves it, ends it and gives it back.
fn serve_next<N: Namer, D: Disk, E: Doors, C: Clock>(
    alloc: Global,
    namer: &N,
    keeper: &mut Keeper<N, D>,
    doors: &mut E,
    clock: &mut C,
) -> Result<Ended, ServeStop>
    ensures turn { IsTurnEnd N.id_of (disks D.tells D.file D.faults)
        (record { doors = E.tells; links = E.L.Source.tells; clock = C.tells })
        (record { keeper = keeper.old; back = E.given_back doors.old; time = C.time clock.old })
        (record { keeper = keeper.new; back = E.given_back doors.new; time = C.time clock.new }) result }
    ensures same_places { E.tells → E.places doors.new ≡ E.places doors.old }
    ensures doors_later { E.faults doors.old ≤ E.faults doors.new }
    ensures doors_failed { result ≡ Err Door → Rose (E.faults doors.old) (E.faults doors.new) }
    ensures doors_quiet { result ≢ Err Door → E.faults doors.new ≡ E.faults doors.old }
    ensures clock_later { C.faults clock.old ≤ C.faults clock.new }
    ensures clock_failed { result ≡ Err ClockFailed → Rose (C.faults clock.old) (C.faults clock.new) }
    ensures clock_quiet { result ≢ Err ClockFailed → C.faults clock.new ≡ C.faults clock.old }
{
    let mut link = match doors.accept() {
        Ok(link) => link,
        Err(OutFault::Memory) => return Ok(Ended::Starved),
        Err(OutFault::Failed) => return Err(ServeStop::Door),
    };
    let Ok(date) = clock.now() else {
        doors.back(link);
        return Err(ServeStop::Clock);
    };
    let served = serve_at_keeper(alloc, namer, keeper, &mut link, date);
    link.finish();
    doors.back(link);
    Ok(ended_by(&served))
}

/// Serves so many connections over a keeper to which nobody else adds, one after another, on one thread: each link that
/// comes in is served up to its end, on the date that the clock says when it was let in, told that nothing more is put, and
/// given back. Fails where the doors do, or the clock; each link that was let in is given back then too. A link for which
/// there is no memory is none, and counts as one that ended for want of it.
pub fn serve_links<N: Namer, D: Disk, E: Doors, C: Clock>(
    alloc: Global,
    namer: &N,
    keeper: &mut Keeper<N, D>,
    doors: &mut E,
    clock: &mut C,
    connections: u32,
) -> Result<Tally, ServeStop>
    ensures served { AreServed N.id_of (disks D.tells D.file D.faults)
        (record { doors = E.tells; links = E.L.Source.tells; clock = C.tells }) connections
        (record { keeper = keeper.old; back = E.given_back doors.old; time = C.time clock.old })
        (record { keeper = keeper.new; back = E.given_back doors.new; time = C.time clock.new }) result }
    ensures same_places { E.tells → E.places doors.new ≡ E.places doors.old }
    ensures doors_later { E.faults doors.old ≤ E.faults doors.new }
    ensures doors_failed { result ≡ Err Door → Rose (E.faults doors.old) (E.faults doors.new) }
    ensures doors_quiet { result ≢ Err Door → E.faults doors.new ≡ E.faults doors.old }
    ensures clock_later { C.faults clock.old ≤ C.faults clock.new }
    ensures clock_failed { result ≡ Err ClockFailed → Rose (C.faults clock.old) (C.faults clock.new) }
    ensures clock_quiet { result ≢ Err ClockFailed → C.faults clock.new ≡ C.faults clock.old }
{
    let mut tally = Tally::new();
    'links: for _turn in 0..connections {
        match serve_next(alloc, namer, keeper, doors, clock) {
            Ok(ended) => tally.add(ended),
            Err(stop) => return Err(stop),
        }
    }
    Ok(tally)
}
