// Loads whose device calls fail.
use crate::world::load;
use std::alloc::Global;
use std::test::Fail;
use swh_base::Sha1Namer;
use swh_fixtures::{STREAM, URL, found, made_archive};
use swh_loader::{Input, LoadFault, Loaded, Stop};

/// What two loads of the worked stream answer, and whether a disk had failed after the first.
#[derive(Drop)]
struct TwoLoads {
    first: Result<Loaded, LoadFault>,
    wounded: bool,
    second: Result<Loaded, LoadFault>,
}

fn load_twice(
    alloc: Global,
    ledger_failing: &[u64],
    store_failing: &[u64],
) -> Result<TwoLoads, Fail> {
    let one = Input::Fast {
        stream: found(alloc, STREAM, &[])?,
        head: None,
    };
    let other = Input::Fast {
        stream: found(alloc, STREAM, &[])?,
        head: None,
    };
    let mut keeper = made_archive(alloc, Sha1Namer, ledger_failing, store_failing)?;
    let first = load(alloc, &Sha1Namer, &mut keeper, URL, one);
    let wounded = keeper.wounded().is_some();
    let second = load(alloc, &Sha1Namer, &mut keeper, URL, other);
    let (_store, _ledger) = keeper.close();
    Ok(TwoLoads {
        first,
        wounded,
        second,
    })
}

/// Says whether a load stopped so.
fn stops_for(answer: &Result<Loaded, LoadFault>, fault: LoadFault) -> bool {
    match answer {
        Ok(_) => false,
        Err(other) => *other == fault,
    }
}

/// Says whether the first load stops at the disk, and the second at once.
fn is_stopped(loads: &TwoLoads, visit: u64) -> bool {
    let fault = LoadFault {
        visit,
        why: Stop::DiskFault,
    };
    let wounded = LoadFault {
        visit: 0,
        why: Stop::Wounded,
    };
    stops_for(&loads.first, fault) && loads.wounded && stops_for(&loads.second, wounded)
}

#[test]
fn each_device_call_fails_in_turn(rt: HostRuntime) -> Result<(), Fail> {
    let alloc = rt.alloc();
    // Nine calls of the ledger and one of the store make the archive. Each of the four events then writes its record
    // and its gate, with a barrier after each, and the batch writes its run, with a barrier after it.
    for call in 9..13 {
        assert!(rt; is_stopped(&load_twice(alloc, &[call], &[])?, 0));
    }
    for call in 13..25 {
        assert!(rt; is_stopped(&load_twice(alloc, &[call], &[])?, 1));
    }
    for call in 1..3 {
        assert!(rt; is_stopped(&load_twice(alloc, &[], &[call])?, 1));
    }
    let later = load_twice(alloc, &[25], &[3])?;
    assert!(rt; later.first.is_ok() && !later.wounded);
    let fault = LoadFault {
        visit: 0,
        why: Stop::DiskFault,
    };
    assert!(rt; stops_for(&later.second, fault));
    Ok(())
}
