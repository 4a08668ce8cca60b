// Lines of jobs that were loaded one after the other.
use crate::job_world::{load_three, open_again};
use std::test::Fail;
use swh_fixtures::{STREAM, found};
use swh_outside::{OpenGate, Opened};

#[test]
fn three_jobs_are_told_in_order(rt: HostRuntime) -> Result<(), Fail> {
    let alloc = rt.alloc();
    let first = found(alloc, STREAM, &[])?;
    let third = found(alloc, b"", &[])?;
    let left = load_three(alloc, &OpenGate, first, Opened::NotFound, third, &[])?;
    assert_eq!(rt;
        left.text.as_slice(),
        b"https://e.org/p\t1\tfull\tswh:1:snp:5036c2b4a676f9dad60fbaed431ca21ecdec56ff\n\
https://e.org/q\t1\tnot_found\t-\nhttps://e.org/r\t1\tfull\tswh:1:snp:1a8893e6a86f444e8be8e7bda6cb34fb1735a00\
e\n"
            .as_slice()
    );
    Ok(())
}

#[test]
fn a_device_fault_stops_the_jobs_after_it(rt: HostRuntime) -> Result<(), Fail> {
    let alloc = rt.alloc();
    let first = found(alloc, b"", &[])?;
    let third = found(alloc, b"", &[])?;
    // Nine calls of the ledger make the archive. Each event then writes its record and its gate, with a barrier
    // after each: four events of the first job, and the opening of the second job's visit.
    let left = load_three(alloc, &OpenGate, first, Opened::NotFound, third, &[29])?;
    assert_eq!(rt;
        left.text.as_slice(),
        b"https://e.org/p\t1\tfull\tswh:1:snp:1a8893e6a86f444e8be8e7bda6cb34fb1735a00e\n\
https://e.org/q\t1\tstopped\tdisk\nhttps://e.org/r\t0\tstopped\twounded\n"
            .as_slice()
    );
    let archive = open_again(alloc, left.store, left.ledger)?;
    assert_eq!(rt; archive.events, 5);
    assert_eq!(rt; archive.visits, 1);
    Ok(())
}
