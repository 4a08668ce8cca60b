// The other parts in memory.
use std::alloc::Global;
use std::test::Fail;
use swh_memory::{MemoryClock, MemoryGate, MemorySink};
use swh_outside::{Clock, Failed, Gate, Sink};

#[test]
fn a_gate_counts_its_calls(rt: HostRuntime) {
    let gate = MemoryGate::new();
    gate.before(1, 1);
    gate.before(2, 1);
    gate.after(1, 1);
    assert!(rt; gate.count_before() == 2 && gate.count_after() == 1);
}

// A piece, what the sink answers, and what it has taken then.
const PIECES: [(&[u8], Result<(), Failed>, &[u8]); 4] = [
    (b"ab", Ok(()), b"ab"),
    (b"cdef", Err(Failed), b"abcd"),
    (b"xyz", Err(Failed), b"abcd"),
    (b"ef", Ok(()), b"abcdef"),
];

fn takes_half(sink: &mut MemorySink) -> bool {
    for (piece, answer, taken) in PIECES {
        if sink.put(piece) != answer || sink.bytes() != taken {
            return false;
        }
    }
    sink.faults() == 2
}

/// The second call is to fail, and takes half; the third has no room, and takes nothing.
#[test]
fn a_sink_takes_half_where_it_is_to_fail(rt: HostRuntime) -> Result<(), Fail> {
    let failing = [1].to_vec(rt.alloc())?;
    let mut sink = MemorySink::new(rt.alloc(), 6, failing)?;
    assert!(rt; takes_half(&mut sink));
    Ok(())
}

fn stands(clock: &mut MemoryClock) -> bool {
    for now in [Ok(1_000_000_000), Err(Failed), Ok(1_000_000_000)] {
        if clock.now() != now {
            return false;
        }
    }
    clock.faults() == 1
}

#[test]
fn a_clock_stands(rt: HostRuntime) -> Result<(), Fail> {
    let mut clock = MemoryClock::new(1_000_000_000, [1].to_vec(rt.alloc())?);
    assert!(rt; stands(&mut clock));
    Ok(())
}
