//! The limits of a batch, each exact and one above.
use crate::model_told::{Told, told_of};
use crate::wished::begun;
use std::alloc::Global;
use std::test::Fail;
use swh_base::{ByteNamer, Entry, Items, Kind, Memory, Name, Shared, Which};
use swh_model::{Wish, judge};

/// A batch of so many entries of this length, all the same, and behind them one of a byte, or none; and what is told of it
/// after the empty history.
struct Case {
    length: usize,
    copies: u32,
    more: bool,
    told: Told,
}

const BODIES: &[Case] = &[
    // A body has 67,108,864 bytes at most.
    Case {
        length: 67_108_864,
        copies: 1,
        more: false,
        told: Told::Added(1, 1),
    },
    Case {
        length: 67_108_865,
        copies: 1,
        more: false,
        told: Told::Limit(Which::Body, 67_108_865),
    },
];

const BATCHES: &[Case] = &[
    // A batch has 4,096 objects at most, of which each is new once.
    Case {
        length: 1,
        copies: 4_096,
        more: false,
        told: Told::Added(1, 1),
    },
    Case {
        length: 1,
        copies: 4_097,
        more: false,
        told: Told::Limit(Which::Objects, 4_097),
    },
    // The last body may pass 8,388,608 bytes.
    Case {
        length: 8_388_608,
        copies: 1,
        more: true,
        told: Told::Added(1, 2),
    },
    Case {
        length: 8_388_609,
        copies: 1,
        more: true,
        told: Told::Limit(Which::Bytes, 8_388_609),
    },
    Case {
        length: 8_388_609,
        copies: 1,
        more: false,
        told: Told::Added(1, 1),
    },
];

/// An entry of this many zeros.
fn zeros(alloc: Global, length: usize, number: u8) -> Result<Entry, Memory> {
    let mut body: Vec<u8> = Vec::new(alloc);
    body.resize(length, 0)?;
    let mut id = [0; 20];
    id[0] = number;
    Ok(Entry {
        name: Name {
            kind: Kind::Content,
            id,
        },
        body: Shared::from_vec(body)?,
        kids: Shared::from_vec(Vec::new(alloc))?,
    })
}

fn entries_of(alloc: Global, case: &Case) -> Result<Vec<Entry>, Memory> {
    let entry = zeros(alloc, case.length, 0)?;
    let mut entries = Vec::new(alloc);
    for _copy in 0..case.copies {
        entries.push(entry.again()?)?;
    }
    if case.more {
        entries.push(zeros(alloc, 1, 1)?)?;
    }
    Ok(entries)
}

fn tell_case(alloc: Global, case: &Case) -> Result<Told, Memory> {
    let wish = Wish::Batch(Items::from_vec(entries_of(alloc, case)?));
    let history = begun(alloc, &ByteNamer);
    match judge(alloc, history.as_slice(), 1, &wish) {
        Ok((_event, outcome)) => Ok(told_of(Ok(outcome))),
        Err(fault) => Ok(told_of(Err(fault))),
    }
}

fn is_exact(alloc: Global, cases: &[Case]) -> Result<bool, Memory> {
    for case in cases {
        if tell_case(alloc, case)? != case.told {
            return Ok(false);
        }
    }
    Ok(true)
}

#[test]
fn the_limit_of_a_body_is_exact(rt: HostRuntime) -> Result<(), Fail> {
    assert!(rt; is_exact(rt.alloc(), BODIES)?);
    Ok(())
}

#[test]
fn the_limits_of_a_batch_are_exact(rt: HostRuntime) -> Result<(), Fail> {
    assert!(rt; is_exact(rt.alloc(), BATCHES)?);
    Ok(())
}
