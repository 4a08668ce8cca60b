// Inputs in memory.
use std::alloc::{AllocError, Global};
use std::test::Fail;
use swh_memory::{Input, MemoryOrigins, MemorySource};
use swh_outside::{Failed, Opened, Origins, Source};

// What the calls on the input give, of which the third fails.
const GIVEN: [Result<usize, Failed>; 4] = [Ok(2), Ok(1), Err(Failed), Ok(0)];

fn input(alloc: Global) -> Result<Input, AllocError> {
    Ok(Input {
        path: String::from_str(alloc, "in")?,
        bytes: b"abc".to_vec(alloc)?,
        piece: 2,
        failing: [2].to_vec(alloc)?,
    })
}

// The input `in`, in pieces of 2, where the third opening of an input fails.
fn origins(alloc: Global) -> Result<MemoryOrigins, AllocError> {
    let mut inputs = Vec::new(alloc);
    inputs.push(input(alloc)?)?;
    Ok(MemoryOrigins::new(alloc, inputs, [2].to_vec(alloc)?))
}

fn gives(source: &mut MemorySource) -> bool {
    let mut out = [0; 8];
    for given in GIVEN {
        if source.get(&mut out) != given {
            return false;
        }
    }
    true
}

fn is_given(origins: &mut MemoryOrigins) -> bool {
    match origins.file("in") {
        Opened::Found(mut source) => {
            let is_given = gives(&mut source);
            origins.back(source);
            is_given && origins.path_faults("in") == 1
        }
        Opened::NotFound | Opened::Failed | Opened::Memory => false,
    }
}

#[test]
fn an_input_is_given_in_pieces(rt: HostRuntime) -> Result<(), Fail> {
    let mut origins = origins(rt.alloc())?;
    assert!(rt; is_given(&mut origins));
    Ok(())
}

fn openings_end_so(origins: &mut MemoryOrigins) -> bool {
    matches!(&origins.file("in"), Opened::Found(_))
        && matches!(&origins.file("out"), Opened::NotFound)
        && matches!(&origins.file("in"), Opened::Failed)
        && matches!(&origins.folder("out"), Opened::NotFound)
}

fn are_counted(origins: &MemoryOrigins) -> bool {
    origins.path_faults("in") == 1 && origins.path_faults("out") == 0 && origins.faults() == 1
}

#[test]
fn an_opening_is_counted_at_its_path(rt: HostRuntime) -> Result<(), Fail> {
    let mut origins = origins(rt.alloc())?;
    assert!(rt; openings_end_so(&mut origins));
    assert!(rt; are_counted(&origins));
    Ok(())
}
