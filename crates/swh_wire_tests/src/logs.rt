//! How many revisions of a log are told.
use std::alloc::Global;
use std::test::Fail;
use swh_api::reply_to_get;
use swh_base::{Memory, Name};
use swh_graph_fixtures::chain;

fn log_path(alloc: Global, name: &Name) -> Result<Vec<u8>, Memory> {
    let mut digits = [0; 40];
    name.hex(&mut digits);
    let mut path = Vec::new(alloc);
    path.extend_from_slice(b"/api/1/revision/")?;
    path.extend_from_slice(&digits)?;
    path.extend_from_slice(b"/log/")?;
    Ok(path)
}

// How many revisions the log of a chain of one and so many more tells.
fn told(alloc: Global, more: u32) -> Result<usize, Fail> {
    let Some(chain) = chain(alloc, more) else {
        return Err(Fail::from("a chain"));
    };
    let path = log_path(alloc, &chain.last)?;
    let reply = reply_to_get(alloc, &chain.shown, path.as_slice())?;
    // Each id has its quotes, and a bracket or a comma before it.
    Ok(reply.body.as_slice().len() / 43)
}

#[test]
fn a_hundred_revisions_of_a_log_are_told(rt: HostRuntime) -> Result<(), Fail> {
    assert_eq!(rt; told(rt.alloc(), 98)?, 99);
    assert_eq!(rt; told(rt.alloc(), 99)?, 100);
    assert_eq!(rt; told(rt.alloc(), 100)?, 100);
    Ok(())
}
