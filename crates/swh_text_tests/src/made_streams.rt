// Streams that are made for measuring.
use std::test::Fail;
use swh_gen::job;

// By another implementation of the generator's rule.
const ONE_COMMIT: &[u8] =
    b"commit refs/heads/main\ncommitter G <g@e.org> 1000000000 +0000\ndata 0\nM 644 inline f14\ndata 10\n436792849\n\n";

#[test]
fn one_commit(rt: HostRuntime) -> Result<(), Fail> {
    let text = job(rt.alloc(), 0, 0, 1)?;
    assert!(rt; text.as_slice() == ONE_COMMIT);
    Ok(())
}
