// Connections over a keeper, given byte by byte.
use std::alloc::Global;
use std::test::Fail;
use swh_base::Sha1Namer;
use swh_desk::serve_at_keeper;
use swh_fixtures::{Archive, made_archive};
use swh_memory_input::MemoryLink;

const CAME: &[u8] = b"POST /api/1/load/fast/https://e.org/p/ HTTP/1.1\r\nContent-Length: 0\r\n\r\n\
GET /api/1/origin/https://e.org/p/visits/ HTTP/1.1\r\n\r\n";

const WENT: &[u8] =
    b"HTTP/1.1 200 OK\r\nContent-Length: 116\r\nContent-Type: application/json\r\n\r\n\
{\"detail\":\"swh:1:snp:1a8893e6a86f444e8be8e7bda6cb34fb1735a00e\",\"origin\":\"https://e.org/p\",\
\"status\":\"full\",\"visit\":1}\
HTTP/1.1 200 OK\r\nContent-Length: 142\r\nContent-Type: application/json\r\n\r\n\
[{\"date\":1000000000,\"origin\":\"https://e.org/p\",\
\"snapshot\":\"1a8893e6a86f444e8be8e7bda6cb34fb1735a00e\",\"status\":\"full\",\"type\":\"fast\",\"visit\":1}]";

// How many requests were replied to, where the link has these bytes then.
fn served(
    alloc: Global,
    keeper: &mut Archive<Sha1Namer>,
    came: &[u8],
    went: &[u8],
) -> Result<u64, Fail> {
    let mut link = MemoryLink::new(alloc, came.to_vec(alloc)?, 1, 1024, Vec::new(alloc))?;
    let Ok(served) = serve_at_keeper(alloc, &Sha1Namer, keeper, &mut link, 1_000_000_000) else {
        return Err(Fail::from("a connection"));
    };
    if link.bytes() == went {
        Ok(served.requests)
    } else {
        Err(Fail::from("other bytes"))
    }
}

#[test]
fn a_load_and_its_visit(rt: HostRuntime) -> Result<(), Fail> {
    let alloc = rt.alloc();
    let mut keeper = made_archive(alloc, Sha1Namer, &[], &[])?;
    let requests = served(alloc, &mut keeper, CAME, WENT);
    let (_store, _ledger) = keeper.close();
    assert_eq!(rt; requests?, 2);
    Ok(())
}
