// A disk that fails, and what is answered behind it.
use crate::world::{Row, first_other};
use std::test::Fail;

const VISITS: &[u8] = b"/api/1/origin/https://e.org/p/visits/";

const POST: &[u8] = b"/api/1/load/fast/https://e.org/p/";

const FULL: (u16, bool, &[u8]) = (
    200,
    false,
    b"{\"detail\":\"swh:1:snp:1a8893e6a86f444e8be8e7bda6cb34fb1735a00e\",\
\"origin\":\"https://e.org/p\",\"status\":\"full\",\"visit\":1}",
);

const DISK: (u16, bool, &[u8]) = (500, true, b"{\"error\":\"disk\"}");

// The opening of the second visit is not acknowledged: what is read has one visit.
const BEFORE_THE_VISIT: &[Row] = &[
    ((b"POST", POST, b""), FULL),
    ((b"POST", POST, b""), DISK),
    (
        (b"GET", VISITS, b""),
        (
            200,
            false,
            b"[{\"date\":1000000000,\"origin\":\"https://e.org/p\",\
\"snapshot\":\"1a8893e6a86f444e8be8e7bda6cb34fb1735a00e\",\"status\":\"full\",\"type\":\"fast\",\"visit\":1}]",
        ),
    ),
    ((b"POST", POST, b""), DISK),
    (
        (b"GET", b"/api/1/origin/https://e.org/p/get/", b""),
        (200, false, b"{\"url\":\"https://e.org/p\",\"visits\":1}"),
    ),
];

// The opening is acknowledged, and the mark behind it is not.
const INSIDE_THE_VISIT: &[Row] = &[
    ((b"POST", POST, b""), FULL),
    ((b"POST", POST, b""), DISK),
    (
        (b"GET", VISITS, b""),
        (
            200,
            false,
            b"[{\"date\":1000000000,\"origin\":\"https://e.org/p\",\"snapshot\":null,\
\"status\":\"created\",\"type\":\"fast\",\"visit\":2},\
{\"date\":1000000000,\"origin\":\"https://e.org/p\",\
\"snapshot\":\"1a8893e6a86f444e8be8e7bda6cb34fb1735a00e\",\"status\":\"full\",\"type\":\"fast\",\"visit\":1}]",
        ),
    ),
    ((b"POST", POST, b""), DISK),
];

// Nine calls of the ledger make the archive. Each event then writes its record and its gate, with a barrier after each: a
// stream without commands has four events, an opening, a mark, a batch and a mark.
#[test]
fn a_disk_fails_before_the_visit(rt: HostRuntime) -> Result<(), Fail> {
    let rows = BEFORE_THE_VISIT;
    assert_eq!(rt; first_other(rt.alloc(), &[25], rows)?, rows.len());
    Ok(())
}

#[test]
fn a_disk_fails_inside_the_visit(rt: HostRuntime) -> Result<(), Fail> {
    let rows = INSIDE_THE_VISIT;
    assert_eq!(rt; first_other(rt.alloc(), &[29], rows)?, rows.len());
    Ok(())
}
