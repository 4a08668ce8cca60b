// Posted streams, and what is read behind them.
use crate::world::{Row, first_other};
use std::test::Fail;
use swh_fixtures::STREAM;

const VISITS: &[u8] = b"/api/1/origin/https://e.org/p/visits/";

const POST: &[u8] = b"/api/1/load/fast/https://e.org/p/";

// A connection of the papers: a stream without commands, and its visit. Then a HEAD, the same stream again, and streams that
// break.
const OF_ONE_ORIGIN: &[Row] = &[
    (
        (b"GET", VISITS, b""),
        (404, false, b"{\"error\":\"not found\"}"),
    ),
    (
        (b"POST", POST, b""),
        (
            200,
            false,
            b"{\"detail\":\"swh:1:snp:1a8893e6a86f444e8be8e7bda6cb34fb1735a00e\",\
\"origin\":\"https://e.org/p\",\"status\":\"full\",\"visit\":1}",
        ),
    ),
    (
        (b"GET", VISITS, b""),
        (
            200,
            false,
            b"[{\"date\":1000000000,\"origin\":\"https://e.org/p\",\
\"snapshot\":\"1a8893e6a86f444e8be8e7bda6cb34fb1735a00e\",\"status\":\"full\",\"type\":\"fast\",\"visit\":1}]",
        ),
    ),
    (
        (b"HEAD", VISITS, b""),
        (
            200,
            false,
            b"[{\"date\":1000000000,\"origin\":\"https://e.org/p\",\
\"snapshot\":\"1a8893e6a86f444e8be8e7bda6cb34fb1735a00e\",\"status\":\"full\",\"type\":\"fast\",\"visit\":1}]",
        ),
    ),
    (
        (b"POST", POST, b""),
        (
            200,
            false,
            b"{\"detail\":\"swh:1:snp:1a8893e6a86f444e8be8e7bda6cb34fb1735a00e\",\
\"origin\":\"https://e.org/p\",\"status\":\"full\",\"visit\":2}",
        ),
    ),
    (
        (b"POST", POST, b"feature done\n"),
        (
            200,
            false,
            b"{\"detail\":\"stream 13 end\",\"origin\":\"https://e.org/p\",\"status\":\"failed\",\"visit\":3}",
        ),
    ),
    // What is no load: another method, and a text that is no URL.
    (
        (b"HEAD", POST, b""),
        (405, false, b"{\"error\":\"method\"}"),
    ),
    (
        (b"POST", b"/api/1/load/fast//", STREAM),
        (400, false, b"{\"error\":\"swhid\"}"),
    ),
    (
        (b"GET", b"/api/1/origin/https://e.org/p/get/", b""),
        (200, false, b"{\"url\":\"https://e.org/p\",\"visits\":3}"),
    ),
];

// A blob and a commit of it, for an origin whose text is escaped; and what is held then, by the names that git gives.
const OF_ONE_COMMIT: &[Row] = &[
    (
        (
            b"GET",
            b"/api/1/raw/swh:1:cnt:83baae61804e65cc73a7201a7252750c76066a30/",
            b"",
        ),
        (
            404,
            false,
            b"{\"error\":\"not held\",\"name\":\"swh:1:cnt:83baae61804e65cc73a7201a7252750c76066a30\"}",
        ),
    ),
    (
        (b"POST", b"/api/1/load/fast/a%3Bb%22/", STREAM),
        (
            200,
            false,
            b"{\"detail\":\"swh:1:snp:5036c2b4a676f9dad60fbaed431ca21ecdec56ff\",\
\"origin\":\"a%3Bb\\\"\",\"status\":\"full\",\"visit\":1}",
        ),
    ),
    (
        (
            b"GET",
            b"/api/1/raw/swh:1:cnt:83baae61804e65cc73a7201a7252750c76066a30/",
            b"",
        ),
        (200, false, b"version 1\n"),
    ),
    (
        (
            b"GET",
            b"/api/1/revision/295c0651a95ba32ac5e14f92da0161b122942cac/log/",
            b"",
        ),
        (
            200,
            false,
            b"[\"295c0651a95ba32ac5e14f92da0161b122942cac\"]",
        ),
    ),
];

#[test]
fn streams_of_one_origin(rt: HostRuntime) -> Result<(), Fail> {
    assert_eq!(rt;
        first_other(rt.alloc(), &[], OF_ONE_ORIGIN)?,
        OF_ONE_ORIGIN.len()
    );
    Ok(())
}

#[test]
fn a_commit_is_held(rt: HostRuntime) -> Result<(), Fail> {
    assert_eq!(rt;
        first_other(rt.alloc(), &[], OF_ONE_COMMIT)?,
        OF_ONE_COMMIT.len()
    );
    Ok(())
}
