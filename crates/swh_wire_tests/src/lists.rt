//! Which of the names that a body lists are held.
use crate::answered::{Answer, Case, archive, first_other};
use std::alloc::{AllocError, Global};
use std::test::Fail;
use swh_api::{Route, reply, route};
use swh_base::{Bytes, Request};

const PATH: &[&[u8]] = &[b"/api/1/known/"];

const NO_LIST: Answer = Answer::Json(400, &[b"{\"error\":\"json\"}"]);

const LISTS: &[Case] = &[
    ((b"POST", PATH, b"[]"), Answer::Json(200, &[b"{}"])),
    // In the order of their bytes, and once where one stands twice.
    (
        (
            b"POST",
            PATH,
            b"[\"swh:1:snp:5fb1c82a4971f2055c8de92e482fd24e66a72738\",\
\"swh:1:cnt:e69de29bb2d1d6434b8b29ae775ad8c2e48c5391\",\"swh:1:rev:295c0651a95ba32ac5e14f92da0161b122942cac\",\
\"swh:1:rel:295c0651a95ba32ac5e14f92da0161b122942cac\",\"swh:1:cnt:83baae61804e65cc73a7201a7252750c76066a30\",\
\"swh:1:cnt:e69de29bb2d1d6434b8b29ae775ad8c2e48c5391\"]",
        ),
        Answer::Json(
            200,
            &[
                b"{\"swh:1:cnt:83baae61804e65cc73a7201a7252750c76066a30\":{\"known\":true},\
\"swh:1:cnt:e69de29bb2d1d6434b8b29ae775ad8c2e48c5391\":{\"known\":true},\
\"swh:1:rel:295c0651a95ba32ac5e14f92da0161b122942cac\":{\"known\":false},\
\"swh:1:rev:295c0651a95ba32ac5e14f92da0161b122942cac\":{\"known\":true},\
\"swh:1:snp:5fb1c82a4971f2055c8de92e482fd24e66a72738\":{\"known\":true}}",
            ],
        ),
    ),
    ((b"POST", PATH, b""), NO_LIST),
    ((b"POST", PATH, b"[0]"), NO_LIST),
    ((b"POST", PATH, b"{}"), NO_LIST),
    (
        (
            b"POST",
            PATH,
            b"[\"swh:1:cnt:e69de29bb2d1d6434b8b29ae775ad8c2e48c5391;lines=1\"]",
        ),
        NO_LIST,
    ),
];

#[test]
fn each_list_is_answered(rt: HostRuntime) -> Result<(), Fail> {
    assert_eq!(rt; first_other(rt.alloc(), LISTS)?, LISTS.len());
    Ok(())
}

// A body of 67,108,864 bytes, as many as may be: `[0,0,..,0 ]`.
fn zeros(alloc: Global) -> Result<Vec<u8>, AllocError> {
    let mut body = b"[0".to_vec(alloc)?;
    body.try_reserve(67_108_862)?;
    for _ in 0..33_554_430 {
        body.extend_from_slice(b",0")?;
    }
    body.extend_from_slice(b" ]")?;
    Ok(body)
}

// The status of the reply to a list of zeros.
fn status_of_zeros(alloc: Global) -> Result<u16, Fail> {
    let shown = archive(alloc)?;
    let request = Request {
        method: Bytes::from_slice(alloc, b"POST")?,
        path: Bytes::from_slice(alloc, b"/api/1/known/")?,
        body: Bytes::from_vec(zeros(alloc)?),
        keep: true,
    };
    match route(alloc, &request)? {
        Route::Read => Ok(reply(alloc, &shown, &request)?.status),
        Route::Load { .. } => Err(Fail::from("a load")),
    }
}

#[test]
fn a_long_list_of_no_names_is_refused(rt: HostRuntime) -> Result<(), Fail> {
    assert_eq!(rt; status_of_zeros(rt.alloc())?, 400);
    Ok(())
}
