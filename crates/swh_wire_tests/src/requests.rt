//! Which requests are loads, and the order in which others are refused: the path, its method, the texts in it, what is
//! held.
use crate::answered::{Answer, Case, first_other};
use std::test::Fail;
use swh_graph_fixtures::objects::VERSION_1;

const NO_PATH: Answer = Answer::Json(404, &[b"{\"error\":\"not found\"}"]);

const METHOD: Answer = Answer::Json(405, &[b"{\"error\":\"method\"}"]);

const NO_TEXT: Answer = Answer::Json(400, &[b"{\"error\":\"swhid\"}"]);

const LOADS: &[Case] = &[
    (
        (b"POST", &[b"/api/1/load/fast/https://e.org/p/"], b"stream"),
        Answer::Load("https://e.org/p"),
    ),
    (
        (b"POST", &[b"/api/1/load/fast/a%3bb%20%C3%a9%/?x/"], b""),
        Answer::Load("a;b \u{e9}%"),
    ),
    (
        (b"POST", &[b"/api/1/load/fast/fast///"], b""),
        Answer::Load("fast//"),
    ),
    // Another method, and then what is no URL: no bytes, bytes below a space, and bytes that are no UTF-8.
    (
        (b"GET", &[b"/api/1/load/fast/https://e.org/p/"], b""),
        METHOD,
    ),
    (
        (b"post", &[b"/api/1/load/fast/https://e.org/p/"], b""),
        METHOD,
    ),
    ((b"PUT", &[b"/api/1/load/fast//"], b""), METHOD),
    ((b"POST", &[b"/api/1/load/fast//"], b""), NO_TEXT),
    ((b"POST", &[b"/api/1/load/fast/a%09/"], b""), NO_TEXT),
    ((b"POST", &[b"/api/1/load/fast/a\xff/"], b""), NO_TEXT),
    // No path of a load.
    ((b"POST", &[b"/api/1/load/fast/"], b""), NO_PATH),
    (
        (b"POST", &[b"/api/1/load/fast/https://e.org/p"], b""),
        NO_PATH,
    ),
    (
        (b"POST", &[b"/api/1/load/dir/https://e.org/p/"], b""),
        NO_PATH,
    ),
];

const REFUSALS: &[Case] = &[
    // Without a path the method is not looked at.
    ((b"GET", &[b"/x"], b""), NO_PATH),
    ((b"DELETE", &[b"/x"], b""), NO_PATH),
    ((b"POST", &[b"/api/1/cook/", VERSION_1], b""), NO_PATH),
    // With another method nothing else is looked at: no id, no URL, no body, and nothing that is held or not.
    ((b"DELETE", &[b"/api/1/known/"], b""), METHOD),
    ((b"GET", &[b"/api/1/known/"], b"["), METHOD),
    ((b"", &[b"/api/1/origin//visits/"], b""), METHOD),
    (
        (
            b"POST",
            &[b"/api/1/release/1111111111111111111111111111111111111111/"],
            b"",
        ),
        METHOD,
    ),
    ((b"POST", &[b"/api/1/raw/", VERSION_1, b"/"], b""), METHOD),
    (
        (b"GETS", &[b"/api/1/resolve/", VERSION_1, b"/"], b""),
        METHOD,
    ),
    // A text that is none, where what else is named is not held.
    (
        (
            b"GET",
            &[
                b"/api/1/resolve/swh:1:cnt:1111111111111111111111111111111111111111;anchor=",
                VERSION_1,
                b"/",
            ],
            b"",
        ),
        NO_TEXT,
    ),
    (
        (
            b"GET",
            &[b"/api/1/directory/111111111111111111111111111111111111111/none/"],
            b"",
        ),
        NO_TEXT,
    ),
    ((b"GET", &[b"/api/1/origin//get/"], b""), NO_TEXT),
    // A GET may have a body, which is not looked at.
    (
        (
            b"GET",
            &[b"/api/1/origin/https://none.example/get/"],
            b"body",
        ),
        NO_PATH,
    ),
];

// A path that is asked by GET is asked by HEAD too, and has the same reply. Others are not.
const HEADS: &[Case] = &[
    (
        (b"HEAD", &[b"/api/1/origin/https://e.org/p/get/"], b""),
        Answer::Json(200, &[b"{\"url\":\"https://e.org/p\",\"visits\":2}"]),
    ),
    (
        (b"HEAD", &[b"/api/1/raw/", VERSION_1, b"/"], b""),
        Answer::Plain(b"version 1\n"),
    ),
    ((b"HEAD", &[b"/x"], b""), NO_PATH),
    (
        (b"HEAD", &[b"/api/1/origin/https://none.example/get/"], b""),
        NO_PATH,
    ),
    ((b"HEAD", &[b"/api/1/revision/x/"], b""), NO_TEXT),
    ((b"HEAD", &[b"/api/1/known/"], b"[]"), METHOD),
    (
        (b"HEAD", &[b"/api/1/load/fast/https://e.org/p/"], b""),
        METHOD,
    ),
    ((b"head", &[b"/api/1/raw/", VERSION_1, b"/"], b""), METHOD),
];

#[test]
fn each_load_is_told(rt: HostRuntime) -> Result<(), Fail> {
    assert_eq!(rt; first_other(rt.alloc(), LOADS)?, LOADS.len());
    Ok(())
}

#[test]
fn each_refusal_is_in_order(rt: HostRuntime) -> Result<(), Fail> {
    assert_eq!(rt; first_other(rt.alloc(), REFUSALS)?, REFUSALS.len());
    Ok(())
}

#[test]
fn a_head_is_answered_as_a_get_is(rt: HostRuntime) -> Result<(), Fail> {
    assert_eq!(rt; first_other(rt.alloc(), HEADS)?, HEADS.len());
    Ok(())
}
