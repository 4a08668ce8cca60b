//! What is answered of visits, of artifacts of each kind, and of SWHIDs whose anchors lead by aliases and releases.
use crate::answered::{Answer, Case, first_other};
use std::test::Fail;
use swh_graph_fixtures::objects::{
    ABOVE, BY_MAIN, BY_TWO, CIRCLE, DANGLING, FOLDER, HEADLESS, OF_ABSENT, OF_BLOB, OF_RELEASE,
    OF_TREE, SELF, TO_ABSENT, TO_BLOB, TO_NONE, TO_SNAPSHOT, TOP, TREELESS, VERSION_1,
};

const NO_ORIGIN: Answer = Answer::Json(404, &[b"{\"error\":\"not found\"}"]);

const VISITS: &[Case] = &[
    (
        (b"GET", &[b"/api/1/origin/https://e.org/p/visits/"], b""),
        Answer::Json(
            200,
            &[
                b"[{\"date\":1000000000,\"origin\":\"https://e.org/p\",\
\"snapshot\":\"1a8893e6a86f444e8be8e7bda6cb34fb1735a00e\",\"status\":\"full\",\"type\":\"fast\",\"visit\":2},\
{\"date\":1000000000,\"origin\":\"https://e.org/p\",\"snapshot\":null,\"status\":\"failed\",\
\"type\":\"fast\",\"visit\":1}]",
            ],
        ),
    ),
    (
        (b"GET", &[b"/api/1/origin/https://e.org/p/get/"], b""),
        Answer::Json(200, &[b"{\"url\":\"https://e.org/p\",\"visits\":2}"]),
    ),
    // A `%` without two digits stands for itself.
    (
        (
            b"GET",
            &[b"/api/1/origin/https://e.org/a%3Bb \"%\xc3%a9/visits/"],
            b"",
        ),
        Answer::Json(
            200,
            &[
                b"[{\"date\":1000000000,\"origin\":\"https://e.org/a%3Bb%20\\\"%25%C3%A9\",\
\"snapshot\":null,\"status\":\"created\",\"type\":\"fast\",\"visit\":1}]",
            ],
        ),
    ),
    (
        (b"GET", &[b"/api/1/origin/https://e.org/P/visits/"], b""),
        NO_ORIGIN,
    ),
    (
        (b"GET", &[b"/api/1/origin/https://e.org/p//get/"], b""),
        NO_ORIGIN,
    ),
];

const OBJECTS: &[Case] = &[
    (
        (
            b"GET",
            &[b"/api/1/snapshot/5fb1c82a4971f2055c8de92e482fd24e66a72738/"],
            b"",
        ),
        Answer::Json(
            200,
            &[
                b"{\"branches\":{\"HEAD\":{\"target\":\"a\",\"target_type\":\"alias\"},\
\"a\":{\"target\":\"b\",\"target_type\":\"alias\"},\"b\":{\"target\":\"c\",\"target_type\":\"alias\"},\
\"c\":{\"target\":\"a\",\"target_type\":\"alias\"}},\"id\":\"5fb1c82a4971f2055c8de92e482fd24e66a72738\"}",
            ],
        ),
    ),
    (
        (
            b"GET",
            &[b"/api/1/snapshot/a6172178753d8f475d2fc04ae78cd3ff0de3d11f/"],
            b"",
        ),
        Answer::Json(
            200,
            &[
                b"{\"branches\":{\"HEAD\":{\"target\":\"a\",\"target_type\":\"alias\"},\"a\":null},\
\"id\":\"a6172178753d8f475d2fc04ae78cd3ff0de3d11f\"}",
            ],
        ),
    ),
    (
        (
            b"GET",
            &[b"/api/1/snapshot/b946e4724fdd49510377065272bb882d27fafbc0/"],
            b"",
        ),
        Answer::Json(
            200,
            &[
                b"{\"branches\":{\"HEAD\":{\"target\":\"83baae61804e65cc73a7201a7252750c76066a30\",\
\"target_type\":\"content\"}},\"id\":\"b946e4724fdd49510377065272bb882d27fafbc0\"}",
            ],
        ),
    ),
    // A release of a directory, and one of a release.
    (
        (
            b"GET",
            &[b"/api/1/release/704c4b2c3588da783d2e1065859877aea5e9d3ae/"],
            b"",
        ),
        Answer::Json(
            200,
            &[
                b"{\"id\":\"704c4b2c3588da783d2e1065859877aea5e9d3ae\",\"name\":\"v3\",\
\"rest\":\"tagger%20A%20<a@e.org>%201000000000%20+0000%0A%0Av3%0A\",\
\"target\":\"183b960ebf98939a814ab7fca1c43e082469c36d\",\"target_type\":\"directory\"}",
            ],
        ),
    ),
    (
        (
            b"GET",
            &[b"/api/1/release/e364719393855c4ab8c04584b9d612d467e41040/"],
            b"",
        ),
        Answer::Json(
            200,
            &[
                b"{\"id\":\"e364719393855c4ab8c04584b9d612d467e41040\",\"name\":\"v2\",\
\"rest\":\"tagger%20A%20<a@e.org>%201000000000%20+0000%0A%0Av2%0A\",\
\"target\":\"ad2dfa6a7246b4fa1b1aa0396c0f93a27ab9a941\",\"target_type\":\"release\"}",
            ],
        ),
    ),
    // A merge whose tree lacks a part, and one after a commit that is not held.
    (
        (
            b"GET",
            &[b"/api/1/revision/56b3025c3595772de2e0271b96b8915259086cb3/log/"],
            b"",
        ),
        Answer::Json(
            200,
            &[
                b"[\"56b3025c3595772de2e0271b96b8915259086cb3\",\"a7436cff730dd408e808913df2fa371564e4e483\",\
\"9fa9d61c8b86092de93771e96230b74ea28bcb7a\",\"295c0651a95ba32ac5e14f92da0161b122942cac\"]",
            ],
        ),
    ),
    (
        (
            b"GET",
            &[b"/api/1/revision/6e4c7141bec69e3dddc3d4e4b4a490c941cd49d6/log/"],
            b"",
        ),
        Answer::Json(
            404,
            &[
                b"{\"error\":\"not held\",\"name\":\"swh:1:rev:4444444444444444444444444444444444444444\"}",
            ],
        ),
    ),
    (
        (
            b"GET",
            &[b"/api/1/directory/183b960ebf98939a814ab7fca1c43e082469c36d/hurt/gone/file/"],
            b"",
        ),
        Answer::Json(
            404,
            &[
                b"{\"error\":\"not held\",\"name\":\"swh:1:dir:2222222222222222222222222222222222222222\"}",
            ],
        ),
    ),
    (
        (
            b"GET",
            &[b"/api/1/directory/183b960ebf98939a814ab7fca1c43e082469c36d/deep//sub/"],
            b"",
        ),
        Answer::Json(404, &[b"{\"component\":1,\"error\":\"no path\"}"]),
    ),
    (
        (b"GET", &[b"/api/1/raw/", CIRCLE, b"/"], b""),
        Answer::Plain(b"alias HEAD\x001:aalias a\x001:balias b\x001:calias c\x001:a"),
    ),
];

const TOP_FOUND: Answer = Answer::Json(
    200,
    &[
        b"{\"object_id\":\"0dc9408261582a21d44fbd14e902f1e9f0e022f8\",\"object_type\":\"directory\"}",
    ],
);

const NO_ROOT: Answer = Answer::Json(404, &[b"{\"component\":0,\"error\":\"no path\"}"]);

const ANCHORS: &[Case] = &[
    // By one alias, by two to a release of a release, by another snapshot, and from a release of a directory.
    (
        (
            b"GET",
            &[
                b"/api/1/resolve/",
                TOP,
                b";anchor=",
                BY_MAIN,
                b";path=/deep/",
            ],
            b"",
        ),
        TOP_FOUND,
    ),
    (
        (
            b"GET",
            &[
                b"/api/1/resolve/",
                TOP,
                b";anchor=",
                BY_TWO,
                b";path=/%64eep/",
            ],
            b"",
        ),
        TOP_FOUND,
    ),
    (
        (
            b"GET",
            &[
                b"/api/1/resolve/",
                TOP,
                b";anchor=",
                TO_SNAPSHOT,
                b";path=/deep/",
            ],
            b"",
        ),
        TOP_FOUND,
    ),
    (
        (
            b"GET",
            &[
                b"/api/1/resolve/",
                TOP,
                b";anchor=",
                OF_RELEASE,
                b";path=/deep/",
            ],
            b"",
        ),
        TOP_FOUND,
    ),
    (
        (
            b"GET",
            &[
                b"/api/1/resolve/",
                TOP,
                b";anchor=",
                OF_TREE,
                b";path=/deep/",
            ],
            b"",
        ),
        TOP_FOUND,
    ),
    // What has no root: circles, an alias of nothing and of no branch, no `HEAD`, and a content.
    (
        (
            b"GET",
            &[
                b"/api/1/resolve/",
                TOP,
                b";anchor=",
                CIRCLE,
                b";path=/deep/",
            ],
            b"",
        ),
        NO_ROOT,
    ),
    (
        (
            b"GET",
            &[b"/api/1/resolve/", TOP, b";anchor=", SELF, b";path=/deep/"],
            b"",
        ),
        NO_ROOT,
    ),
    (
        (
            b"GET",
            &[
                b"/api/1/resolve/",
                TOP,
                b";anchor=",
                DANGLING,
                b";path=/deep/",
            ],
            b"",
        ),
        NO_ROOT,
    ),
    (
        (
            b"GET",
            &[
                b"/api/1/resolve/",
                TOP,
                b";anchor=",
                TO_NONE,
                b";path=/deep/",
            ],
            b"",
        ),
        NO_ROOT,
    ),
    (
        (
            b"GET",
            &[
                b"/api/1/resolve/",
                TOP,
                b";anchor=",
                HEADLESS,
                b";path=/deep/",
            ],
            b"",
        ),
        NO_ROOT,
    ),
    (
        (
            b"GET",
            &[
                b"/api/1/resolve/",
                VERSION_1,
                b";anchor=",
                TO_BLOB,
                b";path=//",
            ],
            b"",
        ),
        NO_ROOT,
    ),
    (
        (
            b"GET",
            &[
                b"/api/1/resolve/",
                VERSION_1,
                b";anchor=",
                OF_BLOB,
                b";path=//",
            ],
            b"",
        ),
        NO_ROOT,
    ),
    // What is not held on the way, and a path that leads to another object.
    (
        (
            b"GET",
            &[
                b"/api/1/resolve/",
                TOP,
                b";anchor=",
                OF_ABSENT,
                b";path=/deep/",
            ],
            b"",
        ),
        Answer::Json(
            404,
            &[
                b"{\"error\":\"not held\",\"name\":\"swh:1:rev:3333333333333333333333333333333333333333\"}",
            ],
        ),
    ),
    (
        (
            b"GET",
            &[
                b"/api/1/resolve/",
                TOP,
                b";anchor=",
                TO_ABSENT,
                b";path=/deep/",
            ],
            b"",
        ),
        Answer::Json(
            404,
            &[
                b"{\"error\":\"not held\",\"name\":\"swh:1:snp:5555555555555555555555555555555555555555\"}",
            ],
        ),
    ),
    (
        (
            b"GET",
            &[
                b"/api/1/resolve/",
                TOP,
                b";anchor=",
                TREELESS,
                b";path=/deep/",
            ],
            b"",
        ),
        Answer::Json(
            404,
            &[
                b"{\"error\":\"not held\",\"name\":\"swh:1:dir:6666666666666666666666666666666666666666\"}",
            ],
        ),
    ),
    (
        (
            b"GET",
            &[
                b"/api/1/resolve/",
                FOLDER,
                b";anchor=",
                ABOVE,
                b";path=/deep/sub/test.txt/",
            ],
            b"",
        ),
        Answer::Json(404, &[b"{\"component\":3,\"error\":\"no path\"}"]),
    ),
    // The anchor is held before the core's path is looked at, and the core before the anchor.
    (
        (
            b"GET",
            &[
                b"/api/1/resolve/swh:1:cnt:1111111111111111111111111111111111111111;anchor=",
                OF_ABSENT,
                b";path=/deep/",
            ],
            b"",
        ),
        Answer::Json(
            404,
            &[
                b"{\"error\":\"not held\",\"name\":\"swh:1:cnt:1111111111111111111111111111111111111111\"}",
            ],
        ),
    ),
];

#[test]
fn visits_are_listed_and_counted(rt: HostRuntime) -> Result<(), Fail> {
    assert_eq!(rt; first_other(rt.alloc(), VISITS)?, VISITS.len());
    Ok(())
}

#[test]
fn each_object_is_told(rt: HostRuntime) -> Result<(), Fail> {
    assert_eq!(rt; first_other(rt.alloc(), OBJECTS)?, OBJECTS.len());
    Ok(())
}

#[test]
fn each_anchor_is_followed(rt: HostRuntime) -> Result<(), Fail> {
    assert_eq!(rt; first_other(rt.alloc(), ANCHORS)?, ANCHORS.len());
    Ok(())
}
