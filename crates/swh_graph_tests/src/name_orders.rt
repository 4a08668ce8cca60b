//! In which order names are left, or which is the first that is not held.
use std::alloc::Global;
use std::test::Fail;
use swh_base::Name;
use swh_graph_fixtures::archive_of;
use swh_graph_fixtures::objects::{
    BROKEN, CIRCLE, CUT, EMPTY, FIRST, FOLDER, HEADLESS, LEFT, MERGE, OBJECTS, OF_ABSENT, OF_BLOB,
    OF_RELEASE, ON_CUT, RIGHT, SELF, TO_ABSENT, TO_BLOB, TOP, TREELESS, VERSION_1, WHOLE,
};
use swh_postorder::{OrderFault, postorder};
use swh_replay::Replayed;
use swh_swhid::{core_text, parse_core};

/// Names in the order of leaving, or the first that is entered and not held. Artifacts are given by their core
/// identifiers.
enum Answer {
    Order(&'static [&'static [u8]]),
    NotHeld(&'static [u8]),
}

const ABSENT_CONTENT: &[u8] = b"swh:1:cnt:1111111111111111111111111111111111111111";

/// The file of the broken folder, which stands in it before the folder that is not there either.
const ABSENT_FILE: &[u8] = b"swh:1:cnt:2222222222222222222222222222222222222222";

const CASES: &[(&[u8], Answer)] = &[
    (VERSION_1, Answer::Order(&[VERSION_1])),
    (FOLDER, Answer::Order(&[VERSION_1, FOLDER])),
    // The tree goes before the parents, and what was left before is passed.
    (LEFT, Answer::Order(&[VERSION_1, FOLDER, FIRST, LEFT])),
    // An entry that is met twice is left once, and a revision of another project is not walked to.
    (TOP, Answer::Order(&[EMPTY, VERSION_1, FOLDER, TOP])),
    (
        WHOLE,
        Answer::Order(&[EMPTY, VERSION_1, FOLDER, TOP, FIRST, RIGHT, WHOLE]),
    ),
    (OF_BLOB, Answer::Order(&[VERSION_1, OF_BLOB])),
    (TO_BLOB, Answer::Order(&[VERSION_1, TO_BLOB])),
    // Aliases lead nowhere.
    (SELF, Answer::Order(&[SELF])),
    (CIRCLE, Answer::Order(&[CIRCLE])),
    // The first that is entered, which is not the least.
    (ABSENT_CONTENT, Answer::NotHeld(ABSENT_CONTENT)),
    (BROKEN, Answer::NotHeld(ABSENT_FILE)),
    (
        CUT,
        Answer::NotHeld(b"swh:1:rev:4444444444444444444444444444444444444444"),
    ),
    (
        ON_CUT,
        Answer::NotHeld(b"swh:1:rev:4444444444444444444444444444444444444444"),
    ),
    (
        TREELESS,
        Answer::NotHeld(b"swh:1:dir:6666666666666666666666666666666666666666"),
    ),
    (
        OF_ABSENT,
        Answer::NotHeld(b"swh:1:rev:3333333333333333333333333333333333333333"),
    ),
    (
        TO_ABSENT,
        Answer::NotHeld(b"swh:1:snp:5555555555555555555555555555555555555555"),
    ),
    // The tree is walked to its end before a parent is entered.
    (MERGE, Answer::NotHeld(ABSENT_FILE)),
    (OF_RELEASE, Answer::NotHeld(ABSENT_FILE)),
    (HEADLESS, Answer::NotHeld(ABSENT_FILE)),
];

fn is_spelled(name: &Name, text: &[u8]) -> bool {
    let mut spelled = [0; 50];
    core_text(name, &mut spelled);
    spelled.as_slice() == text
}

fn are_spelled(names: &[Name], texts: &[&[u8]]) -> bool {
    if names.len() != texts.len() {
        return false;
    }
    for (name, text) in names.iter().zip(texts) {
        if !is_spelled(name, text) {
            return false;
        }
    }
    true
}

fn is_answered(alloc: Global, shown: &Replayed, root: Name, answer: &Answer) -> bool {
    match (postorder(alloc, shown, root), answer) {
        (Ok(names), Answer::Order(texts)) => are_spelled(names.as_slice(), texts),
        (Err(OrderFault::NotHeld { name }), Answer::NotHeld(text)) => is_spelled(&name, text),
        _ => false,
    }
}

/// The number of the first case with another answer, or how many there are.
fn first_other(alloc: Global) -> Result<usize, Fail> {
    let Some(shown) = archive_of(alloc, OBJECTS) else {
        return Err(Fail::from("an archive"));
    };
    for (number, (core, answer)) in CASES.iter().enumerate() {
        let Some(root) = parse_core(core) else {
            return Err(Fail::from("a core identifier"));
        };
        if !is_answered(alloc, &shown, root, answer) {
            return Ok(number);
        }
    }
    Ok(CASES.len())
}

#[test]
fn each_walk_leaves_names_in_order(rt: HostRuntime) -> Result<(), Fail> {
    assert_eq!(rt; first_other(rt.alloc())?, CASES.len());
    Ok(())
}
