// Words of a run: those that are commands, and those that are none.
use std::alloc::{AllocError, Global};
use std::test::Fail;
use swh_words::parse_words;

// What comes of the words between the spaces, as it is printed.
fn printed(alloc: Global, line: &str) -> Result<String, AllocError> {
    let mut words = Vec::new(alloc);
    for word in line.split(' ') {
        words.push(String::from_str(alloc, word)?)?;
    }
    let found = parse_words(alloc, words.as_slice());
    format!(in alloc; "{found:?}")
}

static PRINTED: [(&str, &str); 37] = [
    ("init A", "Ok(Init { dir: \"A\" })"),
    ("init -- -B", "Ok(Init { dir: \"-B\" })"),
    ("load A J", "Ok(Load { dir: \"A\", jobs: \"J\" })"),
    ("ask A /x", "Ok(Ask { dir: \"A\", paths: [\"/x\"] })"),
    (
        "ask A /x /y - ",
        "Ok(Ask { dir: \"A\", paths: [\"/x\", \"/y\", \"-\", \"\"] })",
    ),
    ("ask -- A -x", "Ok(Ask { dir: \"A\", paths: [\"-x\"] })"),
    (
        "ask A -- --x --",
        "Ok(Ask { dir: \"A\", paths: [\"--x\", \"--\"] })",
    ),
    ("check A", "Ok(Check { dir: \"A\" })"),
    ("check -- -B", "Ok(Check { dir: \"-B\" })"),
    (
        "identify cnt f",
        "Ok(Identify { kind: Content, path: \"f\" })",
    ),
    (
        "identify rev f",
        "Ok(Identify { kind: Revision, path: \"f\" })",
    ),
    (
        "identify rel f",
        "Ok(Identify { kind: Release, path: \"f\" })",
    ),
    (
        "identify snp f",
        "Ok(Identify { kind: Snapshot, path: \"f\" })",
    ),
    ("identify dir f", "Ok(IdentifyFolder { path: \"f\" })"),
    ("", "Err(Words)"),
    ("help", "Err(Words)"),
    ("--help", "Err(Words)"),
    ("--version", "Err(Words)"),
    ("make A", "Err(Words)"),
    ("-- init A", "Err(Words)"),
    ("init", "Err(Words)"),
    ("init -h", "Err(Words)"),
    ("init -A", "Err(Words)"),
    ("init A B", "Err(Words)"),
    ("load A", "Err(Words)"),
    ("load A J K", "Err(Words)"),
    ("ask A", "Err(Words)"),
    ("ask A --x", "Err(Words)"),
    ("ask A -x", "Err(Words)"),
    ("ask A /x --y", "Err(Words)"),
    ("check", "Err(Words)"),
    ("check A B", "Err(Words)"),
    ("check -A", "Err(Words)"),
    ("identify cnt", "Err(Words)"),
    ("identify cnt f g", "Err(Words)"),
    ("identify tree f", "Err(Words)"),
    ("identify blob f", "Err(Words)"),
];

#[test]
fn commands_of_words(rt: HostRuntime) -> Result<(), Fail> {
    for (words, command) in &PRINTED {
        let found = printed(rt.alloc(), words)?;
        assert!(rt; found.as_str() == *command, "{words:?}");
    }
    Ok(())
}

#[test]
fn no_words_at_all(rt: HostRuntime) {
    assert!(rt; parse_words(rt.alloc(), &[]).is_err());
}
