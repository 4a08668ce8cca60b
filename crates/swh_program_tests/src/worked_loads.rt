// Inputs of all kinds that jobs load.
use Laid::{Bytes, List};
use What::File;
use swh_fixtures::STREAM;
use swh_outside::What;
use swh_program_fixtures::{BARE, Laid, Layout, Piece, Setting, StandingFile, StandingFolder};

/// A program and a link, both as files.
pub const TWO: Layout<'static> = &[
    ("", List(&[("run", File), ("ln", File)])),
    ("run", Bytes(b"hi\n")),
    ("ln", Bytes(b"run")),
];

/// The commit of the worked stream and its tree, as git's objects.
pub const NO_BLOB: &[u8] = b"295c0651a95ba32ac5e14f92da0161b122942cac commit 128\n\
tree d8329fc1cc938780ffdd9f94e0d364e0ea74f579\n\
author A <a@e.org> 1000000000 +0000\n\
committer A <a@e.org> 1000000000 +0000\n\
\n\
first\n\
\n\
d8329fc1cc938780ffdd9f94e0d364e0ea74f579 tree 36\n\
100644 test.txt\0\x83\xba\xae\x61\x80\x4e\x65\xcc\x73\xa7\x20\x1a\x72\x52\x75\x0c\x76\x06\x6a\x30\n";

/// Its blob.
pub const BLOB: &[u8] = b"83baae61804e65cc73a7201a7252750c76066a30 blob 10\nversion 1\n\n";

/// The whole batch has 327 bytes, its refs 57, and the listing 20.
pub const OBJECTS: &[Piece<'static>] = &[Piece::Text(NO_BLOB), Piece::Text(BLOB)];

pub const REFS: &[Piece<'static>] = &[Piece::Text(
    b"295c0651a95ba32ac5e14f92da0161b122942cac refs/heads/main\n",
)];

pub const MODES: &[Piece<'static>] = &[Piece::Text(b"100755 run\n120000 ln\n")];

const FILES: &[StandingFile<'static>] = &[
    ("m", MODES, None),
    ("b", OBJECTS, None),
    ("r", REFS, None),
];

const FOLDERS: &[StandingFolder<'static>] = &[("d", TWO, None)];

/// The worked stream, a folder with a listing, and a batch with its refs.
pub const PARTS: Setting<'static> = Setting {
    input: Some(&[Piece::Text(STREAM)]),
    files: FILES,
    folders: FOLDERS,
    ..BARE
};
