// The words of runs, and what several tables share.
use crate::pieces::Piece;
use crate::setting::{BARE, Setting};
use swh_fixtures::STREAM;

pub const INIT: &[&str] = &["init", "A"];

pub const LOAD: &[&str] = &["load", "A", "J"];

/// Asks for the visits of the worked stream's origin.
pub const ASK: &[&str] = &["ask", "A", "/api/1/origin/https://e.org/p/visits/"];

pub const CHECK: &[&str] = &["check", "A"];

/// The job of the worked stream.
const JOB: &[Piece<'static>] = &[Piece::Text(b"fast\thttps://e.org/p\te\n")];

/// That job, and one of another origin and the other input.
pub const TWO_JOBS: &[Piece<'static>] = &[Piece::Text(
    b"fast\thttps://e.org/p\te\nfast\thttps://e.org/a\tf\n",
)];

/// The first job, and the stream.
pub const LOADING: Setting<'static> = Setting {
    jobs: Some(JOB),
    input: Some(&[Piece::Text(STREAM)]),
    ..BARE
};

/// The archive once the stream was loaded.
pub const LOADED: Setting<'static> = Setting {
    ledger: Some(LEDGER),
    store: STORE,
    ..LOADING
};

/// The ledger once the stream was loaded into a new archive.
pub const LEDGER: &[u8] =
    b"SWHARC1\n\x01O\x00\x00\x00\x1c\x00\x00\x00\x01\x01\x00\x00\x00\x00;\x9a\xca\x00https://e.org/p\x01T\
\x00\x00\x00\x1d\x00\x00\x00\x01\x02\x00\x00\x00\x00\x00\x00\x00\x01\x00https://e.org/p\x01B\x00\x00\
\x00\x18\x00\x00\x00\x01\x00\x00\x00\x00\x00\x00\x00\x00\x00\x00\x00\x00\x00\x00\x01R\x00\x00\x00\
\x04\x01T\x00\x00\x001\x00\x00\x00\x01\x03\x00\x00\x00\x00\x00\x00\x00\x01\x01P6\xc2\xb4\xa6v\xf9\
\xda\xd6\x0f\xba\xedC\x1c\xa2\x1e\xcd\xecV\xffhttps://e.org/p\x00";

/// The store then.
pub const STORE: &[u8] =
    b"\x01\x00\x00\x00\x00\x00\x00\x00\n\x83\xba\xaea\x80Ne\xccs\xa7 \x1arRu\x0cv\x06j0version 1\n\x02\x00\
\x00\x00\x00\x00\x00\x00$\xd82\x9f\xc1\xcc\x93\x87\x80\xff\xdd\x9f\x94\xe0\xd3d\xe0\xeat\xf5y100644 \
test.txt\x00\x83\xba\xaea\x80Ne\xccs\xa7 \x1arRu\x0cv\x06j0\x03\x00\x00\x00\x00\x00\x00\x00\x80)\\\
\x06Q\xa9[\xa3*\xc5\xe1O\x92\xda\x01a\xb1\"\x94,\xactree d8329fc1cc938780ffdd9f94e0d364e0ea74f579\na\
uthor A <a@e.org> 1000000000 +0000\ncommitter A <a@e.org> 1000000000 +0000\n\nfirst\n\x05\x00\x00\
\x00\x00\x00\x00\x000P6\xc2\xb4\xa6v\xf9\xda\xd6\x0f\xba\xedC\x1c\xa2\x1e\xcd\xecV\xffrevision refs/\
heads/main\x0020:)\\\x06Q\xa9[\xa3*\xc5\xe1O\x92\xda\x01a\xb1\"\x94,\xac";
