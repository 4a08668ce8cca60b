// A worked stream, and the names of what it makes.

/// The origin of the worked stream.
pub const URL: &str = "https://e.org/p";

/// A blob and a commit of it.
pub const STREAM: &[u8] = b"blob\nmark :1\ndata 10\nversion 1\n\ncommit refs/heads/main\nmark :2\n\
committer A <a@e.org> 1000000000 +0000\ndata 6\nfirst\n\nM 100644 :1 test.txt\n\n";

/// The ledger of an archive without events.
pub const MADE_LEDGER: &[u8] = b"SWHARC1\n\0";

/// The id of the file of the worked stream, as git gives it.
pub const CONTENT: [u8; 20] =
    *b"\x83\xba\xae\x61\x80\x4e\x65\xcc\x73\xa7\x20\x1a\x72\x52\x75\x0c\x76\x06\x6a\x30";

/// The id of its folder, as git gives it.
pub const DIRECTORY: [u8; 20] =
    *b"\xd8\x32\x9f\xc1\xcc\x93\x87\x80\xff\xdd\x9f\x94\xe0\xd3\x64\xe0\xea\x74\xf5\x79";

/// The id of its commit, as git gives it.
pub const REVISION: [u8; 20] =
    *b"\x29\x5c\x06\x51\xa9\x5b\xa3\x2a\xc5\xe1\x4f\x92\xda\x01\x61\xb1\x22\x94\x2c\xac";

/// The id of its snapshot, by another implementation.
pub const SNAPSHOT: [u8; 20] =
    *b"\x50\x36\xc2\xb4\xa6\x76\xf9\xda\xd6\x0f\xba\xed\x43\x1c\xa2\x1e\xcd\xec\x56\xff";

/// The id of a snapshot without branches, as Software Heritage gives it.
pub const EMPTY_SNAPSHOT: [u8; 20] =
    *b"\x1a\x88\x93\xe6\xa8\x6f\x44\x4e\x8b\xe8\xe7\xbd\xa6\xcb\x34\xfb\x17\x35\xa0\x0e";
