// An archive of one loaded stream.
use swh_program_fixtures::{BARE, Piece, Setting};

// A merge, a program, a link, a revision of another project, names that are escaped, and releases of a revision, of a
// release and of a content.
const STREAM: &[u8] =
    b"blob\nmark :1\ndata 10\nversion 1\n\nblob\nmark :2\ndata 3\nhi\n\nblob\nmark :3\ndata 0\n\n\
commit refs/heads/main\nmark :4\ncommitter A <a@e.org> 1000000000 +0000\ndata 6\nfirst\n\n\
M 100644 :1 test.txt\nM 100755 :2 a;b/50% \xc3\xa9\nM 120000 :2 a;b/link\n\
M 160000 295c0651a95ba32ac5e14f92da0161b122942cac module\n\ncommit refs/heads/\xc3\xa9\nmark :5\n\
committer A <a@e.org> 1000000000 +0000\ndata 5\nside\nfrom :4\nD a;b\n\ncommit refs/heads/main\nmark :6\n\
committer A <a@e.org> 1000000000 +0000\ndata 6\nmerge\nfrom :4\nmerge :5\nM 100644 :3 empty\n\ntag v1\n\
mark :7\nfrom :6\ntagger A <a@e.org> 1000000000 +0000\ndata 3\nv1\ntag v2\nmark :8\nfrom :7\n\
tagger A <a@e.org> 1000000000 +0000\ndata 3\nv2\ntag 50%;v3\nmark :9\nfrom :1\ndata 3\nv3\n";

/// The stream and its job, with a head. The ids in the rows are git's of its objects; that of the snapshot is what
/// `git hash-object --literally -t snapshot` says of its body.
pub const LOADING: Setting<'static> = Setting {
    jobs: Some(&[Piece::Text(b"fast\thttps://e.org/a;b 50% \xc3\xa9\te\trefs/heads/main\n")]),
    input: Some(&[Piece::Text(STREAM)]),
    ..BARE
};
