//! The objects that the calls are asked about. git names them so (`git hash-object`); the names of the snapshots are by
//! another implementation.
use swh_base::Kind;

/// No bytes.
pub const EMPTY: &[u8] = b"swh:1:cnt:e69de29bb2d1d6434b8b29ae775ad8c2e48c5391";

/// A line.
pub const VERSION_1: &[u8] = b"swh:1:cnt:83baae61804e65cc73a7201a7252750c76066a30";

/// A folder of one file.
pub const FOLDER: &[u8] = b"swh:1:dir:d8329fc1cc938780ffdd9f94e0d364e0ea74f579";

/// A commit without parents.
pub const FIRST: &[u8] = b"swh:1:rev:295c0651a95ba32ac5e14f92da0161b122942cac";

/// A program, a link, a revision of another project and a folder.
pub const TOP: &[u8] = b"swh:1:dir:0dc9408261582a21d44fbd14e902f1e9f0e022f8";

/// A file and a folder that are not there.
pub const BROKEN: &[u8] = b"swh:1:dir:8a320331c73543fe46e8b496c10b5793d67c1b88";

/// Both of these folders.
pub const ABOVE: &[u8] = b"swh:1:dir:183b960ebf98939a814ab7fca1c43e082469c36d";

/// A child of the first commit.
pub const LEFT: &[u8] = b"swh:1:rev:a7436cff730dd408e808913df2fa371564e4e483";

/// Another child, of another tree.
pub const RIGHT: &[u8] = b"swh:1:rev:9fa9d61c8b86092de93771e96230b74ea28bcb7a";

/// A merge of both.
pub const MERGE: &[u8] = b"swh:1:rev:56b3025c3595772de2e0271b96b8915259086cb3";

/// The same in the other order.
pub const MERGE_BACK: &[u8] = b"swh:1:rev:6c17ab9c592a4752f814aea7cb8b2515609b4509";

/// A commit that names a parent twice, and one after its child.
pub const OCTOPUS: &[u8] = b"swh:1:rev:518ee7077ab0fa7ef7485d2d746fc1ae86514d6b";

/// A commit with two parents that are not there.
pub const CUT: &[u8] = b"swh:1:rev:9cda6cf3b3e9fb9a5a7827631afd20dd4876f5f4";

/// Its child.
pub const ON_CUT: &[u8] = b"swh:1:rev:6e4c7141bec69e3dddc3d4e4b4a490c941cd49d6";

/// A commit whose tree is not there.
pub const TREELESS: &[u8] = b"swh:1:rev:313680deb96a5a168894ca1e42fb64f3177abe9e";

/// A release of a commit.
pub const OF_REVISION: &[u8] = b"swh:1:rel:ad2dfa6a7246b4fa1b1aa0396c0f93a27ab9a941";

/// A release of this.
pub const OF_RELEASE: &[u8] = b"swh:1:rel:e364719393855c4ab8c04584b9d612d467e41040";

/// A release of a folder.
pub const OF_TREE: &[u8] = b"swh:1:rel:704c4b2c3588da783d2e1065859877aea5e9d3ae";

/// A release of a file.
pub const OF_BLOB: &[u8] = b"swh:1:rel:228bbb68d77bf8326b0a15c2d6966407804b9d0a";

/// A release of what is not there.
pub const OF_ABSENT: &[u8] = b"swh:1:rel:79343b4e2e43a1f39034ac9770a926bbe814cbd9";

/// HEAD through one alias.
pub const BY_MAIN: &[u8] = b"swh:1:snp:71bc70aba584010a89d61f386d965e55d1a020ac";

/// HEAD through two, to the release of a release.
pub const BY_TWO: &[u8] = b"swh:1:snp:53548be5f8f2a7dc4a540d4d6c762973aef6c8ee";

/// Aliases in a circle.
pub const CIRCLE: &[u8] = b"swh:1:snp:5fb1c82a4971f2055c8de92e482fd24e66a72738";

/// HEAD as an alias of itself.
pub const SELF: &[u8] = b"swh:1:snp:bb75cd0bd2d77c9e0a6e596d33e95262c379d838";

/// HEAD through an alias to nothing.
pub const DANGLING: &[u8] = b"swh:1:snp:a6172178753d8f475d2fc04ae78cd3ff0de3d11f";

/// HEAD as an alias of no branch.
pub const TO_NONE: &[u8] = b"swh:1:snp:9c15fdcf4f8ed465a1ac2ca3485f6db623a98caf";

/// No HEAD.
pub const HEADLESS: &[u8] = b"swh:1:snp:72f72b29f4e9f777a19697a57bbcb2f09c4771e4";

/// HEAD at a file.
pub const TO_BLOB: &[u8] = b"swh:1:snp:b946e4724fdd49510377065272bb882d27fafbc0";

/// HEAD at another snapshot.
pub const TO_SNAPSHOT: &[u8] = b"swh:1:snp:a0273244e0fd27a1fa09b22ea5702afede688140";

/// HEAD at a snapshot that is not there.
pub const TO_ABSENT: &[u8] = b"swh:1:snp:501fe269913a75959be231adbf0c7de310236e9e";

/// HEAD at a commit of which all is there.
pub const WHOLE: &[u8] = b"swh:1:snp:133991aff5526fc6b4a691f593d26b51320fd851";

/// Each body with its kind, in the order of their names above.
pub const OBJECTS: &[(Kind, &[u8])] = &[
    (Kind::Content, b""),
    (Kind::Content, b"version 1\n"),
    (
        Kind::Directory,
        b"100644 test.txt\0\
\x83\xba\xae\x61\x80\x4e\x65\xcc\x73\xa7\x20\x1a\x72\x52\x75\x0c\x76\x06\x6a\x30",
    ),
    (
        Kind::Revision,
        b"tree d8329fc1cc938780ffdd9f94e0d364e0ea74f579\n\
author A <a@e.org> 1000000000 +0000\n\
committer A <a@e.org> 1000000000 +0000\n\
\n\
first\n",
    ),
    (
        Kind::Directory,
        b"100755 exe\0\
\xe6\x9d\xe2\x9b\xb2\xd1\xd6\x43\x4b\x8b\x29\xae\x77\x5a\xd8\xc2\xe4\x8c\x53\x91\
120000 link\0\
\xe6\x9d\xe2\x9b\xb2\xd1\xd6\x43\x4b\x8b\x29\xae\x77\x5a\xd8\xc2\xe4\x8c\x53\x91\
160000 module\0\
\x29\x5c\x06\x51\xa9\x5b\xa3\x2a\xc5\xe1\x4f\x92\xda\x01\x61\xb1\x22\x94\x2c\xac\
40000 sub\0\
\xd8\x32\x9f\xc1\xcc\x93\x87\x80\xff\xdd\x9f\x94\xe0\xd3\x64\xe0\xea\x74\xf5\x79",
    ),
    (
        Kind::Directory,
        b"100644 file\0\
\x22\x22\x22\x22\x22\x22\x22\x22\x22\x22\x22\x22\x22\x22\x22\x22\x22\x22\x22\x22\
40000 gone\0\
\x22\x22\x22\x22\x22\x22\x22\x22\x22\x22\x22\x22\x22\x22\x22\x22\x22\x22\x22\x22",
    ),
    (
        Kind::Directory,
        b"40000 deep\0\
\x0d\xc9\x40\x82\x61\x58\x2a\x21\xd4\x4f\xbd\x14\xe9\x02\xf1\xe9\xf0\xe0\x22\xf8\
40000 hurt\0\
\x8a\x32\x03\x31\xc7\x35\x43\xfe\x46\xe8\xb4\x96\xc1\x0b\x57\x93\xd6\x7c\x1b\x88",
    ),
    (
        Kind::Revision,
        b"tree d8329fc1cc938780ffdd9f94e0d364e0ea74f579\n\
parent 295c0651a95ba32ac5e14f92da0161b122942cac\n\
author A <a@e.org> 1000000000 +0000\n\
committer A <a@e.org> 1000000000 +0000\n\
\n\
left\n",
    ),
    (
        Kind::Revision,
        b"tree 0dc9408261582a21d44fbd14e902f1e9f0e022f8\n\
parent 295c0651a95ba32ac5e14f92da0161b122942cac\n\
author A <a@e.org> 1000000000 +0000\n\
committer A <a@e.org> 1000000000 +0000\n\
\n\
right\n",
    ),
    (
        Kind::Revision,
        b"tree 183b960ebf98939a814ab7fca1c43e082469c36d\n\
parent a7436cff730dd408e808913df2fa371564e4e483\n\
parent 9fa9d61c8b86092de93771e96230b74ea28bcb7a\n\
author A <a@e.org> 1000000000 +0000\n\
committer A <a@e.org> 1000000000 +0000\n\
\n\
merge\n",
    ),
    (
        Kind::Revision,
        b"tree 183b960ebf98939a814ab7fca1c43e082469c36d\n\
parent 9fa9d61c8b86092de93771e96230b74ea28bcb7a\n\
parent a7436cff730dd408e808913df2fa371564e4e483\n\
author A <a@e.org> 1000000000 +0000\n\
committer A <a@e.org> 1000000000 +0000\n\
\n\
merge back\n",
    ),
    (
        Kind::Revision,
        b"tree 183b960ebf98939a814ab7fca1c43e082469c36d\n\
parent 295c0651a95ba32ac5e14f92da0161b122942cac\n\
parent 56b3025c3595772de2e0271b96b8915259086cb3\n\
parent 295c0651a95ba32ac5e14f92da0161b122942cac\n\
parent a7436cff730dd408e808913df2fa371564e4e483\n\
author A <a@e.org> 1000000000 +0000\n\
committer A <a@e.org> 1000000000 +0000\n\
\n\
octopus\n",
    ),
    (
        Kind::Revision,
        b"tree d8329fc1cc938780ffdd9f94e0d364e0ea74f579\n\
parent 295c0651a95ba32ac5e14f92da0161b122942cac\n\
parent 4444444444444444444444444444444444444444\n\
parent 3333333333333333333333333333333333333333\n\
author A <a@e.org> 1000000000 +0000\n\
committer A <a@e.org> 1000000000 +0000\n\
\n\
cut\n",
    ),
    (
        Kind::Revision,
        b"tree d8329fc1cc938780ffdd9f94e0d364e0ea74f579\n\
parent 9fa9d61c8b86092de93771e96230b74ea28bcb7a\n\
parent 9cda6cf3b3e9fb9a5a7827631afd20dd4876f5f4\n\
author A <a@e.org> 1000000000 +0000\n\
committer A <a@e.org> 1000000000 +0000\n\
\n\
on cut\n",
    ),
    (
        Kind::Revision,
        b"tree 6666666666666666666666666666666666666666\n\
author A <a@e.org> 1000000000 +0000\n\
committer A <a@e.org> 1000000000 +0000\n\
\n\
treeless\n",
    ),
    (
        Kind::Release,
        b"object 56b3025c3595772de2e0271b96b8915259086cb3\n\
type commit\n\
tag v1\n\
tagger A <a@e.org> 1000000000 +0000\n\
\n\
v1\n",
    ),
    (
        Kind::Release,
        b"object ad2dfa6a7246b4fa1b1aa0396c0f93a27ab9a941\n\
type tag\n\
tag v2\n\
tagger A <a@e.org> 1000000000 +0000\n\
\n\
v2\n",
    ),
    (
        Kind::Release,
        b"object 183b960ebf98939a814ab7fca1c43e082469c36d\n\
type tree\n\
tag v3\n\
tagger A <a@e.org> 1000000000 +0000\n\
\n\
v3\n",
    ),
    (
        Kind::Release,
        b"object 83baae61804e65cc73a7201a7252750c76066a30\n\
type blob\n\
tag v4\n\
tagger A <a@e.org> 1000000000 +0000\n\
\n\
v4\n",
    ),
    (
        Kind::Release,
        b"object 3333333333333333333333333333333333333333\n\
type commit\n\
tag v5\n\
tagger A <a@e.org> 1000000000 +0000\n\
\n\
v5\n",
    ),
    (
        Kind::Snapshot,
        b"alias HEAD\015:refs/heads/main\
revision refs/heads/main\020:\
\x56\xb3\x02\x5c\x35\x95\x77\x2d\xe2\xe0\x27\x1b\x96\xb8\x91\x52\x59\x08\x6c\xb3",
    ),
    (
        Kind::Snapshot,
        b"alias HEAD\014:refs/heads/one\
alias refs/heads/one\014:refs/heads/two\
release refs/heads/two\020:\
\xe3\x64\x71\x93\x93\x85\x5c\x4a\xb8\xc0\x45\x84\xb9\xd6\x12\xd4\x67\xe4\x10\x40",
    ),
    (
        Kind::Snapshot,
        b"alias HEAD\01:a\
alias a\01:b\
alias b\01:c\
alias c\01:a",
    ),
    (Kind::Snapshot, b"alias HEAD\04:HEAD"),
    (
        Kind::Snapshot,
        b"alias HEAD\01:a\
dangling a\00:",
    ),
    (
        Kind::Snapshot,
        b"alias HEAD\01:b\
revision a\020:\
\x56\xb3\x02\x5c\x35\x95\x77\x2d\xe2\xe0\x27\x1b\x96\xb8\x91\x52\x59\x08\x6c\xb3",
    ),
    (
        Kind::Snapshot,
        b"revision main\020:\
\x56\xb3\x02\x5c\x35\x95\x77\x2d\xe2\xe0\x27\x1b\x96\xb8\x91\x52\x59\x08\x6c\xb3",
    ),
    (
        Kind::Snapshot,
        b"content HEAD\020:\
\x83\xba\xae\x61\x80\x4e\x65\xcc\x73\xa7\x20\x1a\x72\x52\x75\x0c\x76\x06\x6a\x30",
    ),
    (
        Kind::Snapshot,
        b"snapshot HEAD\020:\
\x53\x54\x8b\xe5\xf8\xf2\xa7\xdc\x4a\x54\x0d\x4d\x6c\x76\x29\x73\xae\xf6\xc8\xee",
    ),
    (
        Kind::Snapshot,
        b"snapshot HEAD\020:\
\x55\x55\x55\x55\x55\x55\x55\x55\x55\x55\x55\x55\x55\x55\x55\x55\x55\x55\x55\x55",
    ),
    (
        Kind::Snapshot,
        b"revision HEAD\020:\
\x9f\xa9\xd6\x1c\x8b\x86\x09\x2d\xe9\x37\x71\xe9\x62\x30\xb7\x4e\xa2\x8b\xcb\x7a",
    ),
];
