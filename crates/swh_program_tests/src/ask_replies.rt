// Each path that is answered.
use crate::asked::LOADING;
use std::test::Fail;
use swh_program_fixtures::{Case, INIT, LOAD, all_met};

const REPLIES: &[Case<'static>] = &[
    // A byte stands for itself or is escaped, but for `%` and `?`.
    Case {
        name: "origins",
        setting: LOADING,
        runs: &[
            INIT,
            LOAD,
            &[
                "ask",
                "A",
                "/api/1/origin/https://e.org/a;b 50%25 é/visits/",
                "/api/1/origin/https://e.org/a%3Bb%2050%25%20%C3%A9/visits/?page=1",
                "/api/1/origin/https://e.org/a%3bb%2050%25%20%c3%a9/get/",
            ],
        ],
        statuses: &[0, 0, 0],
        printed: b"made\nhttps://e.org/a;b 50% \xc3\xa9\t1\tfull\tswh:1:snp:fbdd80abc88d1192da78a6d1f783b0df375\
89edc\n200 163\n[{\"date\":1000000000,\"origin\":\"https://e.org/a%3Bb%2050%25%20%C3%A9\",\
\"snapshot\":\"fbdd80abc88d1192da78a6d1f783b0df37589edc\",\"status\":\"full\",\"type\":\"fast\",\
\"visit\":1}]\n200 163\n[{\"date\":1000000000,\"origin\":\"https://e.org/a%3Bb%2050%25%20%C3%A9\",\
\"snapshot\":\"fbdd80abc88d1192da78a6d1f783b0df37589edc\",\"status\":\"full\",\"type\":\"fast\",\
\"visit\":1}]\n200 57\n{\"url\":\"https://e.org/a%3Bb%2050%25%20%C3%A9\",\"visits\":1}\n",
        leaves: None,
    },
    // Branches stand by their escaped names, which is another order than the body's.
    Case {
        name: "a snapshot",
        setting: LOADING,
        runs: &[
            INIT,
            LOAD,
            &[
                "ask",
                "A",
                "/api/1/snapshot/fbdd80abc88d1192da78a6d1f783b0df37589edc/",
            ],
        ],
        statuses: &[0, 0, 0],
        printed: b"made\nhttps://e.org/a;b 50% \xc3\xa9\t1\tfull\tswh:1:snp:fbdd80abc88d1192da78a6d1f783b0df375\
89edc\n200 603\n{\"branches\":{\"HEAD\":{\"target\":\"refs/heads/main\",\"target_type\":\"alias\"},\
\"refs/heads/%C3%A9\":{\"target\":\"62b8331bb22605ed36abab52db5421d41312f97c\",\
\"target_type\":\"revision\"},\"refs/heads/main\":{\"target\":\"ad8f82034ad809f6d68cfeb8fecb079a0db51ac2\",\
\"target_type\":\"revision\"},\"refs/tags/50%25%3Bv3\":{\"target\":\"3c29bd5197055b875e8c62197d37fc20ef1f67f\
a\",\"target_type\":\"release\"},\"refs/tags/v1\":{\"target\":\"dcdd17533213497f53991befddc832f5b11c0b64\",\
\"target_type\":\"release\"},\"refs/tags/v2\":{\"target\":\"6450cefd49847f972f0650c6a46ee4e6bf7ccfd3\",\
\"target_type\":\"release\"}},\"id\":\"fbdd80abc88d1192da78a6d1f783b0df37589edc\"}\n",
        leaves: None,
    },
    // A merge, and those before it, each once.
    Case {
        name: "revisions",
        setting: LOADING,
        runs: &[
            INIT,
            LOAD,
            &[
                "ask",
                "A",
                "/api/1/revision/ad8f82034ad809f6d68cfeb8fecb079a0db51ac2/",
                "/api/1/revision/d86aa2fcf270757bda859539696bcfe39f5dadcd/",
                "/api/1/revision/ad8f82034ad809f6d68cfeb8fecb079a0db51ac2/log/",
            ],
        ],
        statuses: &[0, 0, 0],
        printed: b"made\nhttps://e.org/a;b 50% \xc3\xa9\t1\tfull\tswh:1:snp:fbdd80abc88d1192da78a6d1f783b0df375\
89edc\n200 318\n{\"directory\":\"e742133ff8e74ffd2bfc2759a0ee947b4bda8016\",\
\"id\":\"ad8f82034ad809f6d68cfeb8fecb079a0db51ac2\",\
\"parents\":[\"d86aa2fcf270757bda859539696bcfe39f5dadcd\",\"62b8331bb22605ed36abab52db5421d41312f97c\"],\
\"rest\":\"author%20A%20<a@e.org>%201000000000%20+0000%0Acommitter%20A%20<a@e.org>%201000000000%20+0000%0A%0\
Amerge%0A\"}\n200 233\n{\"directory\":\"ff49945581c80107379144a5b57f873031837fd6\",\
\"id\":\"d86aa2fcf270757bda859539696bcfe39f5dadcd\",\"parents\":[],\
\"rest\":\"author%20A%20<a@e.org>%201000000000%20+0000%0Acommitter%20A%20<a@e.org>%201000000000%20+0000%0A%0\
Afirst%0A\"}\n200 130\n[\"ad8f82034ad809f6d68cfeb8fecb079a0db51ac2\",\
\"d86aa2fcf270757bda859539696bcfe39f5dadcd\",\"62b8331bb22605ed36abab52db5421d41312f97c\"]\n",
        leaves: None,
    },
    // Of a revision, of a release and of a content.
    Case {
        name: "releases",
        setting: LOADING,
        runs: &[
            INIT,
            LOAD,
            &[
                "ask",
                "A",
                "/api/1/release/dcdd17533213497f53991befddc832f5b11c0b64/",
                "/api/1/release/6450cefd49847f972f0650c6a46ee4e6bf7ccfd3/",
                "/api/1/release/3c29bd5197055b875e8c62197d37fc20ef1f67fa/",
            ],
        ],
        statuses: &[0, 0, 0],
        printed: b"made\nhttps://e.org/a;b 50% \xc3\xa9\t1\tfull\tswh:1:snp:fbdd80abc88d1192da78a6d1f783b0df375\
89edc\n200 202\n{\"id\":\"dcdd17533213497f53991befddc832f5b11c0b64\",\"name\":\"v1\",\
\"rest\":\"tagger%20A%20<a@e.org>%201000000000%20+0000%0A%0Av1%0A\",\
\"target\":\"ad8f82034ad809f6d68cfeb8fecb079a0db51ac2\",\"target_type\":\"revision\"}\n200 201\n\
{\"id\":\"6450cefd49847f972f0650c6a46ee4e6bf7ccfd3\",\"name\":\"v2\",\
\"rest\":\"tagger%20A%20<a@e.org>%201000000000%20+0000%0A%0Av2%0A\",\
\"target\":\"dcdd17533213497f53991befddc832f5b11c0b64\",\"target_type\":\"release\"}\n200 163\n\
{\"id\":\"3c29bd5197055b875e8c62197d37fc20ef1f67fa\",\"name\":\"50%25%3Bv3\",\"rest\":\"%0Av3%0A\",\
\"target\":\"83baae61804e65cc73a7201a7252750c76066a30\",\"target_type\":\"content\"}\n",
        leaves: None,
    },
    Case {
        name: "directories, and the entries at paths",
        setting: LOADING,
        runs: &[
            INIT,
            LOAD,
            &[
                "ask",
                "A",
                "/api/1/directory/e742133ff8e74ffd2bfc2759a0ee947b4bda8016/",
                "/api/1/directory/e742133ff8e74ffd2bfc2759a0ee947b4bda8016/a;b/",
                "/api/1/directory/e742133ff8e74ffd2bfc2759a0ee947b4bda8016/a%3bb/50%25 é/",
                "/api/1/directory/48df6e423a46a8f89f4725fadab7fcdfeb8b141e/link/",
                "/api/1/directory/e742133ff8e74ffd2bfc2759a0ee947b4bda8016/module/",
            ],
        ],
        statuses: &[0, 0, 0],
        printed: b"made\nhttps://e.org/a;b 50% \xc3\xa9\t1\tfull\tswh:1:snp:fbdd80abc88d1192da78a6d1f783b0df375\
89edc\n200 391\n[{\"name\":\"a%3Bb\",\"perms\":16384,\
\"target\":\"48df6e423a46a8f89f4725fadab7fcdfeb8b141e\",\"type\":\"dir\"},{\"name\":\"empty\",\
\"perms\":33188,\"target\":\"e69de29bb2d1d6434b8b29ae775ad8c2e48c5391\",\"type\":\"file\"},\
{\"name\":\"module\",\"perms\":57344,\"target\":\"295c0651a95ba32ac5e14f92da0161b122942cac\",\
\"type\":\"rev\"},{\"name\":\"test.txt\",\"perms\":33188,\
\"target\":\"83baae61804e65cc73a7201a7252750c76066a30\",\"type\":\"file\"}]\n200 95\n{\"name\":\"a%3Bb\",\
\"perms\":16384,\"target\":\"48df6e423a46a8f89f4725fadab7fcdfeb8b141e\",\"type\":\"dir\"}\n200 105\n\
{\"name\":\"50%25%20%C3%A9\",\"perms\":33261,\"target\":\"45b983be36b73c0788dc9cbcb76cbb80fc7bb057\",\
\"type\":\"file\"}\n200 95\n{\"name\":\"link\",\"perms\":40960,\
\"target\":\"45b983be36b73c0788dc9cbcb76cbb80fc7bb057\",\"type\":\"file\"}\n200 96\n{\"name\":\"module\",\
\"perms\":57344,\"target\":\"295c0651a95ba32ac5e14f92da0161b122942cac\",\"type\":\"rev\"}\n",
        leaves: None,
    },
    Case {
        name: "contents",
        setting: LOADING,
        runs: &[
            INIT,
            LOAD,
            &[
                "ask",
                "A",
                "/api/1/content/sha1_git:83baae61804e65cc73a7201a7252750c76066a30/",
                "/api/1/content/sha1_git:e69de29bb2d1d6434b8b29ae775ad8c2e48c5391/",
            ],
        ],
        statuses: &[0, 0, 0],
        printed: b"made\nhttps://e.org/a;b 50% \xc3\xa9\t1\tfull\tswh:1:snp:fbdd80abc88d1192da78a6d1f783b0df375\
89edc\n200 74\n{\"length\":10,\"swhid\":\"swh:1:cnt:83baae61804e65cc73a7201a7252750c76066a30\"}\n200 73\n\
{\"length\":0,\"swhid\":\"swh:1:cnt:e69de29bb2d1d6434b8b29ae775ad8c2e48c5391\"}\n",
        leaves: None,
    },
    // With each qualifier, and with each kind of anchor.
    Case {
        name: "SWHIDs",
        setting: LOADING,
        runs: &[
            INIT,
            LOAD,
            &[
                "ask",
                "A",
                "/api/1/resolve/swh:1:snp:fbdd80abc88d1192da78a6d1f783b0df37589edc/",
                "/api/1/resolve/swh:1:cnt:45b983be36b73c0788dc9cbcb76cbb80fc7bb057;\
origin=https://e.org/a%3Bb%2050%25%20%C3%A9;visit=swh:1:snp:fbdd80abc88d1192da78a6d1f783b0df37589edc;\
anchor=swh:1:rev:ad8f82034ad809f6d68cfeb8fecb079a0db51ac2;path=/a%3Bb/50%25%20%C3%A9;lines=1-2;bytes=0/",
                "/api/1/resolve/swh:1:dir:48df6e423a46a8f89f4725fadab7fcdfeb8b141e;\
anchor=swh:1:dir:e742133ff8e74ffd2bfc2759a0ee947b4bda8016;path=/a%3Bb/",
                "/api/1/resolve/swh:1:dir:e742133ff8e74ffd2bfc2759a0ee947b4bda8016;\
anchor=swh:1:rel:6450cefd49847f972f0650c6a46ee4e6bf7ccfd3;path=//",
                "/api/1/resolve/swh:1:cnt:e69de29bb2d1d6434b8b29ae775ad8c2e48c5391;path=/empty;\
anchor=swh:1:snp:fbdd80abc88d1192da78a6d1f783b0df37589edc/",
            ],
        ],
        statuses: &[0, 0, 0],
        printed: b"made\nhttps://e.org/a;b 50% \xc3\xa9\t1\tfull\tswh:1:snp:fbdd80abc88d1192da78a6d1f783b0df375\
89edc\n200 81\n{\"object_id\":\"fbdd80abc88d1192da78a6d1f783b0df37589edc\",\"object_type\":\"snapshot\"}\n\
200 80\n{\"object_id\":\"45b983be36b73c0788dc9cbcb76cbb80fc7bb057\",\"object_type\":\"content\"}\n200 82\n\
{\"object_id\":\"48df6e423a46a8f89f4725fadab7fcdfeb8b141e\",\"object_type\":\"directory\"}\n200 82\n\
{\"object_id\":\"e742133ff8e74ffd2bfc2759a0ee947b4bda8016\",\"object_type\":\"directory\"}\n200 80\n\
{\"object_id\":\"e69de29bb2d1d6434b8b29ae775ad8c2e48c5391\",\"object_type\":\"content\"}\n",
        leaves: None,
    },
    Case {
        name: "bodies",
        setting: LOADING,
        runs: &[
            INIT,
            LOAD,
            &[
                "ask",
                "A",
                "/api/1/raw/swh:1:cnt:83baae61804e65cc73a7201a7252750c76066a30/",
                "/api/1/raw/swh:1:dir:48df6e423a46a8f89f4725fadab7fcdfeb8b141e/",
                "/api/1/raw/swh:1:rev:d86aa2fcf270757bda859539696bcfe39f5dadcd/",
                "/api/1/raw/swh:1:rel:3c29bd5197055b875e8c62197d37fc20ef1f67fa/",
                "/api/1/raw/swh:1:snp:fbdd80abc88d1192da78a6d1f783b0df37589edc/",
                "/api/1/raw/swh:1:cnt:e69de29bb2d1d6434b8b29ae775ad8c2e48c5391/",
            ],
        ],
        statuses: &[0, 0, 0],
        printed: b"made\nhttps://e.org/a;b 50% \xc3\xa9\t1\tfull\tswh:1:snp:fbdd80abc88d1192da78a6d1f783b0df375\
89edc\n200 10\nversion 1\n\n200 66\n\
100755 50% \xc3\xa9\0E\xb9\x83\xbe6\xb7<\x07\x88\xdc\x9c\xbc\xb7l\xbb\x80\xfc{\xb0W120000 link\0E\xb9\x83\
\xbe6\xb7<\x07\x88\xdc\x9c\xbc\xb7l\xbb\x80\xfc{\xb0W\n200 128\n\
tree ff49945581c80107379144a5b57f873031837fd6\nauthor A <a@e.org> 1000000000 +0000\n\
committer A <a@e.org> 1000000000 +0000\n\nfirst\n\n200 73\nobject 83baae61804e65cc73a7201a7252750c76066a30\n\
type blob\ntag 50%;v3\n\nv3\n\n200 259\n\
alias HEAD\x0015:refs/heads/mainrevision refs/heads/main\x0020:\xad\x8f\x82\x03J\xd8\t\xf6\xd6\x8c\xfe\xb8\
\xfe\xcb\x07\x9a\x0d\xb5\x1a\xc2revision refs/heads/\xc3\xa9\x0020:b\xb83\x1b\xb2&\x05\xed6\xab\xabR\xdbT!\
\xd4\x13\x12\xf9|release refs/tags/50%;\
v3\x0020:<)\xbdQ\x97\x05[\x87^\x8cb\x19}7\xfc \xef\x1fg\xfarelease refs/tags/v1\x0020:\xdc\xdd\x17S2\x13I\
\x7fS\x99\x1b\xef\xdd\xc82\xf5\xb1\x1c\x0bdrelease refs/tags/v2\x0020:dP\xce\xfdI\x84\x7f\x97/\x06P\xc6\xa4n\
\xe4\xe6\xbf|\xcf\xd3\n200 0\n\n",
        leaves: None,
    },
    // `git fast-import` makes the same commit of the stream.
    Case {
        name: "cooked",
        setting: LOADING,
        runs: &[
            INIT,
            LOAD,
            &[
                "ask",
                "A",
                "/api/1/cook/swh:1:cnt:83baae61804e65cc73a7201a7252750c76066a30/",
                "/api/1/cook/swh:1:rev:d86aa2fcf270757bda859539696bcfe39f5dadcd/",
            ],
        ],
        statuses: &[0, 0, 0],
        printed: b"made\nhttps://e.org/a;b 50% \xc3\xa9\t1\tfull\tswh:1:snp:fbdd80abc88d1192da78a6d1f783b0df375\
89edc\n200 10\nversion 1\n\n200 452\n\
feature done\nblob\nmark :1\ndata 3\nhi\n\nblob\nmark :2\ndata 10\nversion 1\n\nreset refs/swh/cook\n\n\
commit refs/swh/cook\nmark :3\nauthor A <a@e.org> 1000000000 +0000\ncommitter A <a@e.org> 1000000000 +0000\n\
data 6\nfirst\n\ndeleteall\nM 100755 :1 \"a;b/50% \\303\\251\"\nM 120000 :1 a;b/link\n\
M 160000 295c0651a95ba32ac5e14f92da0161b122942cac module\nM 100644 :2 test.txt\n\nreset refs/heads/main\nfrom :3\n\n\
reset refs/swh/cook\nfrom 0000000000000000000000000000000000000000\n\ndone\n\n",
        leaves: None,
    },
];

#[test]
fn each_path_is_answered(rt: HostRuntime) -> Result<(), Fail> {
    all_met(rt.alloc(), REPLIES)
}
