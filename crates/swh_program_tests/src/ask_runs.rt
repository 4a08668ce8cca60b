// Runs over other archives, and of several paths.
use std::test::Fail;
use swh_program_fixtures::{ASK, BARE, Case, INIT, LOAD, LOADED, LOADING, Piece, Setting, all_met};

const RUNS: &[Case<'static>] = &[
    // A stream of nothing, and its one visit.
    Case {
        name: "no branch",
        setting: Setting {
            input: Some(&[]),
            ..LOADING
        },
        runs: &[INIT, LOAD, ASK],
        statuses: &[0, 0, 0],
        printed: b"made\nhttps://e.org/p\t1\tfull\tswh:1:snp:1a8893e6a86f444e8be8e7bda6cb34fb1735a00e\n\
200 142\n[{\"date\":1000000000,\"origin\":\"https://e.org/p\",\
\"snapshot\":\"1a8893e6a86f444e8be8e7bda6cb34fb1735a00e\",\"status\":\"full\",\"type\":\"fast\",\
\"visit\":1}]\n",
        leaves: None,
    },
    // A tag that another took the place of, and to which a second leads still.
    Case {
        name: "tagless",
        setting: Setting {
            input: Some(&[Piece::Text(
                b"commit refs/heads/main\nmark :1\ncommitter A <a@e.org> 1000000000 +0000\ndata 6\nfirst\n\
tag v1\nmark :2\nfrom :1\ntagger A <a@e.org> 1000000000 +0000\ndata 3\nv1\n\
tag v2\nmark :3\nfrom :2\ntagger A <a@e.org> 1000000000 +0000\ndata 3\nv2\n\
tag v1\nmark :4\nfrom :1\ntagger A <a@e.org> 1000000000 +0000\ndata 4\nnew\n",
            )]),
            ..LOADING
        },
        runs: &[
            INIT,
            LOAD,
            &[
                "ask",
                "A",
                "/api/1/cook/swh:1:snp:efea0a79fecb9c7b0a1e85738acb8eada5e58b69/",
            ],
        ],
        statuses: &[0, 0, 1],
        printed: b"made\nhttps://e.org/p\t1\tfull\tswh:1:snp:efea0a79fecb9c7b0a1e85738acb8eada5e58b69\n422 97\n\
{\"error\":\"uncarried\",\"name\":\"swh:1:rel:69b8f07f34f1dcbaee569a71ee78ca9e0e6d92ce\",\"why\":\"tagless\"}\n",
        leaves: None,
    },
    // One empty content.
    Case {
        name: "no bytes",
        setting: Setting {
            input: Some(&[Piece::Text(b"blob\ndata 0\n")]),
            ..LOADING
        },
        runs: &[
            INIT,
            LOAD,
            &[
                "ask",
                "A",
                "/api/1/content/sha1_git:e69de29bb2d1d6434b8b29ae775ad8c2e48c5391/",
            ],
        ],
        statuses: &[0, 0, 0],
        printed: b"made\nhttps://e.org/p\t1\tfull\tswh:1:snp:1a8893e6a86f444e8be8e7bda6cb34fb1735a00e\n200 73\n\
{\"length\":0,\"swhid\":\"swh:1:cnt:e69de29bb2d1d6434b8b29ae775ad8c2e48c5391\"}\n",
        leaves: None,
    },
    // Several paths in their order, and one status.
    Case {
        name: "several paths",
        setting: LOADED,
        runs: &[
            &[
                "ask",
                "A",
                "/api/1/raw/swh:1:cnt:83baae61804e65cc73a7201a7252750c76066a30/",
                "/api/1/raw/swh:1:cnt:1111111111111111111111111111111111111111/",
                "/api/1/raw/swh:1:cnt:83baae61804e65cc73a7201a7252750c76066a30/",
            ],
            &[
                "ask",
                "A",
                "/api/1/raw/swh:1:cnt:83baae61804e65cc73a7201a7252750c76066a30/",
                "/api/1/raw/swh:1:cnt:83baae61804e65cc73a7201a7252750c76066a30/",
            ],
        ],
        statuses: &[1, 0],
        printed: b"200 10\nversion 1\n\n404 80\n{\"error\":\"not held\",\
\"name\":\"swh:1:cnt:1111111111111111111111111111111111111111\"}\n200 10\nversion 1\n\n200 10\nversion 1\n\n\
200 10\nversion 1\n\n",
        leaves: None,
    },
    // A head that is no branch: an alias of nothing, from which no path leads.
    Case {
        name: "a head that is not there",
        setting: Setting {
            jobs: Some(&[Piece::Text(b"fast\thttps://e.org/p\te\trefs/heads/none\n")]),
            ..LOADING
        },
        runs: &[
            INIT,
            LOAD,
            &[
                "ask",
                "A",
                "/api/1/snapshot/4245113681b4255e535658746c1fbbbb6f4bda20/",
            ],
            &[
                "ask",
                "A",
                "/api/1/resolve/swh:1:cnt:83baae61804e65cc73a7201a7252750c76066a30;\
anchor=swh:1:snp:4245113681b4255e535658746c1fbbbb6f4bda20;path=/test.txt/",
            ],
        ],
        statuses: &[0, 0, 0, 1],
        printed: b"made\nhttps://e.org/p\t1\tfull\tswh:1:snp:4245113681b4255e535658746c1fbbbb6f4bda20\n\
200 217\n{\"branches\":{\"HEAD\":{\"target\":\"refs/heads/none\",\"target_type\":\"alias\"},\
\"refs/heads/main\":{\"target\":\"295c0651a95ba32ac5e14f92da0161b122942cac\",\"target_type\":\"revision\"}},\
\"id\":\"4245113681b4255e535658746c1fbbbb6f4bda20\"}\n404 33\n{\"component\":0,\"error\":\"no path\"}\n",
        leaves: None,
    },
    // Visits that ended otherwise.
    Case {
        name: "no input",
        setting: Setting {
            input: None,
            ..LOADING
        },
        runs: &[
            INIT,
            LOAD,
            LOAD,
            ASK,
            &["ask", "A", "/api/1/origin/https://e.org/p/get/"],
        ],
        statuses: &[0, 1, 1, 0, 0],
        printed: b"made\nhttps://e.org/p\t1\tnot_found\t-\nhttps://e.org/p\t2\tnot_found\t-\n200 217\n\
[{\"date\":1000000000,\"origin\":\"https://e.org/p\",\"snapshot\":null,\"status\":\"not_found\",\
\"type\":\"fast\",\"visit\":2},{\"date\":1000000000,\"origin\":\"https://e.org/p\",\"snapshot\":null,\
\"status\":\"not_found\",\"type\":\"fast\",\"visit\":1}]\n200 36\n{\"url\":\"https://e.org/p\",\
\"visits\":2}\n",
        leaves: None,
    },
    // An archive of nothing.
    Case {
        name: "nothing held",
        setting: BARE,
        runs: &[
            INIT,
            ASK,
            &[
                "ask",
                "A",
                "/api/1/resolve/swh:1:rev:295c0651a95ba32ac5e14f92da0161b122942cac/",
            ],
            &[
                "ask",
                "A",
                "/api/1/revision/295c0651a95ba32ac5e14f92da0161b122942cac/log/",
            ],
        ],
        statuses: &[0, 1, 1, 1],
        printed: b"made\n404 21\n{\"error\":\"not found\"}\n404 80\n{\"error\":\"not held\",\
\"name\":\"swh:1:rev:295c0651a95ba32ac5e14f92da0161b122942cac\"}\n404 80\n{\"error\":\"not held\",\
\"name\":\"swh:1:rev:295c0651a95ba32ac5e14f92da0161b122942cac\"}\n",
        leaves: None,
    },
];

#[test]
fn each_run_prints_its_replies(rt: HostRuntime) -> Result<(), Fail> {
    all_met(rt.alloc(), RUNS)
}
