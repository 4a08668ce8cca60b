// Each path that is refused: the word, and what it names.
use crate::asked::LOADING;
use std::test::Fail;
use swh_program_fixtures::{Case, INIT, LOAD, all_met};

const REFUSALS: &[Case<'static>] = &[
    Case {
        name: "no path",
        setting: LOADING,
        runs: &[
            INIT,
            LOAD,
            &[
                "ask",
                "A",
                "/",
                "/x",
                "/api/1/known",
                "/api/1/cook/swh:1:cnt:83baae61804e65cc73a7201a7252750c76066a30",
                "/api/1/revision/ad8f82034ad809f6d68cfeb8fecb079a0db51ac2",
            ],
        ],
        statuses: &[0, 0, 1],
        printed: b"made\nhttps://e.org/a;b 50% \xc3\xa9\t1\tfull\tswh:1:snp:fbdd80abc88d1192da78a6d1f783b0df375\
89edc\n404 21\n{\"error\":\"not found\"}\n404 21\n{\"error\":\"not found\"}\n404 21\n\
{\"error\":\"not found\"}\n404 21\n{\"error\":\"not found\"}\n404 21\n{\"error\":\"not found\"}\n",
        leaves: None,
    },
    // What is asked for by POST is told before any text is looked at.
    Case {
        name: "another method",
        setting: LOADING,
        runs: &[
            INIT,
            LOAD,
            &[
                "ask",
                "A",
                "/api/1/known/",
                "/api/1/load/fast/https://e.org/p/",
                "/api/1/load/fast//",
            ],
        ],
        statuses: &[0, 0, 1],
        printed: b"made\nhttps://e.org/a;b 50% \xc3\xa9\t1\tfull\tswh:1:snp:fbdd80abc88d1192da78a6d1f783b0df375\
89edc\n405 18\n{\"error\":\"method\"}\n405 18\n{\"error\":\"method\"}\n405 18\n{\"error\":\"method\"}\n",
        leaves: None,
    },
    // What is no URL, no id, no core identifier and no SWHID.
    Case {
        name: "no text",
        setting: LOADING,
        runs: &[
            INIT,
            LOAD,
            &[
                "ask",
                "A",
                "/api/1/origin//visits/",
                "/api/1/origin/%01/get/",
                "/api/1/origin/%ff/get/",
                "/api/1/revision/ad8f82034ad809f6d68cfeb8fecb079a0db51ac/",
                "/api/1/revision//log/",
                "/api/1/release/dcdd17533213497f53991befddc832f5b11c0b640/",
                "/api/1/directory/E742133FF8E74FFD2BFC2759A0EE947B4BDA8016/",
                "/api/1/directory/x/none/",
                "/api/1/snapshot/swh:1:snp:fbdd80abc88d1192da78a6d1f783b0df37589edc/",
                "/api/1/content/sha1_git:/",
                "/api/1/raw/83baae61804e65cc73a7201a7252750c76066a30/",
                "/api/1/raw/swh:1:cnt:83baae61804e65cc73a7201a7252750c76066a30;lines=1/",
                "/api/1/resolve/swh:1:cnt:83baae61804e65cc73a7201a7252750c76066a30;lines=0/",
                "/api/1/resolve//",
                "/api/1/cook//",
                "/api/1/cook/swh:1:dir:e742133ff8e74ffd2bfc2759a0ee947b4bda8016/",
            ],
        ],
        statuses: &[0, 0, 1],
        printed: b"made\nhttps://e.org/a;b 50% \xc3\xa9\t1\tfull\tswh:1:snp:fbdd80abc88d1192da78a6d1f783b0df375\
89edc\n400 17\n{\"error\":\"swhid\"}\n400 17\n{\"error\":\"swhid\"}\n400 17\n{\"error\":\"swhid\"}\n400 17\n\
{\"error\":\"swhid\"}\n400 17\n{\"error\":\"swhid\"}\n400 17\n{\"error\":\"swhid\"}\n400 17\n\
{\"error\":\"swhid\"}\n400 17\n{\"error\":\"swhid\"}\n400 17\n{\"error\":\"swhid\"}\n400 17\n\
{\"error\":\"swhid\"}\n400 17\n{\"error\":\"swhid\"}\n400 17\n{\"error\":\"swhid\"}\n400 17\n\
{\"error\":\"swhid\"}\n400 17\n{\"error\":\"swhid\"}\n400 17\n{\"error\":\"swhid\"}\n400 17\n\
{\"error\":\"swhid\"}\n",
        leaves: None,
    },
    // An id of another kind of object among them.
    Case {
        name: "not held",
        setting: LOADING,
        runs: &[
            INIT,
            LOAD,
            &[
                "ask",
                "A",
                "/api/1/origin/https://e.org/p/visits/",
                "/api/1/origin/https://e.org/p/get/",
                "/api/1/revision/1111111111111111111111111111111111111111/",
                "/api/1/revision/e742133ff8e74ffd2bfc2759a0ee947b4bda8016/log/",
                "/api/1/release/ad8f82034ad809f6d68cfeb8fecb079a0db51ac2/",
                "/api/1/directory/83baae61804e65cc73a7201a7252750c76066a30/",
                "/api/1/directory/1111111111111111111111111111111111111111/test.txt/",
                "/api/1/snapshot/dcdd17533213497f53991befddc832f5b11c0b64/",
                "/api/1/content/sha1_git:ad8f82034ad809f6d68cfeb8fecb079a0db51ac2/",
                "/api/1/raw/swh:1:rev:83baae61804e65cc73a7201a7252750c76066a30/",
                "/api/1/resolve/swh:1:cnt:83baae61804e65cc73a7201a7252750c76066a30;\
visit=swh:1:snp:ad8f82034ad809f6d68cfeb8fecb079a0db51ac2;\
anchor=swh:1:rev:dcdd17533213497f53991befddc832f5b11c0b64/",
                "/api/1/resolve/swh:1:cnt:83baae61804e65cc73a7201a7252750c76066a30;\
visit=swh:1:snp:fbdd80abc88d1192da78a6d1f783b0df37589edc;\
anchor=swh:1:rev:dcdd17533213497f53991befddc832f5b11c0b64;path=/none/",
                "/api/1/resolve/swh:1:cnt:ad8f82034ad809f6d68cfeb8fecb079a0db51ac2;\
anchor=swh:1:rev:1111111111111111111111111111111111111111;path=/none/",
                "/api/1/cook/swh:1:rel:ad8f82034ad809f6d68cfeb8fecb079a0db51ac2/",
            ],
        ],
        statuses: &[0, 0, 1],
        printed: b"made\nhttps://e.org/a;b 50% \xc3\xa9\t1\tfull\tswh:1:snp:fbdd80abc88d1192da78a6d1f783b0df375\
89edc\n404 21\n{\"error\":\"not found\"}\n404 21\n{\"error\":\"not found\"}\n404 80\n\
{\"error\":\"not held\",\"name\":\"swh:1:rev:1111111111111111111111111111111111111111\"}\n404 80\n\
{\"error\":\"not held\",\"name\":\"swh:1:rev:e742133ff8e74ffd2bfc2759a0ee947b4bda8016\"}\n404 80\n\
{\"error\":\"not held\",\"name\":\"swh:1:rel:ad8f82034ad809f6d68cfeb8fecb079a0db51ac2\"}\n404 80\n\
{\"error\":\"not held\",\"name\":\"swh:1:dir:83baae61804e65cc73a7201a7252750c76066a30\"}\n404 80\n\
{\"error\":\"not held\",\"name\":\"swh:1:dir:1111111111111111111111111111111111111111\"}\n404 80\n\
{\"error\":\"not held\",\"name\":\"swh:1:snp:dcdd17533213497f53991befddc832f5b11c0b64\"}\n404 80\n\
{\"error\":\"not held\",\"name\":\"swh:1:cnt:ad8f82034ad809f6d68cfeb8fecb079a0db51ac2\"}\n404 80\n\
{\"error\":\"not held\",\"name\":\"swh:1:rev:83baae61804e65cc73a7201a7252750c76066a30\"}\n404 80\n\
{\"error\":\"not held\",\"name\":\"swh:1:snp:ad8f82034ad809f6d68cfeb8fecb079a0db51ac2\"}\n404 80\n\
{\"error\":\"not held\",\"name\":\"swh:1:rev:dcdd17533213497f53991befddc832f5b11c0b64\"}\n404 80\n\
{\"error\":\"not held\",\"name\":\"swh:1:cnt:ad8f82034ad809f6d68cfeb8fecb079a0db51ac2\"}\n404 80\n\
{\"error\":\"not held\",\"name\":\"swh:1:rel:ad8f82034ad809f6d68cfeb8fecb079a0db51ac2\"}\n",
        leaves: None,
    },
    // Paths that lead to nothing, or to another object.
    Case {
        name: "nowhere",
        setting: LOADING,
        runs: &[
            INIT,
            LOAD,
            &[
                "ask",
                "A",
                "/api/1/directory/e742133ff8e74ffd2bfc2759a0ee947b4bda8016/none/",
                "/api/1/directory/e742133ff8e74ffd2bfc2759a0ee947b4bda8016//",
                "/api/1/directory/e742133ff8e74ffd2bfc2759a0ee947b4bda8016/a;b/none/x/",
                "/api/1/directory/e742133ff8e74ffd2bfc2759a0ee947b4bda8016/module/x/",
                "/api/1/directory/e742133ff8e74ffd2bfc2759a0ee947b4bda8016/a;b/link/x/",
                "/api/1/resolve/swh:1:cnt:83baae61804e65cc73a7201a7252750c76066a30;\
anchor=swh:1:snp:fbdd80abc88d1192da78a6d1f783b0df37589edc;path=/a%3Bb/none/",
                "/api/1/resolve/swh:1:cnt:83baae61804e65cc73a7201a7252750c76066a30;\
anchor=swh:1:rev:ad8f82034ad809f6d68cfeb8fecb079a0db51ac2;path=/a%3Bb/link/",
                "/api/1/resolve/swh:1:cnt:83baae61804e65cc73a7201a7252750c76066a30;\
anchor=swh:1:rel:3c29bd5197055b875e8c62197d37fc20ef1f67fa;path=//",
            ],
        ],
        statuses: &[0, 0, 1],
        printed: b"made\nhttps://e.org/a;b 50% \xc3\xa9\t1\tfull\tswh:1:snp:fbdd80abc88d1192da78a6d1f783b0df375\
89edc\n404 33\n{\"component\":0,\"error\":\"no path\"}\n404 33\n{\"component\":0,\"error\":\"no path\"}\n\
404 33\n{\"component\":1,\"error\":\"no path\"}\n404 33\n{\"component\":1,\"error\":\"no path\"}\n404 33\n\
{\"component\":2,\"error\":\"no path\"}\n404 33\n{\"component\":1,\"error\":\"no path\"}\n404 33\n\
{\"component\":2,\"error\":\"no path\"}\n404 33\n{\"component\":0,\"error\":\"no path\"}\n",
        leaves: None,
    },
];

#[test]
fn each_refusal_is_told(rt: HostRuntime) -> Result<(), Fail> {
    all_met(rt.alloc(), REFUSALS)
}
