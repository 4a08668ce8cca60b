// Folders that have two entries to the next one, forty of them: more paths than a form carries.
use std::test::Fail;
use swh_program_fixtures::{
    BARE, CHECK, Case, INIT, LOAD, Piece, Setting, Spelled, all_met_spelled,
};

const LENGTH: &[Spelled<'static>] = &[Spelled {
    case: Case {
        name: "length",
        setting: Setting {
            jobs: Some(&[Piece::Text(b"batch\tu\tb\tr\n")]),
            files: &[
                (
                    "b",
                    &[
                        Piece::Doubled(40),
                        Piece::Text(
                            b"e8d82af871c3c504054e8eaa1ce41372b6f52f9f commit 128\n\
tree d06f12cd0d26065c5a16f59adb076d43c3741edd\n\
author A <a@e.org> 1000000000 +0000\n\
committer A <a@e.org> 1000000000 +0000\n\
\n\
first\n\
\n",
                        ),
                    ],
                    None,
                ),
                (
                    "r",
                    &[Piece::Text(b"e8d82af871c3c504054e8eaa1ce41372b6f52f9f refs/heads/main\n")],
                    None,
                ),
            ],
            ..BARE
        },
        runs: &[
            INIT,
            LOAD,
            CHECK,
            &[
                "cook",
                "A",
                "swh:1:dir:d06f12cd0d26065c5a16f59adb076d43c3741edd",
                "OUT",
            ],
            &[
                "cook",
                "A",
                "swh:1:rev:e8d82af871c3c504054e8eaa1ce41372b6f52f9f",
                "OUT",
            ],
            &[
                "cook",
                "A",
                "swh:1:snp:474bcc2c559c87575677ffd5697ed022f0cc6c67",
                "OUT",
            ],
            &[
                "ask",
                "A",
                "/api/1/cook/swh:1:rev:e8d82af871c3c504054e8eaa1ce41372b6f52f9f/",
            ],
        ],
        statuses: &[0, 0, 0, 1, 1, 1, 1],
        printed: b"",
        leaves: None,
    },
    words: &[],
    times: 0,
    status: 0,
    printed: &[Piece::Text(
        b"made\n\
u\t1\tfull\tswh:1:snp:474bcc2c559c87575677ffd5697ed022f0cc6c67\n\
objects 44 closed 44 visits 1\n\
swharc: uncarried swh:1:dir:d06f12cd0d26065c5a16f59adb076d43c3741edd length\n\
swharc: uncarried swh:1:rev:e8d82af871c3c504054e8eaa1ce41372b6f52f9f length\n\
swharc: uncarried swh:1:snp:474bcc2c559c87575677ffd5697ed022f0cc6c67 length\n\
422 96\n\
{\"error\":\"uncarried\",\"name\":\"swh:1:rev:e8d82af871c3c504054e8eaa1ce41372b6f52f9f\",\"why\":\"le\
ngth\"}\n",
    )],
}];

#[test]
fn a_length_is_told(rt: HostRuntime) -> Result<(), Fail> {
    all_met_spelled(rt.alloc(), LENGTH)
}
