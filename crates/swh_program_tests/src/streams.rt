// How a load of one stream ends: each detail of a line.
use std::alloc::Global;
use std::test::Fail;
use swh_program_fixtures::{Case, INIT, LOAD, LOADING, Piece, Setting, is_met};

/// A stream, and what is printed of an `init` and of its load.
#[derive(Clone, Copy)]
pub struct Load<'a> {
    pub input: &'a [Piece<'a>],
    pub printed: &'a [u8],
}

// The row of a load into a new archive.
fn case_of<'a>(load: &Load<'a>) -> Case<'a> {
    let is_full = load
        .printed
        .starts_with(b"made\nhttps://e.org/p\t1\tfull\t");
    Case {
        name: "a stream",
        setting: Setting {
            input: Some(load.input),
            ..LOADING
        },
        runs: &[INIT, LOAD],
        statuses: if is_full { &[0, 0] } else { &[0, 1] },
        printed: load.printed,
        leaves: None,
    }
}

/// Fails with the number, from 0, of the first load that ends in another way.
pub fn all_end_so(alloc: Global, loads: &[Load<'_>]) -> Result<(), Fail> {
    for (number, load) in loads.iter().enumerate() {
        if !is_met(alloc, &case_of(load))? {
            return Err(Fail::new(number));
        }
    }
    Ok(())
}

pub const EMPTY: &[u8] =
    b"made\nhttps://e.org/p\t1\tfull\tswh:1:snp:1a8893e6a86f444e8be8e7bda6cb34fb1735a00e\n";

pub const LIMIT_BODY: &[u8] = b"made\nhttps://e.org/p\t1\tfailed\tlimit body\n";

// Where a stream breaks, each way twice, and streams that are whole in some odd way.
const STREAMS: &[Load<'static>] = &[
    Load {
        input: &[Piece::Text(b"")],
        printed: EMPTY,
    },
    Load {
        input: &[Piece::Text(b"feature done\ndone\nls :1 a\n")],
        printed: EMPTY,
    },
    Load {
        input: &[Piece::Text(b"M 100644 :1 a\n")],
        printed: b"made\nhttps://e.org/p\t1\tfailed\tstream 0 grammar\n",
    },
    Load {
        input: &[Piece::Text(b"blob\nmark :0\n")],
        printed: b"made\nhttps://e.org/p\t1\tfailed\tstream 5 grammar\n",
    },
    Load {
        input: &[Piece::Text(b"feature done\n")],
        printed: b"made\nhttps://e.org/p\t1\tfailed\tstream 13 end\n",
    },
    Load {
        input: &[Piece::Text(b"blob\nmark :1\ndata 10\nversio")],
        printed: b"made\nhttps://e.org/p\t1\tfailed\tstream 27 end\n",
    },
    Load {
        input: &[Piece::Text(b"blob\ndata <<E\nversion 1\n")],
        printed: b"made\nhttps://e.org/p\t1\tfailed\tstream 24 end\n",
    },
    Load {
        input: &[Piece::Text(b"feature import-marks=x\n")],
        printed: b"made\nhttps://e.org/p\t1\tfailed\tstream 0 left-out\n",
    },
    Load {
        input: &[Piece::Text(b"progress a\nls :2 test.txt\n")],
        printed: b"made\nhttps://e.org/p\t1\tfailed\tstream 11 left-out\n",
    },
    Load {
        input: &[Piece::Text(b"reset refs/heads/m\nfrom :7\n")],
        printed: b"made\nhttps://e.org/p\t1\tfailed\tstream 19 mark\n",
    },
    Load {
        input: &[Piece::Text(
            b"commit refs/heads/m\ncommitter A <a@e.org> 1000000000 +0000\ndata 0\nM 100644 :2 a\n",
        )],
        printed: b"made\nhttps://e.org/p\t1\tfailed\tstream 66 mark\n",
    },
    Load {
        input: &[Piece::Text(
            b"commit refs/heads/m\ncommitter A <a@e.org> 1000000000 +0000\ndata 0\nfrom refs/heads/x\n",
        )],
        printed: b"made\nhttps://e.org/p\t1\tfailed\tstream 66 branch\n",
    },
    Load {
        input: &[Piece::Text(
            b"commit refs/heads/m\ncommitter A <a@e.org> 1000000000 +0000\ndata 0\nC a b\n",
        )],
        printed: b"made\nhttps://e.org/p\t1\tfailed\tstream 66 place\n",
    },
    Load {
        input: &[Piece::Text(
            b"commit refs/heads/m\ncommitter A <a@e.org> 1000000000 +0000\ndata 0\nR a b\n",
        )],
        printed: b"made\nhttps://e.org/p\t1\tfailed\tstream 66 place\n",
    },
    Load {
        input: &[Piece::Text(b"blob\ndata 999999999999999999\n")],
        printed: LIMIT_BODY,
    },
    Load {
        input: &[Piece::Text(b"blob\ndata 67108865\n")],
        printed: LIMIT_BODY,
    },
];

#[test]
fn each_break_of_a_stream(rt: HostRuntime) -> Result<(), Fail> {
    all_end_so(rt.alloc(), STREAMS)
}
