// What runs begin with, and what they are to end with.
use crate::folders::Layout;
use crate::pieces::Piece;

/// A file that stands at a path of the inputs, and the number of its call, from 0, that fails.
pub type StandingFile<'a> = (&'a str, &'a [Piece<'a>], Option<u64>);

/// A folder that stands at a path of the inputs, and the number of its call, from 0, that fails.
pub type StandingFolder<'a> = (&'a str, Layout<'a>, Option<u64>);

/// What runs begin with: the folder `A` of a depot, the file `J` and the folder `D` of the desk, and the inputs `e` and
/// `f`, with other files and folders beside them. Of each part the call with the given number, from 0, fails.
#[derive(Clone, Copy)]
pub struct Setting<'a> {
    /// The ledger in `A`, where it is there.
    pub ledger: Option<&'a [u8]>,
    /// The store beside it.
    pub store: &'a [u8],
    pub ledger_fails: Option<u64>,
    pub store_fails: Option<u64>,
    /// An opening of a file of the archive.
    pub depot_fails: Option<u64>,
    pub jobs: Option<&'a [Piece<'a>]>,
    pub jobs_fail: Option<u64>,
    pub folder: Option<Layout<'a>>,
    pub folder_fails: Option<u64>,
    /// An opening at the desk, where what is opened is not there.
    pub desk_fails: Option<u64>,
    pub input: Option<&'a [Piece<'a>]>,
    pub input_fails: Option<u64>,
    /// An opening of a part of an input, where that is not there.
    pub origins_fail: Option<u64>,
    pub other_input: Option<&'a [Piece<'a>]>,
    pub files: &'a [StandingFile<'a>],
    pub folders: &'a [StandingFolder<'a>],
    pub yard_fails: Option<u64>,
    pub clock_fails: Option<u64>,
    pub sink_fails: Option<u64>,
}

/// An empty folder, no files, and nothing that fails.
pub const BARE: Setting<'static> = Setting {
    ledger: None,
    store: b"",
    ledger_fails: None,
    store_fails: None,
    depot_fails: None,
    jobs: None,
    jobs_fail: None,
    folder: None,
    folder_fails: None,
    desk_fails: None,
    input: None,
    input_fails: None,
    origins_fail: None,
    other_input: None,
    files: &[],
    folders: &[],
    yard_fails: None,
    clock_fails: None,
    sink_fails: None,
};

/// A row of a table: the words of runs on a setting, one run after another; their statuses, and all that they print.
#[derive(Clone, Copy)]
pub struct Case<'a> {
    pub name: &'a str,
    pub setting: Setting<'a>,
    pub runs: &'a [&'a [&'a str]],
    pub statuses: &'a [u8],
    pub printed: &'a [u8],
    /// The ledger and the store then, where they are compared.
    pub leaves: Option<(&'a [u8], &'a [u8])>,
}

/// A row that is too long to be written out: the runs of its case, and behind them a run of words that are spelled, if there
/// are any; the last of them stands so many times. Then the status of that run, and pieces that spell all that is printed, in
/// place of what the case says.
#[derive(Clone, Copy)]
pub struct Spelled<'a> {
    pub case: Case<'a>,
    pub words: &'a [&'a [Piece<'a>]],
    pub times: usize,
    pub status: u8,
    pub printed: &'a [Piece<'a>],
}
