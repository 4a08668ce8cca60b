// A world in memory for the program to run in. What can fail borrows what others own: a `?` where much is owned is dear
// to prove.
use crate::folders::folder_input;
use crate::pieces::{Piece, spelled};
use crate::setting::{Case, Setting, Spelled};
use crate::yards::{Grown, has_grown};
use std::alloc::{AllocError, Global};
use swh_base::{Namer, Sha1Namer};
use swh_memory::{
    Input, MemoryClock, MemoryDepot, MemoryDisk, MemoryDoors, MemoryOrigins, MemorySink,
    MemoryYard, Room,
};
use swh_memory_input::FolderInput;
use swh_outside::{Depot, OpenGate};
use swh_program::{Outside, run};

type World<N, P> = Outside<
    N,
    P,
    MemoryOrigins,
    MemoryYard,
    MemorySink,
    MemoryClock,
    MemoryDoors,
    OpenGate,
>;

const ROOM: Room = Room {
    bytes: 2_097_152,
    calls: 4_096,
};

/// How many bytes runs may print.
const SINK_ROOM: usize = 2_097_152;

fn failing(alloc: Global, number: Option<u64>) -> Result<Vec<u64>, AllocError> {
    match number {
        Some(number) => vec![in alloc; number; 1],
        None => Ok(Vec::new(alloc)),
    }
}

// The file of these pieces at a path. Its bytes come in pieces of 7, those of a long file in longer ones.
fn input(
    alloc: Global,
    path: &str,
    pieces: &[Piece<'_>],
    call_fails: Option<u64>,
) -> Result<Input, AllocError> {
    let bytes = spelled(alloc, pieces)?;
    Ok(Input {
        piece: if bytes.len() < 4_096 { 7 } else { 65_536 },
        bytes,
        path: String::from_str(alloc, path)?,
        failing: failing(alloc, call_fails)?,
    })
}

// Adds the file at a path, where there is one.
fn add_file(
    alloc: Global,
    files: &mut Vec<Input>,
    path: &str,
    pieces: Option<&[Piece<'_>]>,
    call_fails: Option<u64>,
) -> Result<(), AllocError> {
    if let Some(pieces) = pieces {
        files.push(input(alloc, path, pieces, call_fails)?)?;
    }
    Ok(())
}

fn add_inputs(
    alloc: Global,
    files: &mut Vec<Input>,
    setting: &Setting<'_>,
) -> Result<(), AllocError> {
    add_file(alloc, files, "e", setting.input, setting.input_fails)?;
    add_file(alloc, files, "f", setting.other_input, None)?;
    for (path, pieces, call_fails) in setting.files {
        add_file(alloc, files, path, Some(*pieces), *call_fails)?;
    }
    Ok(())
}

// Adds the folders of the inputs.
fn add_folders(
    alloc: Global,
    folders: &mut Vec<FolderInput>,
    setting: &Setting<'_>,
) -> Result<(), AllocError> {
    for (path, layout, call_fails) in setting.folders {
        let failing = failing(alloc, *call_fails)?;
        folders.push(folder_input(alloc, path, layout, failing)?)?;
    }
    Ok(())
}

// Adds the folder of the desk, where there is one.
fn add_folder(
    alloc: Global,
    folders: &mut Vec<FolderInput>,
    setting: &Setting<'_>,
) -> Result<(), AllocError> {
    if let Some(layout) = setting.folder {
        let failing = failing(alloc, setting.folder_fails)?;
        folders.push(folder_input(alloc, "D", layout, failing)?)?;
    }
    Ok(())
}

// The parts of a world that take memory, its files aside.
#[derive(Drop)]
struct Parts {
    jobs: Vec<Input>,
    jobs_failing: Vec<u64>,
    folders: Vec<FolderInput>,
    inputs: Vec<Input>,
    input_folders: Vec<FolderInput>,
    inputs_failing: Vec<u64>,
    yard: MemoryYard,
    sink: MemorySink,
    clock_failing: Vec<u64>,
}

fn empty_parts(alloc: Global, setting: &Setting<'_>) -> Result<Parts, AllocError> {
    Ok(Parts {
        jobs: Vec::new(alloc),
        jobs_failing: failing(alloc, setting.desk_fails)?,
        folders: Vec::new(alloc),
        inputs: Vec::new(alloc),
        input_folders: Vec::new(alloc),
        inputs_failing: failing(alloc, setting.origins_fail)?,
        yard: MemoryYard::with_room(alloc, 65_536, failing(alloc, setting.yard_fails)?)?,
        sink: MemorySink::new(alloc, SINK_ROOM, failing(alloc, setting.sink_fails)?)?,
        clock_failing: failing(alloc, setting.clock_fails)?,
    })
}

fn fill_parts(alloc: Global, parts: &mut Parts, setting: &Setting<'_>) -> Result<(), AllocError> {
    add_file(alloc, &mut parts.jobs, "J", setting.jobs, setting.jobs_fail)?;
    add_folder(alloc, &mut parts.folders, setting)?;
    add_folders(alloc, &mut parts.input_folders, setting)?;
    add_inputs(alloc, &mut parts.inputs, setting)
}

fn world_of<N: Namer, P: Depot>(alloc: Global, namer: N, depot: P, parts: Parts) -> World<N, P> {
    Outside {
        namer,
        depot,
        desk: MemoryOrigins::with_folders(alloc, parts.jobs, parts.folders, parts.jobs_failing),
        origins: MemoryOrigins::with_folders(
            alloc,
            parts.inputs,
            parts.input_folders,
            parts.inputs_failing,
        ),
        yard: parts.yard,
        sink: parts.sink,
        clock: MemoryClock::new(1_000_000_000, parts.clock_failing),
        doors: MemoryDoors::new(alloc),
        gate: OpenGate,
    }
}

fn lay(
    alloc: Global,
    depot: &mut MemoryDepot,
    file: u32,
    bytes: &[u8],
    call_fails: Option<u64>,
) -> Result<(), AllocError> {
    let disk = MemoryDisk::new(alloc, bytes, ROOM, failing(alloc, call_fails)?)?;
    depot.lay("A", file, disk)
}

fn lay_files(
    alloc: Global,
    depot: &mut MemoryDepot,
    setting: &Setting<'_>,
) -> Result<(), AllocError> {
    let Some(ledger) = setting.ledger else {
        return Ok(());
    };
    lay(alloc, depot, 0, ledger, setting.ledger_fails)?;
    lay(alloc, depot, 1, setting.store, setting.store_fails)
}

fn owned(alloc: Global, words: &[&str]) -> Result<Vec<String>, AllocError> {
    let mut owned = Vec::new(alloc);
    for word in words {
        owned.push(String::from_str(alloc, word)?)?;
    }
    Ok(owned)
}

fn run_once<N: Namer, P: Depot>(
    alloc: Global,
    world: &mut World<N, P>,
    words: &[&str],
) -> Result<u8, AllocError> {
    let words = owned(alloc, words)?;
    Ok(run(&(), alloc, &words, world))
}

// Says whether the runs of a row have its statuses.
fn have_statuses<N: Namer, P: Depot>(
    alloc: Global,
    world: &mut World<N, P>,
    case: &Case<'_>,
) -> Result<bool, AllocError> {
    for (words, status) in case.runs.iter().zip(case.statuses) {
        if run_once(alloc, world, words)? != *status {
            return Ok(false);
        }
    }
    Ok(case.runs.len() == case.statuses.len())
}

// Says whether the runs of a row have its statuses, and print this.
fn end_so<N: Namer, P: Depot>(
    alloc: Global,
    world: &mut World<N, P>,
    case: &Case<'_>,
    printed: &[u8],
) -> Result<bool, AllocError> {
    let have = have_statuses(alloc, world, case)?;
    Ok(have && world.sink.bytes() == printed)
}

/// Says whether the runs of a row end as it says, with this namer and these files.
pub fn is_met_by<N: Namer + Drop, P: Depot + Drop>(
    alloc: Global,
    namer: N,
    depot: P,
    case: &Case<'_>,
) -> Result<bool, AllocError> {
    let mut parts = empty_parts(alloc, &case.setting)?;
    fill_parts(alloc, &mut parts, &case.setting)?;
    let mut world = world_of(alloc, namer, depot, parts);
    end_so(alloc, &mut world, case, case.printed)
}

// The word that pieces spell.
fn spelled_word(alloc: Global, pieces: &[Piece<'_>]) -> Result<String, AllocError> {
    let bytes = spelled(alloc, pieces)?;
    String::from_str(alloc, str::from_utf8(&bytes).unwrap_or(""))
}

// Adds a word that pieces spell, so many times.
fn push_times(
    alloc: Global,
    words: &mut Vec<String>,
    pieces: &[Piece<'_>],
    times: usize,
) -> Result<(), AllocError> {
    for _ in 0..times {
        words.push(spelled_word(alloc, pieces)?)?;
    }
    Ok(())
}

// The words of a row, the last of them so many times.
fn spelled_words(alloc: Global, row: &Spelled<'_>) -> Result<Vec<String>, AllocError> {
    let mut words = Vec::new(alloc);
    if let Some((last, first)) = row.words.split_last() {
        for pieces in first {
            push_times(alloc, &mut words, pieces, 1)?;
        }
        push_times(alloc, &mut words, last, row.times)?;
    }
    Ok(words)
}

// Says whether the runs of a row that is spelled end as it says, with these words and this printed.
fn spelled_end_so<N: Namer, P: Depot>(
    alloc: Global,
    world: &mut World<N, P>,
    row: &Spelled<'_>,
    words: &[String],
    printed: &[u8],
) -> Result<bool, AllocError> {
    if !have_statuses(alloc, world, &row.case)? {
        return Ok(false);
    }
    if !words.is_empty() {
        if run(&(), alloc, words, world) != row.status {
            return Ok(false);
        }
    }
    Ok(world.sink.bytes() == printed)
}

/// Says whether the runs of a row that is spelled end as it says, with this namer and these files.
pub fn is_spelled_by<N: Namer + Drop, P: Depot + Drop>(
    alloc: Global,
    namer: N,
    depot: P,
    row: &Spelled<'_>,
) -> Result<bool, AllocError> {
    let printed = spelled(alloc, row.printed)?;
    let words = spelled_words(alloc, row)?;
    let mut parts = empty_parts(alloc, &row.case.setting)?;
    fill_parts(alloc, &mut parts, &row.case.setting)?;
    let mut world = world_of(alloc, namer, depot, parts);
    spelled_end_so(alloc, &mut world, row, &words, &printed)
}

// The depot of a setting, in which nothing stands yet.
fn empty_depot(alloc: Global, setting: &Setting<'_>) -> Result<MemoryDepot, AllocError> {
    Ok(MemoryDepot::new(alloc, ROOM, failing(alloc, setting.depot_fails)?))
}

// Says whether the files are as a row says.
fn is_left(depot: &MemoryDepot, case: &Case<'_>) -> bool {
    match case.leaves {
        Some((ledger, store)) => depot.bytes("A", 0) == ledger && depot.bytes("A", 1) == store,
        None => true,
    }
}

// Says whether the runs of a row end as it says, but print this; and whether this then stands in the yard, where it is
// looked at.
fn ends_with(
    alloc: Global,
    case: &Case<'_>,
    printed: &[u8],
    grown: Option<&[Grown<'_>]>,
) -> Result<bool, AllocError> {
    let mut parts = empty_parts(alloc, &case.setting)?;
    fill_parts(alloc, &mut parts, &case.setting)?;
    let mut depot = empty_depot(alloc, &case.setting)?;
    lay_files(alloc, &mut depot, &case.setting)?;
    let mut world = world_of(alloc, Sha1Namer, depot, parts);
    let ends = end_so(alloc, &mut world, case, printed);
    let left = is_left(&world.depot, case)
        && match grown {
            Some(expected) => has_grown(&world.yard, expected),
            None => true,
        };
    ends.map(|ends| ends && left)
}

/// Says whether the runs of a row end as it says, with the namer of the program and files in memory, but print this.
pub fn is_met_printing(alloc: Global, case: &Case<'_>, printed: &[u8]) -> Result<bool, AllocError> {
    ends_with(alloc, case, printed, None)
}

/// Says whether the runs of a row end as it says, with the namer of the program and files in memory, and leave just this in
/// the yard.
pub fn is_met_leaving(
    alloc: Global,
    case: &Case<'_>,
    grown: &[Grown<'_>],
) -> Result<bool, AllocError> {
    ends_with(alloc, case, case.printed, Some(grown))
}

/// Says whether the runs of a row end as it says, with the namer of the program and files in memory.
pub fn is_met(alloc: Global, case: &Case<'_>) -> Result<bool, AllocError> {
    is_met_printing(alloc, case, case.printed)
}
