// An archive that is made, loaded, asked and checked.
use crate::starts::{Run, all_end_so, run};
use std::fs;
use std::test::Fail;
use swh_fixtures::STREAM;
use swh_outside::Depot;
use swh_real::RealDepot;
use swh_temp_folders::{Thing, clear, fresh_room, path_in};

const VISITS: &str = "/api/1/origin/https://e.org/p/visits/";

const INIT: &[&str] = &["init", "@/A"];

const LOAD: &[&str] = &["load", "@/A", "@/jobs"];

const ASK: &[&str] = &["ask", "@/A", VISITS, "/x"];

const CHECK: &[&str] = &["check", "@/A"];

// A room with the worked stream, and a job file that names it.
fn room_with_jobs(rt: &HostRuntime, name: &str) -> Result<String, Fail> {
    let room = fresh_room(rt, name, &[("stream", Thing::File(STREAM))])?;
    lay_jobs(rt, room.as_str())?;
    Ok(room)
}

fn lay_jobs(rt: &HostRuntime, room: &str) -> Result<(), Fail> {
    let path = path_in(rt.alloc(), room, "jobs")?;
    let jobs = format!(in rt.alloc(); "fast\thttps://e.org/p\t{room}/stream\n")?;
    Ok(fs::write(rt, path.as_str(), jobs.as_bytes())?)
}

// The snapshot's id is by another implementation.
const WHOLE: [Run; 5] = [
    (INIT, 0, b"made\n"),
    (
        LOAD,
        0,
        b"https://e.org/p\t1\tfull\tswh:1:snp:5036c2b4a676f9dad60fbaed431ca21ecdec56ff\n",
    ),
    (CHECK, 0, b"objects 4 closed 4 visits 1\n"),
    (
        LOAD,
        0,
        b"https://e.org/p\t2\tfull\tswh:1:snp:5036c2b4a676f9dad60fbaed431ca21ecdec56ff\n",
    ),
    (CHECK, 0, b"objects 4 closed 4 visits 2\n"),
];

#[test]
fn an_archive_is_made_loaded_and_checked(rt: HostRuntime) -> Result<(), Fail> {
    let room = room_with_jobs(&rt, "whole")?;
    all_end_so(&rt, room.as_str(), &WHOLE)?;
    clear(&rt, room.as_str())
}

// A job for each path at which the other stands: a folder in the place of a stream, of a listing, of a batch and of refs,
// and a file in that of a folder.
fn lay_crossed_jobs(rt: &HostRuntime, room: &str) -> Result<(), Fail> {
    let path = path_in(rt.alloc(), room, "jobs")?;
    let jobs = format!(in rt.alloc();
        "fast\thttps://e.org/1\t{room}
dir\thttps://e.org/2\t{room}/stream
dir\thttps://e.org/3\t{room}\t{room}
batch\thttps://e.org/4\t{room}\t{room}/stream
batch\thttps://e.org/5\t{room}/stream\t{room}
"
    )?;
    Ok(fs::write(rt, path.as_str(), jobs.as_bytes())?)
}

const CROSSED: [Run; 2] = [
    (INIT, 0, b"made\n"),
    (
        LOAD,
        1,
        b"https://e.org/1\t1\tnot_found\t-\nhttps://e.org/2\t1\tnot_found\t-\n\
https://e.org/3\t1\tnot_found\t-\nhttps://e.org/4\t1\tnot_found\t-\n\
https://e.org/5\t1\tnot_found\t-\n",
    ),
];

#[test]
fn a_file_is_no_folder_and_a_folder_no_file(rt: HostRuntime) -> Result<(), Fail> {
    let room = fresh_room(&rt, "crossed", &[("stream", Thing::File(STREAM))])?;
    lay_crossed_jobs(&rt, room.as_str())?;
    all_end_so(&rt, room.as_str(), &CROSSED)?;
    clear(&rt, room.as_str())
}

// What is printed of two paths: before the date of the visit, behind its ten digits, and up to the second's length.
const BEFORE_DATE: &[u8] = b"200 142\n[{\"date\":";

const BEHIND_DATE: &[u8] =
    b",\"origin\":\"https://e.org/p\",\"snapshot\":\"5036c2b4a676f9dad60fbaed431ca21ecdec56ff\",\
\"status\":\"full\",\"type\":\"fast\",\"visit\":1}]\n404 ";

fn tells_visit(printed: &[u8]) -> bool {
    match printed.split_at_checked(BEFORE_DATE.len() + 10) {
        Some((front, behind)) => front.starts_with(BEFORE_DATE) && behind.starts_with(BEHIND_DATE),
        None => false,
    }
}

fn is_visit_printed(rt: &HostRuntime, room: &str) -> Result<bool, Fail> {
    let path = path_in(rt.alloc(), room, "printed")?;
    Ok(tells_visit(&fs::read(rt, path.as_str())?))
}

fn is_visit_told(rt: &HostRuntime, room: &str) -> Result<bool, Fail> {
    let _ = run(rt, room, INIT)?;
    let _ = run(rt, room, LOAD)?;
    Ok(run(rt, room, ASK)? == 1 && is_visit_printed(rt, room)?)
}

/// The date is the clock's.
#[test]
fn an_origin_is_asked_for(rt: HostRuntime) -> Result<(), Fail> {
    let room = room_with_jobs(&rt, "asked")?;
    assert!(rt; is_visit_told(&rt, room.as_str())?);
    clear(&rt, room.as_str())
}

// A command, and its status beside a reader and beside a writer.
const COMMANDS: [(&[&str], u8, u8); 4] = [
    (CHECK, 0, 4),
    (&["ask", "@/A", VISITS], 1, 4),
    (LOAD, 4, 4),
    (INIT, 4, 4),
];

// The status of a run while the ledger of a folder is open in this depot.
fn status_beside(
    rt: &HostRuntime,
    room: &str,
    depot: &mut RealDepot<HostRuntime>,
    dir: &str,
    words: &[&str],
) -> Result<u8, Fail> {
    match depot.open(dir, 0) {
        Ok(disk) => {
            let status = run(rt, room, words);
            depot.close(dir, 0, disk);
            status
        }
        Err(_) => Err(Fail::from("an opening")),
    }
}

fn status_beside_reader(rt: &HostRuntime, room: &str, words: &[&str]) -> Result<u8, Fail> {
    let dir = path_in(rt.alloc(), room, "A")?;
    let mut depot = RealDepot::to_read(rt.clone()?, rt.alloc());
    status_beside(rt, room, &mut depot, dir.as_str(), words)
}

fn status_beside_writer(rt: &HostRuntime, room: &str, words: &[&str]) -> Result<u8, Fail> {
    let dir = path_in(rt.alloc(), room, "A")?;
    let mut depot = RealDepot::to_write(rt.clone()?, rt.alloc());
    status_beside(rt, room, &mut depot, dir.as_str(), words)
}

fn all_end_so_beside(rt: &HostRuntime, room: &str) -> Result<(), Fail> {
    let _ = run(rt, room, INIT)?;
    for (number, (words, with_reader, with_writer)) in COMMANDS.iter().enumerate() {
        if status_beside_reader(rt, room, words)? != *with_reader
            || status_beside_writer(rt, room, words)? != *with_writer
        {
            return Err(Fail::new(number));
        }
    }
    Ok(())
}

/// What reads goes beside what reads, and what writes goes alone.
#[test]
fn commands_go_beside_each_other(rt: HostRuntime) -> Result<(), Fail> {
    let room = room_with_jobs(&rt, "beside")?;
    all_end_so_beside(&rt, room.as_str())?;
    clear(&rt, room.as_str())
}
