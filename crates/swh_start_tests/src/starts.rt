// Runs of the program over the system, in the room of a test.
use std::alloc::{AllocError, Global};
use std::fs::File;
use std::test::Fail;
use swh_real::RealSink;
use swh_start::start;
use swh_temp_folders::{is_file_in, path_in};

/// The words of a run, in which a first `@` stands for the room; the status that it gives, and what it prints.
pub type Run = (&'static [&'static str], u8, &'static [u8]);

fn spelled(alloc: Global, room: &str, word: &str) -> Result<String, AllocError> {
    match word.strip_prefix('@') {
        Some(rest) => format!(in alloc; "{room}{rest}"),
        None => String::from_str(alloc, word),
    }
}

fn all_spelled(alloc: Global, room: &str, words: &[&str]) -> Result<Vec<String>, AllocError> {
    let mut own = Vec::new(alloc);
    for word in words {
        own.push(spelled(alloc, room, word)?)?;
    }
    Ok(own)
}

fn printer(rt: &HostRuntime, room: &str) -> Result<RealSink<File>, Fail> {
    let path = path_in(rt.alloc(), room, "printed")?;
    Ok(RealSink::new(File::create(rt, path.as_str())?))
}

/// Runs the program on these words, which print into the file `printed`, and gives the status.
pub fn run(rt: &HostRuntime, room: &str, words: &[&str]) -> Result<u8, Fail> {
    let words = all_spelled(rt.alloc(), room, words)?;
    Ok(start(rt, rt.alloc(), &words, printer(rt, room)?).status())
}

/// Runs the program on the words of each run, and fails with the number, from 0, of the first that ends in another way.
pub fn all_end_so(rt: &HostRuntime, room: &str, runs: &[Run]) -> Result<(), Fail> {
    for (number, (words, status, printed)) in runs.iter().enumerate() {
        let given = run(rt, room, words)?;
        if given != *status || !is_file_in(rt, room, "printed", printed)? {
            return Err(Fail::new(number));
        }
    }
    Ok(())
}
