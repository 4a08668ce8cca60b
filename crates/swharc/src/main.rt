//! The program: its words go to `start`, and it ends as that says.
#![tactic(auto)]

use std::io::ErrorKind;
use std::{env, io};
use swh_real::RealSink;
use swh_start::{End, end_without_memory, start};

// The words after the program's name. Words that are not UTF-8 are none, which no command is.
fn read_words(rt: &HostRuntime) -> io::Result<Vec<String>> {
    let mut words = Vec::new(rt.alloc());
    let args = match env::args(rt) {
        Ok(args) => args,
        Err(fault) => {
            if fault.kind() == ErrorKind::InvalidData {
                return Ok(words);
            }
            return Err(fault);
        }
    };
    for word in args.skip(1) {
        words.push(word)?;
    }
    Ok(words)
}

fn main(rt: HostRuntime) -> End {
    let sink = RealSink::new(io::writer(&rt));
    match read_words(&rt) {
        Ok(words) => start(&rt, rt.alloc(), &words, sink),
        Err(_) => end_without_memory(sink),
    }
}
