//! Streams made of a seed: small histories for a loader to load, the same on every machine.
//! Stands on `itoa` alone.
//! Callers may rely on: a seed, a number and a size determine the stream's bytes, which `job_text` defines.
#![tactic(auto)]

ghost use Rattle.std.specs.Prelude.{◌≡◌, ◌+◌, ◌<◌, ◌++◌, ◌^◌, IfOk, OnOk, decimal};
ghost use Rattle.swh_gen.specs.Stream.{state_after, drawn, data_text, commit_text, job_text};

use itoa::Buffer;
use std::alloc::{AllocError, Global};

// One step of the generator.
#[tactic(auto, unfolding(crate::specs::Stream::state_after))]
fn state_after(x: u64) -> u64
    ensures { result ≡ state_after x }
{
    x.wrapping_mul(6_364_136_223_846_793_005)
        .wrapping_add(1_442_695_040_888_963_407)
}

// The number that a state gives: its upper 32 bits.
fn drawn(x: u64) -> u64
    ensures value { result ≡ drawn x }
    ensures small { result < 2 ^ 32 }
{
    x / 4_294_967_296
}

fn push_decimal(text: &mut Vec<u8>, number: u64) -> Result<(), AllocError>
    ensures { OnOk result (text.new.items ≡ text.old.items ++ decimal number) }
{
    let mut buffer = Buffer::new();
    text.extend_from_slice(buffer.format(number).as_bytes())
}

// The file's new contents, with their length before them.
fn push_data(text: &mut Vec<u8>, number: u64) -> Result<(), AllocError>
    ensures { OnOk result (text.new.items ≡ text.old.items ++ data_text number) }
{
    let mut buffer = Buffer::new();
    let digits = buffer.format(number).as_bytes();
    let length = digits.len() as u64 + 1;
    push_decimal(text, length)?;
    text.extend_from_slice(b"\n")?;
    text.extend_from_slice(digits)?;
    text.extend_from_slice(b"\n\n")?;
    Ok(())
}

fn push_commit(text: &mut Vec<u8>, place: u32, file: u64, number: u64) -> Result<(), AllocError>
    ensures { OnOk result (text.new.items ≡ text.old.items ++ commit_text place file number) }
{
    text.extend_from_slice(b"commit refs/heads/main\ncommitter G <g@e.org> ")?;
    push_decimal(text, 1_000_000_000 + u64::from(place))?;
    text.extend_from_slice(b" +0000\ndata 0\nM 644 inline f")?;
    push_decimal(text, file)?;
    text.extend_from_slice(b"\ndata ")?;
    push_data(text, number)?;
    Ok(())
}

/// The stream of the job `i` of a seed, with `size` commits; fails only for want of memory.
pub fn job(alloc: Global, seed: u64, i: u64, size: u32) -> Result<Vec<u8>, AllocError>
    ensures { IfOk result (λ text. text.items ≡ job_text seed i size) }
{
    let mut text = Vec::new(alloc);
    let mut state = seed.wrapping_add(i);
    for place in 0..size {
        let first = state_after(state);
        let second = state_after(first);
        push_commit(&mut text, place, drawn(first) % 16, drawn(second))?;
        state = second;
    }
    Ok(text)
}
