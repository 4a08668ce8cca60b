// What is told of a damaged archive.
ghost use Rattle.std.specs.Prelude.{◌≡◌, ◌≢◌, IfOk};
ghost use Rattle.swh_exit.specs.Damage.{damaged_line, damaged_body_line, TellsDamageLine};
ghost use Rattle.swh_exit.specs.declared.answer.Answer.TheVariants.{OutsideDisk};

use crate::Answer;
use itoa::Buffer;
use std::alloc::Global;
use swh_base::{Bytes, Memory, Name};
use swh_swhid::core_text;

// What is printed of the first harm: the number of its file, and its byte.
fn damaged_line(alloc: Global, file: u32, at: u64) -> Result<Bytes, Memory>
    ensures { IfOk result (λ line. line ≡ damaged_line file at) }
{
    let mut digits = Buffer::new();
    let mut line = Vec::new(alloc);
    line.extend_from_slice(b"swharc: damaged ")?;
    line.extend_from_slice(digits.format(file).as_bytes())?;
    line.push(b' ')?;
    line.extend_from_slice(digits.format(at).as_bytes())?;
    line.push(b'\n')?;
    Ok(Bytes::from_vec(line))
}

// What is printed of a held body that reads otherwise.
fn damaged_body_line(alloc: Global, name: &Name) -> Result<Bytes, Memory>
    ensures { IfOk result (λ line. line ≡ damaged_body_line name.now) }
{
    let mut text = [0; 50];
    core_text(name, &mut text);
    let mut line = Vec::new(alloc);
    line.extend_from_slice(b"swharc: damaged ")?;
    line.extend_from_slice(&text)?;
    line.push(b'\n')?;
    Ok(Bytes::from_vec(line))
}

/// The answer that tells the first harm of two files: the number of the file, and the byte.
pub fn tell_harm(alloc: Global, file: u32, at: u64) -> Answer
    ensures told { TellsDamageLine (damaged_line file at) result }
    ensures inside { result ≢ OutsideDisk }
{
    match damaged_line(alloc, file, at) {
        Ok(text) => Answer::Damaged { text },
        Err(_) => Answer::Memory,
    }
}

/// The answer that tells the name of a held body that reads otherwise.
pub fn tell_body(alloc: Global, name: &Name) -> Answer
    ensures told { TellsDamageLine (damaged_body_line name.now) result }
    ensures inside { result ≢ OutsideDisk }
{
    match damaged_body_line(alloc, name) {
        Ok(text) => Answer::Damaged { text },
        Err(_) => Answer::Memory,
    }
}
