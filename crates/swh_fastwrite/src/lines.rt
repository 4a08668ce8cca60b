//! Lines that several commands have, and data.
ghost use Rattle.std.specs.Prelude.{◌≡◌, ◌++◌, ◌∷◌, [], OnOk, codes, decimal};
ghost use Rattle.swh_fastwrite.specs.Quoted.{quoted_path};
ghost use Rattle.swh_fastwrite.specs.Text.{
  mark_line,
  data_line,
  data_text,
  marked_line,
  file_line,
  project_line,
};

use crate::quoting::push_path;
use itoa::Buffer;
use swh_base::Memory;

pub fn push_number(out: &mut Vec<u8>, number: u64) -> Result<(), Memory>
    ensures { OnOk result (out.new.items ≡ out.old.items ++ decimal number) }
{
    let mut digits = Buffer::new();
    out.extend_from_slice(digits.format(number).as_bytes())?;
    Ok(())
}

/// A line of a word and a number.
fn push_numbered(out: &mut Vec<u8>, word: &[u8], number: u64) -> Result<(), Memory>
    ensures { OnOk result (out.new.items ≡ out.old.items ++ (word.now ++ (decimal number ++ 10 ∷ []))) }
{
    out.extend_from_slice(word)?;
    push_number(out, number)?;
    out.push(b'\n')?;
    Ok(())
}

/// The line that gives an object its mark.
pub fn push_mark(out: &mut Vec<u8>, mark: u64) -> Result<(), Memory>
    ensures { OnOk result (out.new.items ≡ out.old.items ++ mark_line mark) }
{
    push_numbered(out, b"mark :", mark)
}

/// The line before so many bytes of data.
pub fn push_data_line(out: &mut Vec<u8>, count: u64) -> Result<(), Memory>
    ensures { OnOk result (out.new.items ≡ out.old.items ++ data_line count) }
{
    push_numbered(out, b"data ", count)
}

/// Bytes as data, with an LF after them.
pub fn push_data(out: &mut Vec<u8>, bytes: &[u8]) -> Result<(), Memory>
    ensures { OnOk result (out.new.items ≡ out.old.items ++ data_text bytes.now) }
{
    push_data_line(out, bytes.len() as u64)?;
    out.extend_from_slice(bytes)?;
    out.push(b'\n')?;
    Ok(())
}

/// A line of a word, as `from `, that names an object by its mark.
pub fn push_marked(out: &mut Vec<u8>, word: &[u8], mark: u64) -> Result<(), Memory>
    ensures { OnOk result (out.new.items ≡ out.old.items ++ marked_line word.now mark) }
{
    out.extend_from_slice(word)?;
    push_numbered(out, b":", mark)
}

/// A path and the end of its line.
fn push_path_line(out: &mut Vec<u8>, path: &[u8]) -> Result<(), Memory>
    ensures { OnOk result (out.new.items ≡ out.old.items ++ (32 ∷ (quoted_path path.now ++ 10 ∷ []))) }
{
    out.push(b' ')?;
    push_path(out, path)?;
    out.push(b'\n')?;
    Ok(())
}

/// What the line of a file begins with, up to its mark: of most files, which are plain, it is put at once.
#[tactic(auto, using(crate::proofs::Modes::plain_mode))]
fn push_mode(out: &mut Vec<u8>, mode: u32) -> Result<(), Memory>
    ensures { OnOk result (out.new.items ≡ out.old.items ++ (codes "M " ++ (decimal mode ++ codes " :"))) }
{
    if mode == 100_644 {
        out.extend_from_slice(b"M 100644 :")?;
        return Ok(());
    }
    out.extend_from_slice(b"M ")?;
    push_number(out, mode as u64)?;
    out.extend_from_slice(b" :")?;
    Ok(())
}

/// The line of a file, by its mode's digits as a number and the mark of its content.
pub fn push_file(out: &mut Vec<u8>, mode: u32, mark: u64, path: &[u8]) -> Result<(), Memory>
    ensures { OnOk result (out.new.items ≡ out.old.items ++ file_line mode mark path.now) }
{
    push_mode(out, mode)?;
    push_number(out, mark)?;
    push_path_line(out, path)
}

/// The line of a revision of another project.
pub fn push_project(out: &mut Vec<u8>, id: &[u8; 20], path: &[u8]) -> Result<(), Memory>
    ensures { OnOk result (out.new.items ≡ out.old.items ++ project_line id.now path.now) }
{
    let mut digits = [0; 40];
    let _ = hex::encode_to_slice(id, &mut digits);
    out.extend_from_slice(b"M 160000 ")?;
    out.extend_from_slice(&digits)?;
    push_path_line(out, path)
}
