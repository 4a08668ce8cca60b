// Lines that open data (git-fast-import(1), data).
ghost use Rattle.std.specs.Prelude.{◌++◌, codes};
ghost use Rattle.swh_fastlines.specs.Reading.{IsDataLine};

use swh_base::{behind, number_of, split_at_byte};

/// The data that a line opens.
#[derive(Drop)]
pub enum DataLine<'a> {
    /// So many bytes.
    Counted(u64),
    /// The lines before the line that is just this word.
    Delimited(&'a [u8]),
    /// None.
    No,
}

/// A line `data <<`, from its word on.
fn delimited_line(word: &[u8]) -> DataLine<'_>
    ensures { IsDataLine (codes "data <<" ++ word.now) result }
{
    if word.is_empty() {
        return DataLine::No;
    }
    match split_at_byte(word, b'\n') {
        Some(_) => DataLine::No,
        None => DataLine::Delimited(word),
    }
}

/// The data that the line opens, which is given without its LF: `data` and a number of 1 to 18 digits, or `data <<` and
/// a delimiter of one byte or more.
pub fn data_line(line: &[u8]) -> DataLine<'_>
    ensures { IsDataLine line.now result }
{
    if let Some(word) = behind(b"data <<", line) {
        return delimited_line(word);
    }
    let Some(text) = behind(b"data ", line) else {
        return DataLine::No;
    };
    match number_of(text) {
        Some(count) => DataLine::Counted(count),
        None => DataLine::No,
    }
}
