// Data up to a delimiter (git-fast-import(1), data), read through a window.
ghost use Rattle.std.specs.Prelude.{
  ◌≡◌,
  ◌↔◌,
  ◌≤◌,
  ◌<◌,
  ◌+◌,
  ◌^◌,
  ◌∷◌,
  [],
  ◌++◌,
  IfOk,
  IfErr,
  IsTrue,
  length,
};
ghost use Rattle.swh_outside.specs.Source.{LosesSome};
ghost use Rattle.swh_base.specs.Limits.{body_limit, line_limit};
ghost use Rattle.swh_fastlex.specs.ReadOn.{IsReadOn};
ghost use Rattle.swh_fastlex.specs.Line.{unread, Takes};
ghost use Rattle.swh_fastlex.specs.Delimited.{AreLines, IsDataFault};
ghost use Rattle.swh_fastlex.specs.declared.fault.DataFault.TheVariants.{Failed};

use crate::fault::DataFault;
use crate::line::next_line;
use crate::window::Window;
use std::alloc::Global;
use swh_base::behind;
use swh_outside::Source;

/// Whether a line with its LF is just the word.
fn is_word_line(line: &[u8], word: &[u8]) -> bool
    ensures { IsTrue result ↔ line.now ≡ word.now ++ 10 ∷ [] }
{
    let Some(rest) = behind(word, line) else {
        return false;
    };
    rest == b"\n".as_slice()
}

/// The lines before the line that is just `word`, each with its LF. The line of the word is read too. A line is at most
/// 1,048,576 bytes long with its LF, and the data no longer than `limit`, in bytes.
///
/// # Errors
///
/// `End` where the input ends before that line, which may be inside a line; `Line` where a line is too long; `Body`
/// where the data are, with the line that was read last; `Failed` where the source fails, and `Memory`.
pub fn next_delimited<S: Source>(
    alloc: Global,
    window: &mut Window,
    source: &mut S,
    word: &[u8],
    limit: usize,
) -> Result<Vec<u8>, DataFault>
    requires place { window.old.place ≤ 2 ^ 62 }
    requires limit { limit ≤ body_limit }
    ensures lines { IfOk result (λ bytes. AreLines word.now bytes.items) }
    ensures within { IfOk result (λ bytes. length bytes.items ≤ limit) }
    ensures taken { S.tells → IfOk result (λ bytes. Takes window.old window.new (S.left source.old)
        (S.left source.new) (bytes.items ++ (word.now ++ 10 ∷ []))) }
    ensures counted { IfOk result (λ bytes. window.new.place
        ≡ window.old.place + (length bytes.items + (length word.now + 1))) }
    ensures fault { S.tells → IfErr result (IsDataFault word.now limit window.old window.new
        (S.left source.old) (S.left source.new)) }
    ensures loses { S.tells → IfErr result (λ _. LosesSome (unread window.old (S.left source.old))
        (unread window.new (S.left source.new))) }
    ensures place { IfErr result (λ _. window.new.place ≤ window.old.place + (limit + line_limit)) }

    ensures on { IsReadOn S.path S.faults source.old source.new Failed result }
{
    let mut bytes = Vec::new(alloc);
    'lines: loop {
        let Some(line) = next_line(alloc, window, source)? else {
            return Err(DataFault::End);
        };
        if is_word_line(line.as_slice(), word) {
            return Ok(bytes);
        }
        if line.len() > limit - bytes.len() {
            return Err(DataFault::Body);
        }
        bytes.extend_from_slice(line.as_slice())?;
    }
}
