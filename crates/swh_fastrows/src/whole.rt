// What comes next where a command is whole already.
ghost use Rattle.std.specs.Prelude.{◌≡◌, ◌≤◌, ◌^◌, true, false, [], IfOk};
ghost use Rattle.swh_fastrows.specs.ReadOn.{AreReadOn};
ghost use Rattle.swh_fastrows.specs.declared.fail.Outside.TheVariants.{Failed};
ghost use Rattle.swh_fastrows.specs.Held.{IsNext};
ghost use Rattle.swh_fastrows.specs.Places.{Took};
ghost use Rattle.swh_fastrows.specs.Explains.{EndsWhole};

use crate::ahead::Ahead;
use crate::fail::Outside;
use crate::row_source::RowReader;
use swh_fastlines::word_limit;
use swh_outside::Source;

/// Passes over comments and holds the next line; answers whether there is one within the limits. A limit that is passed
/// is told when more is asked for.
pub fn next_line<S: Source>(rows: &mut RowReader<S>) -> Result<bool, Outside>
    ensures line { IfOk result (λ some. some ≡ true → IsNext rows.new) }
    ensures took { S.tells → IfOk result (λ _. Took rows.old rows.new []) }
    ensures end { S.tells → IfOk result (λ some. some ≡ false → EndsWhole rows.new) }
    ensures onward { rows.old.at ≤ rows.new.at }
    ensures within { rows.new.at ≤ 2 ^ 33 }

    ensures on { AreReadOn rows.old rows.new Failed result }
{
    match rows.look()? {
        Ahead::Line => match word_limit(rows.alloc(), rows.line())? {
            Some(_) => Ok(false),
            None => Ok(true),
        },
        Ahead::End => Ok(false),
        Ahead::Long => Ok(false),
        Ahead::Over => Ok(false),
    }
}
