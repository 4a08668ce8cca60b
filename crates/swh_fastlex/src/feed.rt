// The LF that may follow data, read through a window.
ghost use Rattle.std.specs.Prelude.{◌≡◌, ◌≤◌, ◌+◌, ◌^◌, if◌then◌else◌, IfOk, IfErr};
ghost use Rattle.swh_outside.specs.Faults.{HasCause};
ghost use Rattle.swh_outside.specs.Source.{LosesSome};
ghost use Rattle.swh_fastlex.specs.Line.{unread, TakesFeed};

use crate::window::Window;
use swh_base::behind;
use swh_outside::{Failed, Source};

/// Reads an LF where one is next, and answers whether it was there. One is not there where nothing is to be read.
///
/// # Errors
///
/// The source failed.
pub fn next_feed<S: Source>(window: &mut Window, source: &mut S) -> Result<bool, Failed>
    requires { window.old.place ≤ 2 ^ 63 }
    ensures feed { S.tells → IfOk result (TakesFeed window.old window.new (S.left source.old) (S.left source.new)) }
    ensures counted { IfOk result (λ taken. window.new.place ≡ window.old.place + (if taken then 1 else 0)) }
    ensures loses { S.tells → IfErr result (λ _. LosesSome (unread window.old (S.left source.old))
        (unread window.new (S.left source.new))) }
    ensures place { window.new.place ≤ window.old.place + 1 }

    ensures same_path { S.path source.new ≡ S.path source.old }
    ensures cause { HasCause (S.faults source.old) (S.faults source.new) result }
{
    if !window.fill(source)? {
        return Ok(false);
    }
    let Some(_) = behind(b"\n", window.held()) else {
        return Ok(false);
    };
    window.skip(1);
    Ok(true)
}
