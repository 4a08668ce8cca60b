//! Words that are printed.
ghost use Rattle.std.specs.Prelude.{◌≡◌};
ghost use Rattle.swh_carried.specs.Words.{why_word};

use crate::fault::Why;

/// The word that tells why a form cannot carry an object.
pub fn why_word(why: Why) -> &'static str
    ensures { result.now ≡ why_word why }
{
    match why {
        Why::Cycle => "cycle",
        Why::Revision => "revision",
        Why::Release => "release",
        Why::Empty => "empty",
        Why::Dots => "dots",
        Why::Text => "text",
        Why::Path => "path",
        Why::Branch => "branch",
        Why::Tagless => "tagless",
        Why::Refs => "refs",
        Why::Length => "length",
    }
}
