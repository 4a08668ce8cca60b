//! What the lines of a stream name, among marks and tips (git-fast-import(1), from, merge and filemodify).
ghost use Rattle.std.specs.Prelude.{◌≡◌, Ok, IfOk, IfErr};
ghost use Rattle.std.specs.Option.{option_map};
ghost use Rattle.swh_fastmeaning.specs.Aims.{or_missing, commit_at, object_at, blob_at};
ghost use Rattle.swh_fastmeaning.specs.Missings.{ExplainsMissing};
ghost use Rattle.swh_fastmeaning.specs.Tips.{aim_of};

use crate::aims::{MarksAndTips, Target, blob_of, commit_of};
use crate::feed_fault::FeedFault;
use swh_fastgrammar::{Commitish, StreamWhy};

/// The target, or why it is missing in the line at this place.
fn or_missing(target: Option<Target>, at: u64, why: StreamWhy) -> Result<Target, FeedFault>
    ensures ok { IfOk result (λ t. or_missing (option_map aim_of target) at why ≡ Ok (aim_of t)) }
    ensures err { IfErr result (ExplainsMissing (or_missing (option_map aim_of target) at why)) }
{
    match target {
        Some(target) => Ok(target),
        None => Err(FeedFault::BadStream { at, why }),
    }
}

impl MarksAndTips {
    /// The commit that the line at this place names. `BadStream` tells the place where its mark is not set or is of no
    /// commit, or where its ref has no commit as its tip.
    pub fn commit_at(&self, at: u64, it: &Commitish) -> Result<Target, FeedFault>
        ensures ok { IfOk result (λ t. commit_at self.now at it.now ≡ Ok (aim_of t)) }
        ensures err { IfErr result (ExplainsMissing (commit_at self.now at it.now)) }
    {
        match it {
            Commitish::Mark(mark) => or_missing(commit_of(self.mark(*mark)), at, StreamWhy::Mark),
            Commitish::Branch(branch) => {
                or_missing(
                    commit_of(self.tip(branch.as_slice())),
                    at,
                    StreamWhy::Branch,
                )
            }
        }
    }

    /// What a tag is of: the object of a mark, or the commit that is the tip of a ref. `BadStream` tells the place where
    /// there is none.
    pub fn object_at(&self, at: u64, it: &Commitish) -> Result<Target, FeedFault>
        ensures ok { IfOk result (λ t. object_at self.now at it.now ≡ Ok (aim_of t)) }
        ensures err { IfErr result (ExplainsMissing (object_at self.now at it.now)) }
    {
        match it {
            Commitish::Mark(mark) => or_missing(self.mark(*mark), at, StreamWhy::Mark),
            Commitish::Branch(branch) => {
                or_missing(
                    commit_of(self.tip(branch.as_slice())),
                    at,
                    StreamWhy::Branch,
                )
            }
        }
    }

    /// The blob of a mark. `BadStream` tells the place where the mark is not set or is of no blob.
    pub fn blob_at(&self, at: u64, mark: u64) -> Result<Target, FeedFault>
        ensures ok { IfOk result (λ t. blob_at self.now at mark ≡ Ok (aim_of t)) }
        ensures err { IfErr result (ExplainsMissing (blob_at self.now at mark)) }
    {
        or_missing(blob_of(self.mark(mark)), at, StreamWhy::Mark)
    }
}
