//! A loader of commands: it makes their objects, and at the end a snapshot.
ghost use Rattle.std.specs.Prelude.{◌≡◌, Contains, Ok, Err, IfOk, IfErr};
ghost use Rattle.std.specs.List.{AllByRecursion};
ghost use Rattle.swh_fastmeaning.specs.Aims.{no_aims};
ghost use Rattle.swh_fastmeaning.specs.Commands.{step};
ghost use Rattle.swh_fastmeaning.specs.Feeding.{Loading, IsGivable, ExplainsFeed};
ghost use Rattle.std.specs.Option.{option_copied};
ghost use Rattle.swh_fastmeaning.specs.Ending.{IsHead, EndsWith, ExplainsEnd};
ghost use Rattle.swh_fastload.specs.Loads.{no_loading, FeedsTo, Refuses, Repeats};
ghost use Rattle.swh_fastmeaning.specs.Parting.{stock_of};
ghost use Rattle.swh_fastmeaning.specs.Stock.{loading_of, IsStocked, Leads};
ghost use Rattle.swh_dedup.specs.Making.{names_of_made};

use crate::commit::{Commit, CommitText, feed_commit};
use crate::ending::end_parts;
use crate::feeding::{feed_blob, feed_reset, feed_tag};
use std::alloc::Global;
use std::marker::Model;
use swh_base::{Name, Namer, Shared};
use swh_dedup::Seen;
use swh_fastgrammar::Command;
use swh_fastmeaning::{FeedFault, MarksAndTips, Parts};
use swh_object::Object;
use swh_trees::Trees;

/// A loader of the commands of one stream. Contracts see what marks and tips lead to and the objects that were given, or
/// the refusal that ended the load.
#[derive(Drop)]
pub struct FastLoad<N: Namer> {
    parts: Parts<N>,
    refusal: Option<FeedFault>,
}

impl<N: Namer> Model for FastLoad<N> {
    ghost use Rattle.std.specs.Prelude.{Result};
    ghost use Rattle.swh_fastmeaning.specs.Feeding.{Loading, state_of};
    ghost use Rattle.swh_fastmeaning.specs.declared.feed_fault.FeedFault.{FeedFault};

    ghost Value = { Result Loading FeedFault };

    ghost use Rattle.swh_fastmeaning.specs.Parting.{stock_of};
    ghost use Rattle.swh_fastmeaning.specs.Stock.{loading_of};
    ghost use Rattle.swh_fastload.specs.Loads.{IsStockedUnless};

    ghost view = { λ f. state_of f.refusal (loading_of (stock_of f.parts)) };

    ghost invariant = { λ f. IsStockedUnless N.id_of f.refusal (stock_of f.parts) };
}

/// What a command makes.
fn feed_command<N: Namer>(
    alloc: Global,
    parts: &mut Parts<N>,
    command: Command,
) -> Result<Vec<Object<N>>, FeedFault>
    requires stocked { IsStocked N.id_of (stock_of parts.old) }
    requires command { IsGivable command }
    ensures ok { IfOk result (λ os. Leads N.id_of (stock_of parts.old) command (stock_of parts.new) os.items) }
    ensures err { IfErr result (ExplainsFeed N.id_of (step N.id_of (loading_of (stock_of parts.old)).aims command)) }
{
    match command {
        Command::Blob { mark, bytes } => feed_blob(alloc, parts, mark, bytes.into_vec()),
        Command::Commit {
            branch,
            mark,
            author,
            committer,
            encoding,
            message,
            parent,
            merges,
            changes,
        } => {
            let text = CommitText {
                author,
                committer,
                encoding,
                message,
            };
            let commit = Commit {
                branch,
                mark,
                parent,
                merges,
                changes,
            };
            feed_commit(alloc, parts, &commit, text)
        }
        Command::Tag {
            branch,
            mark,
            target,
            tagger,
            message,
        } => feed_tag(
            alloc,
            parts,
            branch.as_slice(),
            mark,
            &target,
            tagger,
            message,
        ),
        Command::Reset { branch, parent } => {
            feed_reset(alloc, parts, branch.as_slice(), &parent)?;
            Ok(Vec::new(alloc))
        }
    }
}

impl<N: Namer> FastLoad<N> {
    /// Nothing is set, and nothing was given.
    pub fn new(alloc: Global, namer: N) -> FastLoad<N>
        ensures { result ≡ Ok no_loading }
    {
        let parts = Parts {
            namer,
            trees: Trees::new(alloc, namer),
            aims: MarksAndTips::new(alloc),
            seen: Seen::new(alloc),
        };
        FastLoad {
            parts,
            refusal: None,
        }
    }

    /// The objects that the command makes and that were not made before, each after all that it names. `BadStream` tells
    /// the place of the first line that names a mark, a ref or a path that is not there; `Limit` the bytes of a body that
    /// is above the limit. After a refusal each command is refused the same way.
    pub fn feed(&mut self, alloc: Global, command: Command) -> Result<Vec<Object<N>>, FeedFault>
        requires { IsGivable command }
        ensures ok { (l : Loading) → self.old ≡ Ok l → IfOk result (λ os. FeedsTo N.id_of l command self.new os.items) }
        ensures err { (l : Loading) → self.old ≡ Ok l
            → IfErr result (Refuses (ExplainsFeed N.id_of (step N.id_of l.aims command)) self.new) }
        ensures same { Repeats self.old result self.new }
    {
        if let Some(fault) = self.refusal {
            return Err(fault);
        }
        match feed_command(alloc, &mut self.parts, command) {
            Ok(objects) => Ok(objects),
            Err(fault) => {
                self.refusal = Some(fault);
                Err(fault)
            }
        }
    }

    /// The snapshot of the tips: a branch for each ref with a tip and, where a head is named, `HEAD` as an alias to it.
    /// `Limit` tells the number of refs with a tip, but for `HEAD`, where those are more than 65,536, and else the bytes
    /// of the snapshot where its body is above the limit. The load may go on afterwards; after a refusal it is refused
    /// the same way again.
    pub fn finish(&mut self, alloc: Global, head: Option<&[u8]>) -> Result<Object<N>, FeedFault>
        requires { IsHead (option_copied head) }
        ensures ok { (l : Loading) → self.old ≡ Ok l → IfOk result (EndsWith (option_copied head.entry) l self.new) }
        ensures kids { (l : Loading) → self.old ≡ Ok l
            → IfOk result (λ o. AllByRecursion (Contains (names_of_made N.id_of l.given)) o.kids) }
        ensures err { (l : Loading) → self.old ≡ Ok l
            → IfErr result (Refuses (ExplainsEnd (option_copied head.entry) l.aims) self.new) }
        ensures same { Repeats self.old result self.new }
    {
        if let Some(fault) = self.refusal {
            return Err(fault);
        }
        match end_parts(alloc, &self.parts, head) {
            Ok(object) => Ok(object),
            Err(fault) => {
                self.refusal = Some(fault);
                Err(fault)
            }
        }
    }

    /// Where an object of this name and body was made, this body is kept in place of its own. Nothing else changes.
    pub fn share(&mut self, name: &Name, body: Shared<u8>)
        ensures { self.new ≡ self.old }
    {
        self.parts.seen.share(name, body);
    }
}
