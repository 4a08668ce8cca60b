//! What marks and refs lead to while a stream is read (git-fast-import(1), mark, reset and tag).
ghost use Rattle.std.specs.Prelude.{◌≡◌, OnOk, IfOk, map};
ghost use Rattle.std.specs.Option.{option_map};
ghost use Rattle.swh_fastmeaning.specs.Aims.{no_aims, mark_at, tip_at, with_mark, with_tip, without_tip, if_commit, if_blob};
ghost use Rattle.swh_fastmeaning.specs.Ending.{Ascend, AreSides};
ghost use Rattle.swh_fastmeaning.specs.Snapshots.{tip_branch};
ghost use Rattle.swh_fastmeaning.specs.Tips.{aim_of, tip_of};

use crate::marks::Marks;
use crate::sides::{Sides, no_sides, with_branch};
use std::alloc::Global;
use std::collections::BTreeMap;
use std::marker::Model;
use swh_base::{Bytes, Kind, Memory, Name};
use swh_snpfmt::{Branch, Target as ToObject};
use swh_trees::Tree;

/// An object, and where it is a commit its tree.
#[derive(Clone, Copy, Debug)]
pub struct Target {
    pub name: Name,
    pub tree: Tree,
}

/// What the marks and the refs with a tip lead to. A later setting replaces an earlier one.
#[derive(Drop)]
pub struct MarksAndTips {
    marks: Marks,
    tips: BTreeMap<Vec<u8>, Target>,
}

impl Model for MarksAndTips {
    ghost use Rattle.swh_fastmeaning.specs.Aims.{AllAims};
    ghost use Rattle.swh_trees.specs.declared.tree.Tree.{Tree};
    ghost use Rattle.swh_fastmeaning.specs.Tips.{aims_of};

    ghost Value = { AllAims Tree };

    ghost view = { λ a. aims_of a.marks a.tips.entries };
}

/// The target, where it is a commit.
pub fn commit_of(target: Option<Target>) -> Option<Target>
    ensures { option_map aim_of result ≡ if_commit (option_map aim_of target) }
{
    let target = target?;
    match target.name.kind {
        Kind::Revision => Some(target),
        Kind::Content | Kind::Directory | Kind::Release | Kind::Snapshot => None,
    }
}

/// The target, where it is a blob.
pub fn blob_of(target: Option<Target>) -> Option<Target>
    ensures { option_map aim_of result ≡ if_blob (option_map aim_of target) }
{
    let target = target?;
    match target.name.kind {
        Kind::Content => Some(target),
        Kind::Directory | Kind::Revision | Kind::Release | Kind::Snapshot => None,
    }
}

/// The branches of tips on both sides of `HEAD`.
fn sides_of(alloc: Global, tips: &BTreeMap<Vec<u8>, Target>) -> Result<Sides, Memory>
    ensures sides { IfOk result (AreSides (map tip_branch (map tip_of tips.now.entries))) }
    ensures ascend { IfOk result (λ _. Ascend (map tip_branch (map tip_of tips.now.entries))) }
{
    let mut sides = no_sides(alloc);
    for (name, target) in tips.iter() {
        let branch = Branch {
            name: Bytes::from_slice(alloc, name.as_slice())?,
            target: ToObject::Object(target.name),
        };
        sides = with_branch(sides, branch)?;
    }
    Ok(sides)
}

impl MarksAndTips {
    /// Where nothing is set.
    pub fn new(alloc: Global) -> MarksAndTips
        ensures { result ≡ no_aims }
    {
        MarksAndTips {
            marks: Marks::new(alloc),
            tips: BTreeMap::new(alloc),
        }
    }

    /// What a mark leads to.
    pub fn mark(&self, mark: u64) -> Option<Target>
        ensures { option_map aim_of result ≡ mark_at mark self.now }
    {
        self.marks.get(mark)
    }

    /// The tip of a ref.
    pub fn tip(&self, branch: &[u8]) -> Option<Target>
        ensures { option_map aim_of result ≡ tip_at branch.now self.now }
    {
        self.tips.get(branch).copied()
    }

    /// Sets a mark, where one is given.
    pub fn set_mark(&mut self, mark: Option<u64>, target: Target) -> Result<(), Memory>
        ensures ok { OnOk result (self.new ≡ with_mark mark (aim_of target) self.old) }
    {
        match mark {
            Some(mark) => self.marks.set(mark, target),
            None => Ok(()),
        }
    }

    /// Sets the tip of a ref.
    pub fn set_tip(&mut self, alloc: Global, branch: &[u8], target: Target) -> Result<(), Memory>
        ensures ok { OnOk result (self.new ≡ with_tip branch.now (aim_of target) self.old) }
    {
        self.tips.insert(Vec::from_slice(alloc, branch)?, target)?;
        Ok(())
    }

    /// Sets a mark, where one is given, and the tip of a ref.
    pub fn set_both(
        &mut self,
        alloc: Global,
        mark: Option<u64>,
        branch: &[u8],
        target: Target,
    ) -> Result<(), Memory>
        ensures { OnOk result (self.new ≡ with_tip branch.now (aim_of target) (with_mark mark (aim_of target) self.old)) }
    {
        self.set_mark(mark, target)?;
        self.set_tip(alloc, branch, target)
    }

    /// Takes the tip of a ref away.
    pub fn drop_tip(&mut self, branch: &[u8])
        ensures { self.new ≡ without_tip branch.now self.old }
    {
        let _ = self.tips.remove(branch);
    }

    /// The branches of the tips on both sides of `HEAD`.
    pub fn sides(&self, alloc: Global) -> Result<Sides, Memory>
        ensures sides { IfOk result (AreSides (map tip_branch self.now.tips)) }
        ensures ascend { IfOk result (λ _. Ascend (map tip_branch self.now.tips)) }
    {
        sides_of(alloc, &self.tips)
    }
}
