/// A tree of some `Trees`: the number of its root's folder, and none where the tree is empty. Two numbers may stand for
/// the same tree.
#[derive(Clone, Copy, Debug, PartialEq, Eq)]
pub struct Tree {
    pub number: Option<usize>,
}

ghost use Rattle.std.specs.Prelude.{[]};
ghost use Rattle.swh_trees.specs.Grove.{Grove, StandsFor};

impl Tree {
    /// The tree in which nothing stands (git-fast-import(1), filedeleteall).
    pub fn empty() -> Tree
        ensures { (trees : Grove) → StandsFor trees result [] }
    {
        Tree { number: None }
    }
}
