//! That each call has one answer.
ghost use Rattle.std.specs.Prelude.{◌≡◌, ℕ, List};
ghost use Rattle.swh_base.specs.declared.name.Name.{Name};
ghost use Rattle.swh_base.specs.Directory.{DirectoryEntry};
ghost use Rattle.swh_model.specs.Archive.{Bodies};
ghost use Rattle.swh_swhid.specs.declared.swhid.Swhid.{Swhid};
ghost use Rattle.swh_graph.specs.Answer.{GraphAnswer};
ghost use Rattle.swh_graph.specs.Log.{IsLogAnswer};
ghost use Rattle.swh_graph.specs.Path.{IsEntryAnswer, IsPathAnswer};
ghost use Rattle.swh_graph.specs.Resolve.{IsResolveAnswer};
ghost use Rattle.swh_graph.specs.Reached.{IsReachAnswer};

/// A revision has one log, or one name that is missing from it.
pub fn one_log()
    ensures { (bodies : Bodies) (root : Name) (limit : ℕ) (a b : GraphAnswer (List Name))
        → IsLogAnswer bodies root limit a → IsLogAnswer bodies root limit b → a ≡ b }
{}

/// Components lead to one entry, or fail to in one way.
pub fn one_entry()
    ensures { (bodies : Bodies) (root : Name) (components : List (List ℕ)) (a b : GraphAnswer DirectoryEntry)
        → IsEntryAnswer bodies root components a → IsEntryAnswer bodies root components b → a ≡ b }
{}

/// A path leads to one entry, or fails to in one way.
pub fn one_path()
    ensures { (bodies : Bodies) (root : Name) (path : List ℕ) (a b : GraphAnswer DirectoryEntry)
        → IsPathAnswer bodies root path a → IsPathAnswer bodies root path b → a ≡ b }
{}

/// A SWHID resolves in one way.
pub fn one_resolution()
    ensures { (bodies : Bodies) (swhid : Swhid) (a b : GraphAnswer Name)
        → IsResolveAnswer bodies swhid a → IsResolveAnswer bodies swhid b → a ≡ b }
{}

/// One list of names is reached from a name, or one is the first that is missing.
pub fn one_reach()
    ensures { (bodies : Bodies) (root : Name) (a b : GraphAnswer (List Name))
        → IsReachAnswer bodies root a → IsReachAnswer bodies root b → a ≡ b }
{}
