//! What the definitions determine.
ghost use Rattle.std.specs.Prelude.{◌≡◌, ℕ, List, Option};
ghost use Rattle.swh_base.specs.declared.kind.Kind.{Kind};
ghost use Rattle.swh_base.specs.declared.name.Name.{Name};
ghost use Rattle.swh_base.specs.Directory.{DirectoryEntry, IsDirectory};
ghost use Rattle.swh_base.specs.Manifest.{AreChildren};
ghost use Rattle.swh_base.specs.Reach.{IsClosedIn, AreClosedIn, CertifiesIn, IsAmong, IsWithin};

/// A body is a directory in one way at most.
pub fn one_listing()
    ensures { (body : List ℕ) (es fs : List DirectoryEntry) → IsDirectory body es → IsDirectory body fs → es ≡ fs }
{}

/// A body names one list of children at most.
pub fn one_list_of_children()
    ensures { (kind : Kind) (body : List ℕ) (ns ms : List Name) → AreChildren kind body ns → AreChildren kind body ms
        → ns ≡ ms }
{}

/// Where a graph grows, what was closed is closed.
pub fn growth_keeps_closed()
    ensures { (a b : Name → Option (List Name)) (root : Name) → IsWithin a b → IsClosedIn a root → IsClosedIn b root }
{}

/// A certificate shows that its root is closed, and each name that it lists.
pub fn certificates_show_closed()
    ensures root { (children_of : Name → Option (List Name)) (closed names : List Name) (root : Name)
        → AreClosedIn children_of closed → CertifiesIn children_of closed names root → IsClosedIn children_of root }
    ensures listed { (children_of : Name → Option (List Name)) (closed names : List Name) (root : Name)
        → AreClosedIn children_of closed → CertifiesIn children_of closed names root → AreClosedIn children_of names }
{}

/// A certificate stays good where the graph grows and more is known to be closed.
pub fn growth_keeps_certificates()
    ensures { (a b : Name → Option (List Name)) (closed more names : List Name) (root : Name)
        → IsWithin a b → IsAmong closed more → CertifiesIn a closed names root → CertifiesIn b more names root }
{}
