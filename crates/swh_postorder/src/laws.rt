//! What the definition of the order determines.
ghost use Rattle.std.specs.Prelude.{◌≡◌, ◌↔◌, None, List, Option, Contains};
ghost use Rattle.swh_base.specs.declared.name.Name.{Name};
ghost use Rattle.swh_base.specs.Reach.{IsChildIn, IsClosedIn, ReachesIn};
ghost use Rattle.swh_postorder.specs.Postorder.{IsPostorder, IsFirstMissing, Precedes, PrecedesOrReturns};

/// A root has one order at most.
pub fn one_postorder()
    ensures { (children_of : Name → Option (List Name)) (root : Name) (a b : List Name)
        → IsPostorder children_of root a → IsPostorder children_of root b → a ≡ b }
{}

/// At most one name is the first that is entered and not held.
pub fn one_missing()
    ensures { (children_of : Name → Option (List Name)) (root m n : Name)
        → IsFirstMissing children_of root m → IsFirstMissing children_of root n → m ≡ n }
{}

/// Where a name is missing there is no order.
pub fn order_or_missing()
    ensures { (children_of : Name → Option (List Name)) (root missing : Name) (order : List Name)
        → IsPostorder children_of root order → IsFirstMissing children_of root missing → ⊥ }
{}

/// The name that is missing is reached, and not held.
pub fn missing_names_are_reached()
    ensures { (children_of : Name → Option (List Name)) (root missing : Name) → IsFirstMissing children_of root missing
        → ReachesIn children_of root missing × (children_of missing ≡ None) }
{}

/// The order has just the names that are reached, each once, and all of them are held.
pub fn order_is_reached()
    ensures are { (children_of : Name → Option (List Name)) (root : Name) (order : List Name)
        → IsPostorder children_of root order → (n : Name) → Contains order n ↔ ReachesIn children_of root n }
    ensures once { (children_of : Name → Option (List Name)) (root : Name) (order : List Name)
        → IsPostorder children_of root order → (n : Name) → Precedes order n n → ⊥ }
    ensures closed { (children_of : Name → Option (List Name)) (root : Name) (order : List Name)
        → IsPostorder children_of root order → IsClosedIn children_of root }
{}

/// Each child of a name in the order stands before it, or leads back to it.
pub fn children_precede()
    ensures { (children_of : Name → Option (List Name)) (root : Name) (order : List Name)
        → IsPostorder children_of root order → (parent child : Name) → Contains order parent
        → IsChildIn children_of parent child → PrecedesOrReturns children_of order child parent }
{}
