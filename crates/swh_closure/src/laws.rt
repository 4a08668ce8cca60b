//! That certificates and refusals exclude each other.
ghost use Rattle.std.specs.Prelude.{List, Option};
ghost use Rattle.swh_base.specs.declared.name.Name.{Name};
ghost use Rattle.swh_base.specs.Reach.{IsClosedIn, CertifiesIn};
ghost use Rattle.swh_closure.specs.declared.certificate.Gap.{Gap};
ghost use Rattle.swh_closure.specs.Certificate.{IsGap, IsMissing};

/// Names with a gap are no certificate.
pub fn gaps_refute_certificates()
    ensures { (children_of : Name → Option (List Name)) (closed names : List Name) (root : Name) (gap : Gap)
        → IsGap children_of closed names root gap → CertifiesIn children_of closed names root → ⊥ }
{}

/// Where a reached name is not held, the root is not closed.
pub fn missing_names_refute_closure()
    ensures { (children_of : Name → Option (List Name)) (root : Name) (parent : Option Name) (child : Name)
        → IsMissing children_of root parent child → IsClosedIn children_of root → ⊥ }
{}
