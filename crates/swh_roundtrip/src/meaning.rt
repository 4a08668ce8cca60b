//! What the commands of what was cooked make.
ghost use Rattle.std.specs.Prelude.{ℕ, List, Option};
ghost use Rattle.swh_base.specs.declared.kind.Kind.{Kind};
ghost use Rattle.swh_base.specs.declared.name.Name.{Name};
ghost use Rattle.swh_model.specs.Archive.{Bodies, IsGraphOf};
ghost use Rattle.swh_postorder.specs.Postorder.{IsPostorder};
ghost use Rattle.swh_carried.specs.Uncarried.{AreCarried};
ghost use Rattle.swh_fastgrammar.specs.declared.command.Command.{Command as Said};
ghost use Rattle.swh_roundtrip.specs.Commands.{AreObjectCommands};
ghost use Rattle.swh_roundtrip.specs.Made.{AreMadeAgain};
ghost use Rattle.swh_roundtrip.specs.Rules.{BreaksObjects};
ghost use Rattle.swh_roundtrip.specs.Sound.{AreNamed};

/// The commands of what is carried, one object after another, lead each mark to its name, and make nothing but what is
/// held.
pub fn objects_are_made_again()
    ensures { (id : Kind → List ℕ → List ℕ) (bodies : Bodies) (children_of : Name → Option (List Name)) (root : Name)
        (order : List Name) (commands : List Said) → AreNamed id bodies
        → IsGraphOf bodies children_of → IsPostorder children_of root order
        → AreCarried children_of (BreaksObjects bodies root order) order
        → AreObjectCommands bodies order order commands → AreMadeAgain id bodies order commands }
{}
