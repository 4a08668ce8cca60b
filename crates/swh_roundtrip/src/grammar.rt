//! That the text of what is carried is a stream.
ghost use Rattle.std.specs.Prelude.{ℕ, ◌^◌, ◌≤◌, false, List, Option, length};
ghost use Rattle.swh_base.specs.declared.name.Name.{Name};
ghost use Rattle.swh_model.specs.Archive.{Bodies, IsGraphOf};
ghost use Rattle.swh_postorder.specs.Postorder.{IsPostorder};
ghost use Rattle.swh_carried.specs.Uncarried.{AreCarried};
ghost use Rattle.swh_fastcook.specs.Stream.{IsStreamText};
ghost use Rattle.swh_fastgrammar.specs.declared.command.Command.{Command as Said};
ghost use Rattle.swh_fastrows.specs.Outcome.{IsStreamWithin};
ghost use Rattle.swh_roundtrip.specs.Commands.{AreStreamCommands};
ghost use Rattle.swh_roundtrip.specs.Rules.{BreaksObjects};
ghost use Rattle.swh_roundtrip.specs.Sound.{AreInLimit, AreOfBytes};

/// The text of what is carried, where it is not too long, is a stream within the limits, and its commands are those of its
/// objects, of its branches and of its end.
pub fn cooked_texts_are_streams()
    ensures { (bodies : Bodies) (children_of : Name → Option (List Name)) (root : Name) (order : List Name)
        (text : List ℕ) → AreInLimit bodies → AreOfBytes bodies order → IsGraphOf bodies children_of
        → IsPostorder children_of root order → AreCarried children_of (BreaksObjects bodies root order) order
        → IsStreamText bodies order root text → length text ≤ 2 ^ 32
        → (commands : List Said) × AreStreamCommands bodies order root commands × IsStreamWithin 0 false text commands }
{}
