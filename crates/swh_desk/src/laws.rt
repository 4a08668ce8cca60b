//! What the definitions determine.
ghost use Rattle.std.specs.Prelude.{ℕ, List};
ghost use Rattle.swh_base.specs.declared.kind.Kind.{Kind};
ghost use Rattle.swh_outside.specs.Views.{disks};
ghost use Rattle.swh_keeper.specs.Kept.{Kept};
ghost use Rattle.swh_serve.specs.Turns.{Turn, AreTurns};
ghost use Rattle.swh_desk.specs.Grown.{HasGrown};
ghost use Rattle.swh_desk.specs.Keeper.{keeper_protocol};

use swh_outside::Disk;

/// Whatever is asked on a connection, events are added behind those that were there, and none is lost.
pub fn history_grows<D: Disk>()
    ensures { (id : Kind → List ℕ → List ℕ) (date n : ℕ) (turns : List Turn) (old new : Kept D)
        → AreTurns (keeper_protocol id (disks D.tells D.file D.faults) date) n turns old new → HasGrown old new }
{}
