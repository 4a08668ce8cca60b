//! What is left after a crash of an archive that this program made: own files, which no run tells of as damaged.
ghost use Rattle.std.specs.Prelude.{ℕ, List};
ghost use Rattle.swh_base.specs.declared.kind.Kind.{Kind};
ghost use Rattle.swh_outside.specs.Files.{Files, Images, AreImages};
ghost use Rattle.swh_keeper.specs.Own.{AreUsable, AreOwn};
ghost use Rattle.swh_exit.specs.Own.{AreAfterCrash};

/// A crash leaves own files of own files.
pub fn own_files_outlast_crashes()
    ensures { (id_of : Kind → List ℕ → List ℕ) (files : Files) (images : Images) (left : Files) → AreOwn id_of files
        → AreImages files images → AreAfterCrash images left → AreOwn id_of left }
{}

/// Where all that a crash may leave at a device call is not made, or stands for a history, the files that stand after
/// the crash are own.
pub fn usable_images_are_own()
    ensures { (id_of : Kind → List ℕ → List ℕ) (images : Images) (left : Files) → AreUsable id_of images
        → AreAfterCrash images left → AreOwn id_of left }
{}
