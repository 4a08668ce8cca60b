//! What holds of every world, over every list of steps.
ghost use Rattle.std.specs.Prelude.{◌≡◌, ◌++◌, ◌∷◌, [], Some, Result, Ok, ℕ, List, length, take, slice_get};
ghost use Rattle.std.specs.List.{AllByRecursion};
ghost use Rattle.swh_base.specs.declared.kind.Kind.{Kind};
ghost use Rattle.swh_outside.specs.Files.{EachImages};
ghost use Rattle.swh_model.specs.declared.event.Event.{Event};
ghost use Rattle.swh_model.specs.declared.event.Wish.{Wish};
ghost use Rattle.swh_model.specs.declared.event.Outcome.{Outcome};
ghost use Rattle.swh_model.specs.Step.{replay};
ghost use Rattle.swh_model.specs.Sound.{IsSound};
ghost use Rattle.swh_core.specs.declared.step.Held.{Held};
ghost use Rattle.swh_core.specs.declared.step.Step.{Step};
ghost use Rattle.swh_core.specs.declared.step.Step.TheVariants.{Apply, Look};
ghost use Rattle.swh_core.specs.declared.step.Told.{Told};
ghost use Rattle.swh_core.specs.declared.step.Told.TheVariants.{Done};
ghost use Rattle.swh_core.specs.declared.step.StepFault.{StepFault};
ghost use Rattle.swh_core.specs.declared.parts.Parts.{Parts as World};
ghost use Rattle.swh_core.specs.World.{first_world, files_on};
ghost use Rattle.swh_core.specs.Step.{Lets, IsWorldStep, IsRun, IsMeant};
ghost use Rattle.swh_core.specs.Kept.{IsFront, MayStand, IsWorld, IsLater};

/// A made, empty archive is a world.
pub fn first_worlds_are_worlds()
    ensures { (id_of : Kind → List ℕ → List ℕ) (actors : ℕ) → IsWorld id_of (first_world actors) }
{}

/// Each run of steps leads from a world to a world, and forgets nothing: no event leaves the history, and no list that was
/// seen.
pub fn runs_keep_worlds()
    ensures kept { (id_of : Kind → List ℕ → List ℕ) (w w' : World) (steps : List Step) (r : Result (List Told) StepFault)
        → IsWorld id_of w → AllByRecursion (IsMeant id_of (length w.seen)) steps → IsRun id_of w steps r w' → IsWorld id_of w' }
    ensures later { (id_of : Kind → List ℕ → List ℕ) (w w' : World) (steps : List Step) (r : Result (List Told) StepFault)
        → IsWorld id_of w → AllByRecursion (IsMeant id_of (length w.seen)) steps → IsRun id_of w steps r w' → IsLater w w' }
{}

/// The history of a world makes a sound archive; what is shown, what was kept and all that actors have seen are fronts of
/// the history; and what a crash may leave of the files stands for the history, or with the event in doubt for it with or
/// without that event.
pub fn worlds_are_sound()
    ensures sound { (id_of : Kind → List ℕ → List ℕ) (w : World) → IsWorld id_of w → IsSound id_of (replay w.history) }
    ensures shown { (w : World) → IsFront (take w.shown w.history) w.history }
    ensures kept { (id_of : Kind → List ℕ → List ℕ) (w : World) → IsWorld id_of w → IsFront w.kept w.history }
    ensures seen { (id_of : Kind → List ℕ → List ℕ) (w : World) → IsWorld id_of w
        → AllByRecursion (λ front. IsFront front w.history) w.seen }
    ensures images { (id_of : Kind → List ℕ → List ℕ) (w : World) → IsWorld id_of w
        → EachImages (files_on w.disks) (MayStand w.history w.doubt) }
{}

/// What an actor sees begins with all that it had seen.
pub fn looks_go_on()
    ensures { (id_of : Kind → List ℕ → List ℕ) (w w' : World) (actor : ℕ) (t : Told) (front : List Event) → IsWorld id_of w
        → IsWorldStep id_of w (Look actor) (Ok t) w' → slice_get w.seen actor ≡ Some front
        → IsFront front (take w.shown w.history) }
{}

/// An event that was told to have happened is in the history, at its place, after every later list of steps, crashes
/// included.
pub fn acknowledged_events_stay()
    ensures { (id_of : Kind → List ℕ → List ℕ) (w mid w' : World) (actor : ℕ) (wish : Wish) (held : Held) (outcome : Outcome)
        (steps : List Step) (r : Result (List Told) StepFault) → IsWorld id_of w
        → IsMeant id_of (length w.seen) (Apply actor wish held) → IsWorldStep id_of w (Apply actor wish held) (Ok (Done outcome)) mid
        → AllByRecursion (IsMeant id_of (length mid.seen)) steps → IsRun id_of mid steps r w'
        → (event : Event) × Lets w.history actor wish event outcome × IsFront (w.history ++ event ∷ []) w'.history }
{}
