//! What the definitions determine.
ghost use Rattle.std.specs.Prelude.{◌≡◌, ◌≢◌, ℕ, List, Option};
ghost use Rattle.swh_base.specs.declared.kind.Kind.{Kind};
ghost use Rattle.swh_base.specs.declared.kind.Kind.TheVariants.{Content};
ghost use Rattle.swh_base.specs.declared.name.Name.{Name};
ghost use Rattle.swh_base.specs.declared.request.Request.{Request};
ghost use Rattle.swh_base.specs.declared.request.Reply.{Reply};
ghost use Rattle.swh_model.specs.Archive.{Archive};
ghost use Rattle.swh_model.specs.declared.event.Event.{Event};
ghost use Rattle.swh_model.specs.Step.{IsHistory, replay};
ghost use Rattle.swh_fastcook.specs.Cook.{IsHeadOf};
ghost use Rattle.swh_api.specs.Answer.{IsAnswer};
ghost use Rattle.swh_api.specs.Carried.{AsksCook, IsCarriedName, HasCookedText, HasStreamAgain};

/// A request has one answer.
pub fn one_answer()
    ensures { (a : Archive) (request : Request) (r s : Reply) → IsAnswer a request r → IsAnswer a request s → r ≡ s }
{}

/// A name that is closed and carried is cooked: the answer has its text.
pub fn carried_is_cooked()
    ensures { (a : Archive) (request : Request) (name : Name) (reply : Reply) → AsksCook request name
        → IsCarriedName a.bodies name → IsAnswer a request reply → HasCookedText a.bodies name reply }
{}

/// A stream that is answered loads back: out of the archive of a history that may happen, a reply 200 to who asks for a name to
/// be cooked, which is no content, has a text that, with the head of the name, means the snapshot that the name loads as.
pub fn what_was_answered_loads_back()
    ensures { (id : Kind → List ℕ → List ℕ) (h : List Event) (request : Request) (name : Name) (head : Option (List ℕ))
        (reply : Reply) → IsHistory id h → AsksCook request name → name.kind ≢ Content → IsHeadOf (replay h).bodies name head
        → IsAnswer (replay h) request reply → reply.status ≡ 200 → HasStreamAgain id (replay h).bodies name head reply }
{}
