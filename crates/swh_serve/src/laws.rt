//! What the definitions determine.
ghost use Rattle.std.specs.Prelude.{ℕ, ◌≡◌, ◌≤◌, Bool, List, codes, length};
ghost use Rattle.swh_base.specs.declared.request.Request.{Request};
ghost use Rattle.swh_base.specs.declared.request.Reply.{Reply};
ghost use Rattle.swh_http.specs.Reply.{head_text};
ghost use Rattle.swh_serve.specs.Turns.{Turn, AreTurns, answer_text};

use crate::desk::Desk;

/// At most 1,000 replies go out on a connection, whatever comes in.
pub fn few_turns<S, A: Desk<S>>()
    ensures { (desk : A) (date : ℕ) (turns : List Turn) (s s' : S) → AreTurns (A.protocol desk date) 0 turns s s' → length turns ≤ 1000 }
{}

/// Of the reply to a HEAD the head alone goes out.
pub fn head_has_no_body()
    ensures { (request : Request) (reply : Reply) (keep : Bool) → request.method ≡ codes "HEAD"
        → answer_text request reply keep ≡ head_text reply keep }
{}
