// Who answers requests.
use std::alloc::Global;
use swh_base::{Memory, Reply, Request};

/// A reply to a request, and whether the connection has to close behind it.
#[derive(Debug, Drop)]
pub struct Answered {
    pub reply: Reply,
    pub closes: bool,
}

/// An archive at which requests are answered. What is known of it lies in a seat of type `S`, such as a keeper or a
/// place among its readers and writers. Contracts see all of it through the protocol. A reply owns its bytes, so
/// nothing of the archive is held while it is put.
pub trait Desk<S> {
    ghost use Rattle.std.specs.Prelude.{ℕ, IfOk, OnErr};
    ghost use Rattle.swh_http.specs.Reply.{HasBody};
    ghost use Rattle.swh_serve.specs.Desk.{Protocol, IsLawful};

    /// What holds of seats where so many seconds since 1970 are the date.
    ghost protocol: { Self → ℕ → Protocol S };

    /// That what the desk was made of keeps to its protocol. It is owed by the one who has the desk and asks it, so
    /// that one of which it never holds serves nobody.
    ghost fits: { Self → Type 0 };

    /// The reply to a request. A HEAD is answered as a GET is (RFC 9110, section 9.3.2): its reply has the body that
    /// is not put. The date is the time at which the link came in, in whole seconds since 1970. The status is one with
    /// which a body goes. Fails where memory runs out, which is replied with 503.
    fn answer(
        &self,
        alloc: Global,
        seat: &mut S,
        request: &Request,
        date: u64,
    ) -> Result<Answered, Memory>
        requires fits { fits self.now }
        requires ready { (protocol self.now date).ready seat.old }
        ensures answers { IfOk result (λ a. (protocol self.now date).answers request.now a.reply a.closes seat.old seat.new) }
        ensures has_body { IfOk result (λ a. HasBody a.reply.status) }
        ensures lacks { OnErr result ((protocol self.now date).lacks request.now seat.old seat.new) };

    /// What the protocol of each desk obeys.
    ghost lawful: { (desk : Self) (date : ℕ) → IsLawful (protocol desk date) };
}
