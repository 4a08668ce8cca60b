// Requests, answered over a keeper.
ghost use Rattle.std.specs.Prelude.{IfOk, OnErr};
ghost use Rattle.swh_outside.specs.Views.{disks};
ghost use Rattle.swh_http.specs.Reply.{HasBody};
ghost use Rattle.swh_api.specs.Route.{AsksLoad};
ghost use Rattle.swh_desk.specs.Keeper.{AnswersAt, IsLoadedAt, LacksAt};

use crate::loading::{Posted, load_posted};
use crate::outcome::outcome_reply;
use crate::reading::read_reply;
use std::alloc::Global;
use swh_api::{Route, route};
use swh_base::{Memory, Namer, Request, Url, VisitKind};
use swh_keeper::Keeper;
use swh_loader::{report_limit, report_line};
use swh_outside::Disk;
use swh_serve::Answered;

// Loads the stream in a request's body, and tells what this came to. The room for the line is taken first.
fn answer_load<N: Namer, D: Disk>(
    alloc: Global,
    namer: &N,
    keeper: &mut Keeper<N, D>,
    request: &Request,
    origin: Url,
    date: u64,
) -> Result<Answered, Memory>
    requires { AsksLoad request.now origin }
    ensures answers { IfOk result (λ a. IsLoadedAt N.id_of (disks D.tells D.file D.faults) date request.now a.reply a.closes
        keeper.old keeper.new) }
    ensures has_body { IfOk result (λ a. HasBody a.reply.status) }
    ensures lacks { OnErr result (LacksAt N.id_of (disks D.tells D.file D.faults) date request.now keeper.old keeper.new) }
{
    let Ok(mut line) = Vec::with_capacity(alloc, report_limit(VisitKind::Fast)) else {
        return Err(Memory);
    };
    let Posted { origin, outcome } = load_posted(
        alloc,
        namer,
        keeper,
        origin,
        request.body.as_slice(),
        date,
    );
    report_line(&mut line, &origin, &outcome);
    outcome_reply(alloc, &origin, &outcome, line.as_slice())
}

/// The reply to a request over a keeper to which nobody else adds. A stream that is posted is loaded as a new visit of its
/// origin on this date, in seconds since 1970, and the reply tells the visit and how it ended: 200 wherever it has an end, also
/// where the stream is bad; 500 `disk`, where a disk has failed in this load or before it, which closes the connection, `limit` or
/// `ended` where it has none. All else is read: also where a disk has failed, of what was acknowledged before. Fails where memory
/// runs out; a load may have added events then, or ended its visit.
pub fn answer_at_keeper<N: Namer, D: Disk>(
    alloc: Global,
    namer: &N,
    keeper: &mut Keeper<N, D>,
    request: &Request,
    date: u64,
) -> Result<Answered, Memory>
    ensures answers { IfOk result (λ a. AnswersAt N.id_of (disks D.tells D.file D.faults) date request.now a.reply a.closes
        keeper.old keeper.new) }
    ensures has_body { IfOk result (λ a. HasBody a.reply.status) }
    ensures lacks { OnErr result (LacksAt N.id_of (disks D.tells D.file D.faults) date request.now keeper.old keeper.new) }
{
    let Ok(wanted) = route(alloc, request) else {
        return Err(Memory);
    };
    match wanted {
        Route::Load { origin } => answer_load(alloc, namer, keeper, request, origin, date),
        Route::Read => match read_reply(alloc, keeper, request) {
            Ok(reply) => Ok(Answered {
                reply,
                closes: false,
            }),
            Err(_) => Err(Memory),
        },
    }
}
