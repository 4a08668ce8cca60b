// One connection over a keeper.
ghost use Rattle.std.specs.Prelude.{IfOk, OnErr};
ghost use Rattle.swh_outside.specs.Views.{disks};
ghost use Rattle.swh_http.specs.Reply.{HasBody};
ghost use Rattle.swh_serve.specs.Causes.{IsServeCause};
ghost use Rattle.swh_serve.specs.Served.{seen, IsServed};
ghost use Rattle.swh_desk.specs.Keeper.{AnswersAt, LacksAt, keeper_protocol};
ghost use Rattle.swh_desk.specs.Lawful.{keeper_lawful};

use crate::answering::answer_at_keeper;
use std::alloc::Global;
use swh_base::{Memory, Namer, Request};
use swh_keeper::Keeper;
use swh_outside::{Disk, Link};
use swh_serve::{Answered, DeskCall, HasProtocol, ServeFault, Served, serve_over};

/// Requests are answered over a keeper, to which nobody else adds.
#[derive(Clone, Copy, Debug)]
pub struct AtKeeper;

impl<N: Namer, D: Disk> HasProtocol<Keeper<N, D>> for AtKeeper {
    ghost protocol = { λ date. keeper_protocol N.id_of (disks D.tells D.file D.faults) date };

    ghost lawful = { λ date. keeper_lawful N.id_of (disks D.tells D.file D.faults) date };
}

/// Replies to what comes on a link, over a keeper to which nobody else adds, as `serve_over` has it. Loads are on this date,
/// in seconds since 1970.
pub fn serve_at_keeper<N: Namer, D: Disk, L: Link>(
    alloc: Global,
    namer: &N,
    keeper: &mut Keeper<N, D>,
    link: &mut L,
    date: u64,
) -> Result<Served, ServeFault>
    ensures served { IsServed (keeper_protocol N.id_of (disks D.tells D.file D.faults) date) L.Source.tells
        keeper.old keeper.new (seen L.given L.ended L.taken link.old) (seen L.given L.ended L.taken link.new) result }
    ensures cause { IsServeCause (L.Source.faults link.old) (L.Source.faults link.new) result }
{
    let desk = DeskCall {
        said: AtKeeper,
        answer: |keeper: &mut Keeper<N, D>, request: &Request, date: u64| -> Result<
            Answered,
            Memory,
        >
            ensures answers { IfOk result (λ a. AnswersAt N.id_of (disks D.tells D.file D.faults) date request.now
                a.reply a.closes keeper.old keeper.new) }
            ensures has_body { IfOk result (λ a. HasBody a.reply.status) }
            ensures lacks { OnErr result (LacksAt N.id_of (disks D.tells D.file D.faults) date request.now
                keeper.old keeper.new) }
        { answer_at_keeper(alloc, namer, keeper, request, date) },
    };
    serve_over(alloc, &desk, date, keeper, link)
}
