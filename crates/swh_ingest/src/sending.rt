// What a load's input adds to what is held.
ghost use Rattle.std.specs.Prelude.{◌≡◌, ◌++◌, ◌∷◌, [], None, IfOk, IfErr, OnOk};
ghost use Rattle.swh_base.specs.declared.entry.Entry.{Entry};
ghost use Rattle.swh_model.specs.Archive.{body_of};
ghost use Rattle.swh_ingest.specs.Knowing.{held_in};
ghost use Rattle.swh_store.specs.Adding.{HasOther};
ghost use Rattle.swh_store.specs.Entries.{bodies_in};
ghost use Rattle.swh_ingest.specs.Owning.{IsBatchAmong, IsBatchAsked};
ghost use Rattle.swh_ingest.specs.Sending.{AreSent, AreSentAfter, BatchHasRoom, IsMet, IsPendingBatch, MakesRoom, TakesEntry, TakesPart};
ghost use Rattle.swh_ingest.specs.Walking.{Adds, StopsNow, StopsAfter};

use crate::destination::Destination;
use crate::pending::Pending;
use crate::stop::{Stop, met_or_stopped};
use std::alloc::Global;
use std::collections::VecDeque;
use swh_base::{Name, Namer};
use swh_object::Object;
use swh_plan::Plan;
use swh_store::Standing;

/// What became of an object.
#[derive(Drop)]
pub enum Taken<N: Namer> {
    /// The object is held, or it waits among these.
    Waits(Pending<N>),
    /// Another body is held under this name.
    Collides(Name),
}

/// Sends a batch, where there is something to send. Answers a name under which another body is held than the batch has,
/// where somebody added that body since it was looked.
fn flush<N: Namer, S, P: Destination<Plan<N>, S>>(
    destination: &P,
    writer: &mut S,
    pending: Pending<N>,
) -> Result<Option<Name>, Stop>
    requires fits { P.fits destination.now }
    requires ready { (P.protocol destination.now).ready writer.old }
    requires waiting { IsPendingBatch N.id_of (P.protocol destination.now).alone
        (held_in ((P.protocol destination.now).known writer.old)) pending }
    ensures sent { IfOk result (AreSent (held_in ((P.protocol destination.now).known writer.new)) pending.objects.items) }
    ensures adds { OnOk result (Adds (P.protocol destination.now)
        (IsBatchAmong (P.protocol destination.now).alone pending.objects.items) [] writer.old writer.new) }
    ensures stops { IfErr result (StopsNow N.id_of (P.protocol destination.now) (IsBatchAsked pending.objects.items)
        writer.old writer.new) }
{
    if pending.objects.is_empty() {
        return Ok(None);
    }
    match destination.apply(writer, Plan::Batch(pending.objects)) {
        Ok(_) => Ok(None),
        Err(refusal) => match met_or_stopped(refusal) {
            Ok(name) => Ok(Some(name)),
            Err(why) => Err(why),
        },
    }
}

/// Sends what waits where no other object may join it.
fn make_room<N: Namer, S, P: Destination<Plan<N>, S>>(
    alloc: Global,
    destination: &P,
    writer: &mut S,
    pending: Pending<N>,
) -> Result<Taken<N>, Stop>
    requires fits { P.fits destination.now }
    requires ready { (P.protocol destination.now).ready writer.old }
    requires waiting { IsPendingBatch N.id_of (P.protocol destination.now).alone
        (held_in ((P.protocol destination.now).known writer.old)) pending }
    ensures room { IfOk result (MakesRoom N.id_of (P.protocol destination.now).alone
        (held_in ((P.protocol destination.now).known writer.old)) pending (held_in ((P.protocol destination.now).known writer.new))) }
    ensures adds { OnOk result (Adds (P.protocol destination.now)
        (IsBatchAmong (P.protocol destination.now).alone pending.objects.items) [] writer.old writer.new) }
    ensures stops { IfErr result (StopsNow N.id_of (P.protocol destination.now) (IsBatchAsked pending.objects.items)
        writer.old writer.new) }
{
    if pending.has_room() {
        return Ok(Taken::Waits(pending));
    }
    match flush(destination, writer, pending) {
        Ok(None) => Ok(Taken::Waits(Pending::new(alloc))),
        Ok(Some(name)) => Ok(Taken::Collides(name)),
        Err(why) => Err(why),
    }
}

/// Sends what waits before an object whose name waits with another body, so that the held body shows that it collides.
fn send_before<N: Namer, S, P: Destination<Plan<N>, S>>(
    destination: &P,
    writer: &mut S,
    pending: Pending<N>,
    name: Name,
) -> Result<Name, Stop>
    requires fits { P.fits destination.now }
    requires ready { (P.protocol destination.now).ready writer.old }
    requires waiting { IsPendingBatch N.id_of (P.protocol destination.now).alone
        (held_in ((P.protocol destination.now).known writer.old)) pending }
    ensures met { (e : Entry) → e.name ≡ name → HasOther (bodies_in pending.objects.items) e
        → IfOk result (IsMet (held_in ((P.protocol destination.now).known writer.new)) (pending.objects.items ++ e ∷ [])) }
    ensures adds { OnOk result (Adds (P.protocol destination.now)
        (IsBatchAmong (P.protocol destination.now).alone pending.objects.items) [] writer.old writer.new) }
    ensures stops { IfErr result (StopsNow N.id_of (P.protocol destination.now) (IsBatchAsked pending.objects.items)
        writer.old writer.new) }
{
    match flush(destination, writer, pending) {
        Ok(None) => Ok(name),
        Ok(Some(first)) => Ok(first),
        Err(why) => Err(why),
    }
}

/// Lets an object that is not held wait. Where another body waits under its name, what waits is sent, and it collides.
fn let_wait<N: Namer, S, P: Destination<Plan<N>, S>>(
    destination: &P,
    writer: &mut S,
    pending: Pending<N>,
    object: Object<N>,
) -> Result<Taken<N>, Stop>
    requires fits { P.fits destination.now }
    requires ready { (P.protocol destination.now).ready writer.old }
    requires waiting { IsPendingBatch N.id_of (P.protocol destination.now).alone
        (held_in ((P.protocol destination.now).known writer.old)) pending }
    requires room { BatchHasRoom pending }
    requires absent { body_of (held_in ((P.protocol destination.now).known writer.old)) object.name ≡ None }
    ensures taken { IfOk result (TakesEntry N.id_of (P.protocol destination.now).alone
        (held_in ((P.protocol destination.now).known writer.old)) pending object (held_in ((P.protocol destination.now).known writer.new))) }
    ensures adds { OnOk result (Adds (P.protocol destination.now)
        (IsBatchAmong (P.protocol destination.now).alone pending.objects.items) [] writer.old writer.new) }
    ensures stops { IfErr result (StopsNow N.id_of (P.protocol destination.now) (IsBatchAsked pending.objects.items)
        writer.old writer.new) }
{
    let name = object.name();
    let mut waiting = pending;
    let Ok(standing) = waiting.join(object) else {
        return Err(Stop::Memory);
    };
    match standing {
        Standing::New => Ok(Taken::Waits(waiting)),
        Standing::Known => Ok(Taken::Waits(waiting)),
        Standing::Other => match send_before(destination, writer, waiting, name) {
            Ok(name) => Ok(Taken::Collides(name)),
            Err(why) => Err(why),
        },
    }
}

/// Takes an object in after it was looked at: it is held, it waits, or it collides.
fn take_seen<N: Namer, S, P: Destination<Plan<N>, S>>(
    destination: &P,
    writer: &mut S,
    pending: Pending<N>,
    object: Object<N>,
) -> Result<Taken<N>, Stop>
    requires fits { P.fits destination.now }
    requires ready { (P.protocol destination.now).ready writer.old }
    requires waiting { IsPendingBatch N.id_of (P.protocol destination.now).alone
        (held_in ((P.protocol destination.now).known writer.old)) pending }
    requires room { BatchHasRoom pending }
    ensures taken { IfOk result (TakesEntry N.id_of (P.protocol destination.now).alone
        (held_in ((P.protocol destination.now).known writer.old)) pending object (held_in ((P.protocol destination.now).known writer.new))) }
    ensures adds { OnOk result (Adds (P.protocol destination.now)
        (IsBatchAmong (P.protocol destination.now).alone pending.objects.items) [] writer.old writer.new) }
    ensures stops { IfErr result (StopsAfter N.id_of (P.protocol destination.now)
        (IsBatchAmong (P.protocol destination.now).alone pending.objects.items) (IsBatchAsked pending.objects.items) []
        writer.old writer.new) }
{
    let name = object.name();
    match destination.standing(writer, object.entry()) {
        Ok(Standing::Known) => Ok(Taken::Waits(pending)),
        Ok(Standing::Other) => Ok(Taken::Collides(name)),
        Ok(Standing::New) => let_wait(destination, writer, pending, object),
        Err(_) => Err(Stop::Memory),
    }
}

/// Takes an object in: it is held, it waits, or it collides.
fn take_in<N: Namer, S, P: Destination<Plan<N>, S>>(
    alloc: Global,
    destination: &P,
    writer: &mut S,
    pending: Pending<N>,
    object: Object<N>,
) -> Result<Taken<N>, Stop>
    requires fits { P.fits destination.now }
    requires ready { (P.protocol destination.now).ready writer.old }
    requires waiting { IsPendingBatch N.id_of (P.protocol destination.now).alone
        (held_in ((P.protocol destination.now).known writer.old)) pending }
    ensures taken { IfOk result (TakesEntry N.id_of (P.protocol destination.now).alone
        (held_in ((P.protocol destination.now).known writer.old)) pending object (held_in ((P.protocol destination.now).known writer.new))) }
    ensures adds { OnOk result (Adds (P.protocol destination.now)
        (IsBatchAmong (P.protocol destination.now).alone pending.objects.items) [] writer.old writer.new) }
    ensures stops { IfErr result (StopsAfter N.id_of (P.protocol destination.now)
        (IsBatchAmong (P.protocol destination.now).alone pending.objects.items) (IsBatchAsked pending.objects.items) []
        writer.old writer.new) }
{
    match make_room(alloc, destination, writer, pending) {
        Ok(Taken::Waits(waiting)) => take_seen(destination, writer, waiting, object),
        Ok(Taken::Collides(name)) => Ok(Taken::Collides(name)),
        Err(why) => Err(why),
    }
}

/// Takes some objects in, in order, up to the first that collides. What is new is sent as soon as a batch is full.
pub fn send_part<N: Namer, S, P: Destination<Plan<N>, S>>(
    alloc: Global,
    destination: &P,
    writer: &mut S,
    pending: Pending<N>,
    objects: Vec<Object<N>>,
) -> Result<Taken<N>, Stop>
    requires fits { P.fits destination.now }
    requires ready { (P.protocol destination.now).ready writer.old }
    requires waiting { IsPendingBatch N.id_of (P.protocol destination.now).alone
        (held_in ((P.protocol destination.now).known writer.old)) pending }
    ensures taken { IfOk result (TakesPart N.id_of (P.protocol destination.now).alone
        (held_in ((P.protocol destination.now).known writer.old)) pending objects.items
        (held_in ((P.protocol destination.now).known writer.new))) }
    ensures adds { OnOk result (Adds (P.protocol destination.now)
        (IsBatchAmong (P.protocol destination.now).alone (pending.objects.items ++ objects.items)) [] writer.old writer.new) }
    ensures stops { IfErr result (StopsAfter N.id_of (P.protocol destination.now)
        (IsBatchAmong (P.protocol destination.now).alone (pending.objects.items ++ objects.items))
        (IsBatchAsked (pending.objects.items ++ objects.items)) [] writer.old writer.new) }
{
    let mut left = VecDeque::from_vec(objects);
    let mut waiting = pending;
    'objects: while let Some(object) = left.pop_front() {
        waiting = match take_in(alloc, destination, writer, waiting, object) {
            Ok(Taken::Waits(waiting)) => waiting,
            Ok(Taken::Collides(name)) => return Ok(Taken::Collides(name)),
            Err(why) => return Err(why),
        };
    }
    Ok(Taken::Waits(waiting))
}

/// Takes the last objects in, and sends what waits then. Answers the name of the first that collides.
pub fn send_last<N: Namer, S, P: Destination<Plan<N>, S>>(
    alloc: Global,
    destination: &P,
    writer: &mut S,
    pending: Pending<N>,
    objects: Vec<Object<N>>,
) -> Result<Option<Name>, Stop>
    requires fits { P.fits destination.now }
    requires ready { (P.protocol destination.now).ready writer.old }
    requires waiting { IsPendingBatch N.id_of (P.protocol destination.now).alone
        (held_in ((P.protocol destination.now).known writer.old)) pending }
    ensures sent { IfOk result (AreSentAfter (held_in ((P.protocol destination.now).known writer.old)) pending objects.items
        (held_in ((P.protocol destination.now).known writer.new))) }
    ensures adds { OnOk result (Adds (P.protocol destination.now)
        (IsBatchAmong (P.protocol destination.now).alone (pending.objects.items ++ objects.items)) [] writer.old writer.new) }
    ensures stops { IfErr result (StopsAfter N.id_of (P.protocol destination.now)
        (IsBatchAmong (P.protocol destination.now).alone (pending.objects.items ++ objects.items))
        (IsBatchAsked (pending.objects.items ++ objects.items)) [] writer.old writer.new) }
{
    match send_part(alloc, destination, writer, pending, objects) {
        Ok(Taken::Waits(waiting)) => flush(destination, writer, waiting),
        Ok(Taken::Collides(name)) => Ok(Some(name)),
        Err(why) => Err(why),
    }
}
