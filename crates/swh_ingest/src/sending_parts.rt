// What an input gives part by part, added to what is held.
ghost use Rattle.std.specs.Prelude.{◌≡◌, ◌-◌, ◌++◌, [], true, false, length, drop, IfOk, IfErr, OnOk};
ghost use Rattle.swh_dedup.specs.Whole.{names_of};
ghost use Rattle.swh_ingest.specs.Knowing.{held_in};
ghost use Rattle.swh_ingest.specs.Owning.{IsBatchAmong, IsBatchAsked};
ghost use Rattle.swh_ingest.specs.Parts.{AreGiven, IsBatchAskedFor, IsBatchFor, IsLastSent, IsNamed, IsReadOn, IsSentSo, IsUnbroken};
ghost use Rattle.swh_ingest.specs.Sending.{IsPendingBatch};
ghost use Rattle.swh_ingest.specs.Walking.{Adds, StopsAfter};

use crate::destination::Destination;
use crate::ending::Reached;
use crate::parts::{Next, ReadsParts};
use crate::pending::Pending;
use crate::sending::{Taken, send_last, send_part};
use crate::stop::Stop;
use std::alloc::Global;
use swh_base::{Memory, Name, Namer};
use swh_dedup::Objects;
use swh_object::Object;
use swh_plan::Plan;

/// What became of the objects of an input.
#[derive(Drop)]
pub enum Sent<B> {
    /// All are held.
    All(Reached),
    /// Another body is held under this name.
    Met(Name),
    /// The input is bad.
    Bad(B),
}

/// Adds the names of objects.
fn add_names<N: Namer>(names: &mut Vec<Name>, objects: &[Object<N>]) -> Result<(), Memory>
    ensures { OnOk result (names.new.items ≡ names.old.items ++ names_of objects.now) }
{
    for object in objects {
        names.push(object.name())?;
    }
    Ok(())
}

/// The names of a part, which stand last, or none where all of the part waits.
fn names_to_share(names: &[Name], part: usize, all_wait: bool) -> &[Name]
    ensures none { all_wait ≡ true → result.now ≡ [] }
    ensures last { all_wait ≡ false → result.now ≡ drop (length names.now - part) names.now }
{
    if all_wait {
        return &[];
    }
    &names[names.len().saturating_sub(part)..]
}

/// Lets the input keep the held body of each of these names, in place of its own. Names that are not held change nothing.
fn share_held<N: Namer, S, P: Destination<Plan<N>, S>, I, B: Drop, R: ReadsParts<I, Next<N, B>>>(
    destination: &P,
    writer: &mut S,
    read: &R,
    input: &mut I,
    names: &[Name],
)
    requires fits { P.fits destination.now }
    requires ready { (P.protocol destination.now).ready writer.old }
    requires takes { R.takes read.now input.old }
    ensures looks { (P.protocol destination.now).adds [] writer.old writer.new }
    ensures same { input.new ≡ input.old }
{
    'names: for name in names {
        if let Some(body) = destination.body(writer, name) {
            read.share(input, name, body);
        }
    }
}

/// Takes the last objects in, sends what waits then, and answers the names of all objects, in ascending order.
fn send_rest<N: Namer, S, P: Destination<Plan<N>, S>, B: Drop>(
    alloc: Global,
    destination: &P,
    writer: &mut S,
    pending: Pending<N>,
    names: Vec<Name>,
    made: Objects<N>,
) -> Result<Sent<B>, Stop>
    requires fits { P.fits destination.now }
    requires ready { (P.protocol destination.now).ready writer.old }
    requires waiting { IsPendingBatch N.id_of (P.protocol destination.now).alone
        (held_in ((P.protocol destination.now).known writer.old)) pending }
    ensures sent { IfOk result (IsLastSent (held_in ((P.protocol destination.now).known writer.old)) pending made
        (held_in ((P.protocol destination.now).known writer.new))) }
    ensures named { IfOk result (IsNamed (names.items ++ names_of made.objects.items)) }
    ensures adds { OnOk result (Adds (P.protocol destination.now)
        (IsBatchAmong (P.protocol destination.now).alone (pending.objects.items ++ made.objects.items)) [] writer.old writer.new) }
    ensures stops { IfErr result (StopsAfter N.id_of (P.protocol destination.now)
        (IsBatchAmong (P.protocol destination.now).alone (pending.objects.items ++ made.objects.items))
        (IsBatchAsked (pending.objects.items ++ made.objects.items)) [] writer.old writer.new) }
{
    let mut names = names;
    let Ok(()) = add_names(&mut names, &made.objects) else {
        return Err(Stop::Memory);
    };
    let snapshot = made.snapshot;
    match send_last(alloc, destination, writer, pending, made.objects) {
        Ok(None) => {
            names.sort_unstable();
            Ok(Sent::All(Reached { snapshot, names }))
        }
        Ok(Some(name)) => Ok(Sent::Met(name)),
        Err(why) => Err(why),
    }
}

/// Reads an input part by part, and sends what is new of its objects, in order, up to the first that collides. A batch is
/// sent as soon as it is full; what waits where the input is bad is not sent. Of the objects it keeps those of the part at
/// hand and those that wait, which are a batch at most; of what was sent or found held it keeps the name alone, for the
/// certificate. What was found held is kept by the input as the held body.
pub fn send_parts<
    N: Namer,
    S,
    P: Destination<Plan<N>, S>,
    I,
    B: Drop,
    R: ReadsParts<I, Next<N, B>>,
>(alloc: Global, destination: &P, writer: &mut S, read: &R, input: &mut I) -> Result<Sent<B>, Stop>
    requires fits { P.fits destination.now }
    requires ready { (P.protocol destination.now).ready writer.old }
    requires takes { R.takes read.now input.old }
    ensures sent { IfOk result (IsSentSo (R.gives read.now) (held_in ((P.protocol destination.now).known writer.new))
        input.old input.new) }
    ensures adds { OnOk result (Adds (P.protocol destination.now)
        (IsBatchFor (P.protocol destination.now).alone (AreGiven (R.gives read.now) input.old)) [] writer.old writer.new) }
    ensures stops { IfErr result (StopsAfter N.id_of (P.protocol destination.now)
        (IsBatchFor (P.protocol destination.now).alone (AreGiven (R.gives read.now) input.old))
        (IsBatchAskedFor (AreGiven (R.gives read.now) input.old)) [] writer.old writer.new) }
    ensures input { IsReadOn (R.gives read.now) input.old input.new }
    // It stops behind no input that is found bad.
    ensures unbroken { IfErr result (λ _. IsUnbroken (R.gives read.now) input.old input.new) }
{
    let mut pending = Pending::new(alloc);
    let mut names = Vec::new(alloc);
    'parts: loop {
        match read.next(input) {
            Ok(Next::Part(objects)) => {
                let Ok(()) = add_names(&mut names, &objects) else {
                    return Err(Stop::Memory);
                };
                let part = objects.len();
                let most = pending.objects.len().saturating_add(part);
                pending = match send_part(alloc, destination, writer, pending, objects) {
                    Ok(Taken::Waits(waiting)) => waiting,
                    Ok(Taken::Collides(name)) => return Ok(Sent::Met(name)),
                    Err(why) => return Err(why),
                };
                let all_wait = pending.objects.len() >= most;
                share_held(
                    destination,
                    writer,
                    read,
                    input,
                    names_to_share(&names, part, all_wait),
                );
            }
            Ok(Next::Last(made)) => return send_rest(
                alloc,
                destination,
                writer,
                pending,
                names,
                made,
            ),
            Ok(Next::Bad(bad)) => return Ok(Sent::Bad(bad)),
            Err(_) => return Err(Stop::Memory),
        }
    }
}
