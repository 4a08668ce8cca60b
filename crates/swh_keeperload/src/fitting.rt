// What the types of a plan say of its event.
ghost use Rattle.std.specs.Prelude.{◌<◌, ◌^◌};
ghost use Rattle.std.specs.List.{AllByRecursion};
ghost use Rattle.swh_model.specs.Judge.{IsWish};
ghost use Rattle.swh_object.specs.Object.{IsObject};
ghost use Rattle.swh_format.specs.StoredObject.{IsCodableEntry};
ghost use Rattle.swh_plan.specs.Plan.{wish_of};
ghost use Rattle.swh_keeperload.specs.Fitting.{FitsFields};

use swh_base::Namer;
use swh_format::{entry_is_codable, origin_is_codable, snapshot_is_codable};
use swh_object::Object;
use swh_plan::Plan;

fn objects_are_codable<N: Namer>(objects: &[Object<N>])
    ensures { AllByRecursion IsCodableEntry objects.now }
{
    for object in objects {
        entry_is_codable(object.entry());
    }
}

fn objects_are_good<N: Namer>(objects: &[Object<N>])
    ensures { AllByRecursion (IsObject N.id_of) objects.now }
{
    for object in objects {
        let _name = object.name();
    }
}

fn number_fits(number: u64)
    ensures { number < 2 ^ 64 }
{
    let _number = number;
}

/// A plan is a wish that may be judged, and its parts fit the fields of their records.
pub fn plan_fits<N: Namer>(plan: &Plan<N>)
    ensures good { IsWish N.id_of (wish_of plan.now) }
    ensures fits { FitsFields (wish_of plan.now) }
{
    match plan {
        Plan::Batch(objects) => {
            objects_are_codable(objects);
            objects_are_good(objects);
        }
        Plan::Open { origin, date, .. } => {
            origin_is_codable(origin);
            number_fits(*date);
        }
        Plan::Mark { origin, visit, how } => {
            origin_is_codable(origin);
            number_fits(*visit);
            let (_status, snapshot) = how.mark();
            snapshot_is_codable(&snapshot);
        }
    }
}
