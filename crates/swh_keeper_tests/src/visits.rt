//! Visits of an origin: what is refused, in which order, and what is listed.
use std::alloc::Global;
use std::test::Fail;
use swh_base::{Status, Url, VisitKind};
use swh_model::Visit;
use swh_visits::{VisitFault, Visits};

/// A visit that is opened by somebody, or a mark of the visit of a number by somebody with its fault, or none.
enum Step {
    Opened(u32),
    Marked(u64, u32, Status, Option<VisitFault>),
}

const STEPS: &[Step] = &[
    Step::Marked(1, 1, Status::Ongoing, Some(VisitFault::NoVisit { have: 0 })),
    Step::Opened(1),
    Step::Marked(2, 1, Status::Ongoing, Some(VisitFault::NoVisit { have: 1 })),
    Step::Marked(0, 2, Status::Ongoing, Some(VisitFault::NoVisit { have: 1 })),
    Step::Marked(1, 2, Status::Ongoing, Some(VisitFault::NotYours { by: 1 })),
    Step::Marked(1, 1, Status::Failed, None),
    Step::Marked(
        1,
        1,
        Status::Ongoing,
        Some(VisitFault::Ended {
            status: Status::Failed,
        }),
    ),
    Step::Marked(1, 2, Status::Ongoing, Some(VisitFault::NotYours { by: 1 })),
    Step::Opened(2),
    Step::Marked(2, 2, Status::Full, None),
];

/// Does a step, and says whether it is answered as it says. Visits are numbered from 1.
fn is_answered(
    alloc: Global,
    visits: &mut Visits,
    url: &Url,
    step: &Step,
    number: &mut u64,
) -> Result<bool, Fail> {
    match step {
        Step::Opened(by) => {
            *number = number.saturating_add(1);
            Ok(visits.open(alloc, url, VisitKind::Dir, 9, *by)? == *number)
        }
        Step::Marked(visit, by, status, fault) => {
            let snapshot = match status {
                Status::Full => Some([5; 20]),
                _ => None,
            };
            Ok(visits.status(url, *visit, *by, *status, snapshot).err() == *fault)
        }
    }
}

/// Says whether each step is answered as it says.
fn are_answered(alloc: Global) -> Result<bool, Fail> {
    let url = Url::new(alloc, "https://example.org/r")?;
    let mut visits = Visits::new(alloc);
    let mut number = 0;
    for step in STEPS {
        if !is_answered(alloc, &mut visits, &url, step, &mut number)? {
            return Ok(false);
        }
    }
    Ok(true)
}

#[test]
fn each_step_is_answered_in_order(rt: HostRuntime) -> Result<(), Fail> {
    assert!(rt; are_answered(rt.alloc())?);
    Ok(())
}

/// Says whether two visits are these: one that is created, and one that is full.
fn are_two(listed: &[Visit]) -> bool {
    if listed.len() != 2 {
        return false;
    }
    let (first, second) = (&listed[0], &listed[1]);
    let created = [(Status::Created, None)];
    let full = [(Status::Created, None), (Status::Full, Some([5; 20]))];
    (first.number, first.date, first.by) == (1, 7, 1)
        && (second.number, second.date, second.by) == (2, 9, 2)
        && first.kind == VisitKind::Fast
        && second.kind == VisitKind::Dir
        && first.statuses.as_slice() == created.as_slice()
        && second.statuses.as_slice() == full.as_slice()
}

/// Visits of an origin, of which the second is full.
fn two_visits(alloc: Global, url: &Url) -> Result<Visits, Fail> {
    let mut visits = Visits::new(alloc);
    let first = visits.open(alloc, url, VisitKind::Fast, 7, 1)?;
    let second = visits.open(alloc, url, VisitKind::Dir, 9, 2)?;
    let full = visits
        .status(url, 2, 2, Status::Full, Some([5; 20]))
        .is_ok();
    if first == 1 && second == 2 && full {
        Ok(visits)
    } else {
        Err(Fail::from("two visits"))
    }
}

#[test]
fn what_was_opened_is_listed(rt: HostRuntime) -> Result<(), Fail> {
    let alloc = rt.alloc();
    let url = Url::new(alloc, "https://example.org/r")?;
    let other = Url::new(alloc, "https://example.org/R")?;
    let visits = two_visits(alloc, &url)?;
    let is_listed = match visits.list(&url) {
        Some(listed) => are_two(listed),
        None => false,
    };
    assert!(rt; is_listed && visits.list(&other).is_none());
    Ok(())
}
