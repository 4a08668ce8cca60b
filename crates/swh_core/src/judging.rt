//! The verdict on a wish, with the device calls of its event.
ghost use Rattle.std.specs.Prelude.{IfOk};
ghost use Rattle.swh_model.specs.Happens.{IsSomeHistory};
ghost use Rattle.swh_core.specs.Answers.{IsSomeWish, IsJudged};

use crate::call::{EventCall, device_calls};
use std::alloc::Global;
use swh_base::Memory;
use swh_model::{Event, JudgeFault, No, Outcome, Wish, judge};

#[derive(Drop)]
pub enum Judgement {
    Refused(No),
    Allowed {
        event: Event,
        outcome: Outcome,
        calls: Vec<EventCall>,
    },
}

pub fn judge_wish(
    alloc: Global,
    history: &[Event],
    actor: u32,
    wish: &Wish,
) -> Result<Judgement, Memory>
    requires history { IsSomeHistory history.now }
    requires wish { IsSomeWish wish.now }
    ensures { IfOk result (IsJudged history.now actor wish.now) }
{
    match judge(alloc, history, actor, wish) {
        Ok((event, outcome)) => {
            let calls = device_calls(alloc, history, &event)?;
            Ok(Judgement::Allowed {
                event,
                outcome,
                calls,
            })
        }
        Err(JudgeFault::Refused(cause)) => Ok(Judgement::Refused(cause)),
        Err(JudgeFault::Memory) => Err(Memory),
    }
}
