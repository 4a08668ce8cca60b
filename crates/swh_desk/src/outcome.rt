// The reply to a posted load.
ghost use Rattle.std.specs.Prelude.{◌≡◌, ◌≤◌, ◌+◌, ◌-◌, Ok, IfOk, length, take, drop, decimal};
ghost use Rattle.swh_replies.specs.Json.{error_reply};
ghost use Rattle.swh_loader.specs.Report.{end_word, report_of};
ghost use Rattle.swh_desk.specs.Outcome.{IsOutcomeReply, IsStopReply, loaded_reply};

use itoa::Buffer;
use std::alloc::Global;
use std::str;
use swh_api::load_reply;
use swh_base::{Memory, Reply, Url};
use swh_loader::{End, LoadFault, Loaded, Stop};
use swh_replies::refusal;
use swh_serve::Answered;

fn word_of_end(end: &End) -> &'static str
    ensures is { result.now ≡ end_word end.now }
    ensures short { length result.now ≤ 9 }
{
    match end {
        End::Full { .. } => "full",
        End::NotFound => "not_found",
        End::Failed(_) => "failed",
    }
}

// How many bytes of a line stand before its detail: the origin, the visit and the status, with a TAB after each.
fn length_of_front(origin: &Url, visit: u64, status: &str) -> usize
    requires { length status.now ≤ 9 }
    ensures { result ≡ length origin.now + 1 + (length (decimal visit) + 1 + (length status.now + 1)) }
{
    let mut digits = Buffer::new();
    let visit = digits.format(visit).len();
    origin.as_str().len() + 1 + (visit + 1 + (status.len() + 1))
}

// What stands in a line behind a front of this length and before its last byte.
fn detail_behind(line: &[u8], front: usize) -> &[u8]
    requires { front + 1 ≤ length line.now }
    ensures { result.now ≡ take (length line.now - 1 - front) (drop front line.now) }
{
    let end = line.len() - 1;
    &line[front..end]
}

// The reply to a load whose visit has ended, by the load's line.
fn told(alloc: Global, origin: &Url, loaded: &Loaded, line: &[u8]) -> Result<Reply, Memory>
    requires { line.now ≡ report_of origin.now (Ok loaded.now) }
    ensures { IfOk result (λ reply. reply ≡ loaded_reply origin.now loaded.now) }
{
    let status = word_of_end(&loaded.end);
    let detail = detail_behind(line, length_of_front(origin, loaded.visit, status));
    let Ok(detail) = str::from_utf8(detail) else {
        return Err(Memory);
    };
    load_reply(alloc, origin, loaded.visit, status, detail)
}

// The reply with 500 that tells by a word why a load stopped.
fn stopped(alloc: Global, word: &str, closes: bool) -> Result<Answered, Memory>
    ensures { IfOk result (λ a. (a.reply ≡ error_reply 500 word.now) × (a.closes ≡ closes)) }
{
    let reply = refusal(alloc, 500, word)?;
    Ok(Answered { reply, closes })
}

// The reply to a load that stopped. The connection closes where a disk has failed.
fn stop_reply(alloc: Global, why: Stop) -> Result<Answered, Memory>
    ensures { IfOk result (λ a. IsStopReply why a.reply a.closes) }
{
    match why {
        Stop::Ended { .. } => stopped(alloc, "ended", false),
        Stop::DiskFault => stopped(alloc, "disk", true),
        Stop::Wounded => stopped(alloc, "disk", true),
        Stop::Limit { .. } => stopped(alloc, "limit", false),
        Stop::Memory => Err(Memory),
    }
}

/// The reply to a load of an origin, by what it came to, and its line. Fails where memory runs out, as it did where the load
/// stopped for want of it.
pub fn outcome_reply(
    alloc: Global,
    origin: &Url,
    outcome: &Result<Loaded, LoadFault>,
    line: &[u8],
) -> Result<Answered, Memory>
    requires { line.now ≡ report_of origin.now outcome.now }
    ensures { IfOk result (λ a. IsOutcomeReply origin.now outcome.now a.reply a.closes) }
{
    match outcome {
        Ok(loaded) => {
            let reply = told(alloc, origin, loaded, line)?;
            Ok(Answered {
                reply,
                closes: false,
            })
        }
        Err(fault) => stop_reply(alloc, fault.why),
    }
}
