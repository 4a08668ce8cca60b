// How long a client may take. Times are in milliseconds.
ghost use Rattle.std.specs.Prelude.{◌≡◌, ◌+◌, ◌-◌, ◌*◌, ◌/◌, min};

/// What a client has for a request, or for taking a reply.
const PATIENCE: u64 = 30_000;

/// The bytes of it that give the client a second more.
const BYTES_FOR_A_SECOND: u64 = 4_096;

/// The time within which some byte has to come or go.
const STALL: u64 = 20_000;

/// The time within which a request has to begin.
const IDLE: u64 = 5_000;

/// How long the next call may wait, where so many bytes of a request or a reply have moved, and that took so long: not at
/// all where its time is over.
pub fn time_left(moved: u64, spent: u64) -> u64
    ensures { result ≡ min (30_000 + moved / 4_096 * 1_000 - spent) 20_000 }
{
    let allowed = PATIENCE + moved / BYTES_FOR_A_SECOND * 1_000;
    allowed.saturating_sub(spent).min(STALL)
}

/// How much of that a call may wait before which nothing has come of a request.
pub fn time_to_begin(left: u64) -> u64
    ensures { result ≡ min left 5_000 }
{
    left.min(IDLE)
}
