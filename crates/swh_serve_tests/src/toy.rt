// A desk that answers by the path alone.
use std::alloc::Global;
use swh_base::{Memory, Reply, Request, Shared};
use swh_serve::{Answered, Desk};

/// A desk without an archive. `/memory` has none, `/close` closes, `/together` and `/apart` have bodies of 32,768 and
/// 32,769 bytes, and each other path one of two bytes.
pub struct Toy;

fn body_length(path: &[u8]) -> usize {
    if path == b"/together".as_slice() {
        32_768
    } else if path == b"/apart".as_slice() {
        32_769
    } else {
        2
    }
}

impl Desk<u64> for Toy {
    ghost protocol = { λ _ _. record { ready = λ _. Unit {0}; answers = λ _ _ _ _ _. Unit {0}; lacks = λ _ _ _. Unit {0} } };

    ghost fits = { λ _. Unit {0} };

    fn answer(
        &self,
        alloc: Global,
        _seat: &mut u64,
        request: &Request,
        _date: u64,
    ) -> Result<Answered, Memory> {
        let path = request.path.as_slice();
        if path == b"/memory".as_slice() {
            return Err(Memory);
        }
        let body = vec![in alloc; b'k'; body_length(path)]?;
        Ok(Answered {
            reply: Reply {
                status: 200,
                json: false,
                body: Shared::from_vec(body)?,
            },
            closes: path == b"/close".as_slice(),
        })
    }

    ghost lawful = { λ _ _. record { again = λ _ _ _ _ _ _. tt; lacking = λ _ _ _ _ _. tt } };
}
