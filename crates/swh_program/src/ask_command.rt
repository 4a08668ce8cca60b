// The command `ask`.
ghost use Rattle.std.specs.Prelude.{◌≡◌, ◌≢◌, ◌⊎◌, ◌++◌, IfOk, OnOk, map};
ghost use Rattle.swh_api.specs.Get.{text_of};
ghost use Rattle.swh_program.specs.AskCommand.{reply_line, TellsArchive, asking};
ghost use Rattle.swh_exit.specs.Damage.{IsUndamaged};
ghost use Rattle.swh_program.specs.Reading.{IsOfArchive};
ghost use Rattle.swh_replay.specs.Replay.{archive_of};
ghost use Rattle.swh_exit.specs.declared.answer.Ending.TheVariants.{Wanting};
ghost use Rattle.swh_exit.specs.declared.answer.Answer.TheVariants.{OutsideDisk};

use itoa::Buffer;
use std::alloc::Global;
use std::convert::AsStr;
use swh_api::reply_to_get;
use swh_base::{Memory, Reply};
use swh_exit::{Answer, Ending, Text, TextBuilder};
use swh_replay::Replayed;

/// What is printed of replies, and how the run ends.
#[derive(Drop)]
struct Told {
    text: Text,
    ending: Ending,
}

// Writes a reply as it is printed: its head, and its body as it is.
fn write_reply(alloc: Global, text: &mut TextBuilder, reply: Reply) -> Result<(), Memory>
    ensures { OnOk result (text.new ≡ text.old ++ reply_line (text_of reply)) }
{
    let Reply { status, body, .. } = reply;
    let mut digits = Buffer::new();
    text.write(digits.format(status).as_bytes())?;
    text.write(b" ")?;
    text.write(digits.format(body.as_slice().len()).as_bytes())?;
    text.write(b"\n")?;
    text.append(alloc, body)?;
    text.write(b"\n")
}

// How a run ends that has one more reply, of this status.
fn ending_with(ending: Ending, status: u16) -> Ending
    ensures { ((status ≡ 200) × (result ≡ ending)) ⊎ ((status ≢ 200) × (result ≡ Wanting)) }
{
    if status == 200 {
        ending
    } else {
        Ending::Wanting
    }
}

// The replies to the paths, in their order.
fn replies<W: AsStr>(alloc: Global, replayed: &Replayed, paths: &[W]) -> Result<Told, Memory>
    ensures { IfOk result (λ told.
        TellsArchive (map W.text paths.now) (archive_of replayed.now) told.text told.ending) }
{
    let mut text = TextBuilder::new(alloc);
    let mut ending = Ending::Done;
    for path in paths {
        let reply = reply_to_get(alloc, replayed, path.as_str().as_bytes())?;
        ending = ending_with(ending, reply.status);
        write_reply(alloc, &mut text, reply)?;
    }
    Ok(Told {
        text: text.finish(),
        ending,
    })
}

/// The answer that tells the replies to the paths, in their order.
pub fn tell_replies<W: AsStr>(alloc: Global, replayed: &Replayed, paths: &[W]) -> Answer
    ensures told { IsOfArchive (asking (map W.text paths.now)) (archive_of replayed.now) result }
    ensures undamaged { IsUndamaged result }
    ensures inside { result ≢ OutsideDisk }
{
    match replies(alloc, replayed, paths) {
        Ok(Told { text, ending }) => Answer::Told { text, ending },
        Err(_) => Answer::Memory,
    }
}
