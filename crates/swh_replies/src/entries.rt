// The entries of a directory as JSON, written one after another: a tree of a long directory takes much more memory and time.
ghost use Rattle.std.specs.Prelude.{◌≡◌, IfOk, OnOk};
ghost use Rattle.serde_json.specs.Written.{compact_text};
ghost use Rattle.swh_dirfmt.specs.Entries.{entry_of, entries_in_body};
ghost use Rattle.swh_replies.specs.Json.{entry_data, directory_data, tree_reply};
ghost use Rattle.swh_replies.specs.Writes.{WritesValue};

use crate::members::{put_number, put_text};
use crate::words::{entry_type, perms_of};
use json::Writer;
use std::alloc::{AllocError, Global};
use swh_base::{Memory, Reply, Shared, escape};
use swh_dirfmt::SpelledEntry;

fn put_entry(alloc: Global, writer: &mut Writer, entry: &SpelledEntry<'_>) -> Result<(), AllocError>
    ensures { OnOk result (WritesValue writer.old (entry_data (entry_of entry.now)) writer.new) }
{
    let name = escape(alloc, entry.name)?;
    let target = hex::encode(alloc, entry.id)?;
    writer.begin_object()?;
    put_text(writer, "name", name.as_str())?;
    put_number(writer, "perms", perms_of(entry.mode) as u64)?;
    put_text(writer, "target", target.as_str())?;
    put_text(writer, "type", entry_type(entry.mode))?;
    writer.end_object()
}

fn directory_text(alloc: Global, entries: &[SpelledEntry<'_>]) -> Result<Vec<u8>, AllocError>
    ensures { IfOk result (λ text. text.items ≡ compact_text (directory_data (entries_in_body entries.now))) }
{
    let mut writer = Writer::new(Vec::new(alloc));
    writer.begin_array()?;
    for entry in entries {
        put_entry(alloc, &mut writer, entry)?;
    }
    writer.end_array()?;
    Ok(writer.into_inner())
}

/// The reply with the entries of a directory, in their order.
pub fn entries_reply(alloc: Global, entries: &[SpelledEntry<'_>]) -> Result<Reply, Memory>
    ensures { IfOk result (λ reply. reply ≡ tree_reply 200 (directory_data (entries_in_body entries.now))) }
{
    let text = directory_text(alloc, entries)?;
    Ok(Reply {
        status: 200,
        json: true,
        body: Shared::from_vec(text)?,
    })
}
