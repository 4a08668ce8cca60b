// A snapshot as JSON, written one branch after another: a tree of many branches takes much more memory and time.
ghost use Rattle.std.specs.Prelude.{◌≡◌, IfOk, OnOk};
ghost use Rattle.serde_json.specs.Data.{object, string as string_data};
ghost use Rattle.json.specs.Tree.{members_tokens};
ghost use Rattle.serde_json.specs.Written.{compact_text, members_outline};
ghost use Rattle.swh_snpfmt.specs.Branches.{target_spelled, branches_in_body};
ghost use Rattle.swh_replies.specs.Json.{target_data, target_members, branches_data, snapshot_data, tree_reply};
ghost use Rattle.swh_replies.specs.Writes.{Adds, WritesValue, WritesMember, targets_data};

use crate::members::put_text;
use crate::words::word_of_kind;
use json::Writer;
use std::alloc::{AllocError, Global};
use std::collections::BTreeMap;
use swh_base::{Memory, Reply, Shared, escape};
use swh_snpfmt::{SpelledBranch, SpelledTarget};

fn put_words(writer: &mut Writer, target: &str, kind: &str) -> Result<(), AllocError>
    ensures { OnOk result (WritesValue writer.old (target_members (string_data target.now) kind.now) writer.new) }
{
    writer.begin_object()?;
    put_text(writer, "target", target)?;
    put_text(writer, "target_type", kind)?;
    writer.end_object()
}

fn put_target(
    alloc: Global,
    writer: &mut Writer,
    target: &SpelledTarget<'_>,
) -> Result<(), AllocError>
    ensures { OnOk result (WritesValue writer.old (target_data (target_spelled target.now)) writer.new) }
{
    match target {
        SpelledTarget::Object(kind, id) => {
            let digits = hex::encode(alloc, *id)?;
            put_words(writer, digits.as_str(), word_of_kind(*kind))
        }
        SpelledTarget::Alias(name) => {
            let text = escape(alloc, name)?;
            put_words(writer, text.as_str(), "alias")
        }
        SpelledTarget::Dangling => writer.null(),
    }
}

fn put_branch(
    alloc: Global,
    writer: &mut Writer,
    name: &str,
    target: &SpelledTarget<'_>,
) -> Result<(), AllocError>
    ensures { OnOk result (WritesMember writer.old name.now (target_data (target_spelled target.now)) writer.new) }
{
    writer.key(name)?;
    put_target(alloc, writer, target)
}

/// What the branches lead to, by their escaped names, whose order is another than that of the names.
fn by_escaped<'a>(
    alloc: Global,
    branches: &[SpelledBranch<'a>],
) -> Result<BTreeMap<String, SpelledTarget<'a>>, AllocError>
    ensures { IfOk result (λ targets. targets_data targets.entries ≡ branches_data (branches_in_body branches.now)) }
{
    let mut targets = BTreeMap::new(alloc);
    for branch in branches {
        let name = escape(alloc, branch.name)?;
        targets.insert(name, branch.target)?;
    }
    Ok(targets)
}

/// Writes the branches, and the brace that closes their object.
fn put_members(
    alloc: Global,
    writer: &mut Writer,
    targets: &BTreeMap<String, SpelledTarget<'_>>,
) -> Result<(), AllocError>
    ensures { OnOk result (Adds writer.old (members_tokens (members_outline (targets_data targets.now.entries)))
        writer.new) }
{
    for (name, target) in targets.iter() {
        put_branch(alloc, writer, name.as_str(), target)?;
    }
    writer.end_object()
}

fn put_branches(
    alloc: Global,
    writer: &mut Writer,
    targets: &BTreeMap<String, SpelledTarget<'_>>,
) -> Result<(), AllocError>
    ensures { OnOk result (WritesValue writer.old (object (targets_data targets.now.entries)) writer.new) }
{
    writer.begin_object()?;
    put_members(alloc, writer, targets)
}

fn snapshot_text(
    alloc: Global,
    id: &[u8; 20],
    branches: &[SpelledBranch<'_>],
) -> Result<Vec<u8>, AllocError>
    ensures { IfOk result (λ text. text.items ≡ compact_text (snapshot_data id.now (branches_in_body branches.now))) }
{
    let targets = by_escaped(alloc, branches)?;
    let own = hex::encode(alloc, id)?;
    let mut writer = Writer::new(Vec::new(alloc));
    writer.begin_object()?;
    writer.key("branches")?;
    put_branches(alloc, &mut writer, &targets)?;
    put_text(&mut writer, "id", own.as_str())?;
    writer.end_object()?;
    Ok(writer.into_inner())
}

/// The reply on a snapshot of this id: its branches by their escaped names.
pub fn branches_reply(
    alloc: Global,
    id: &[u8; 20],
    branches: &[SpelledBranch<'_>],
) -> Result<Reply, Memory>
    ensures { IfOk result (λ reply. reply ≡ tree_reply 200 (snapshot_data id.now (branches_in_body branches.now))) }
{
    let text = snapshot_text(alloc, id, branches)?;
    Ok(Reply {
        status: 200,
        json: true,
        body: Shared::from_vec(text)?,
    })
}
