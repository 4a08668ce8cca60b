// Artifacts as JSON.
ghost use Rattle.std.specs.Prelude.{◌≡◌, IfOk};
ghost use Rattle.serde_json.specs.View.{view};
ghost use Rattle.swh_dirfmt.specs.Entries.{entry_view};
ghost use Rattle.swh_revfmt.specs.Reading.{revision_spelled, release_spelled};
ghost use Rattle.swh_replies.specs.Json.{revision_data, log_data, release_data, entry_data, content_data, resolved_data};

use crate::value::{id_value, ids_value, text_value};
use crate::words::{core_string, entry_type, perms_of, word_of_kind};
use serde_json::{Value, json};
use std::alloc::{AllocError, Global};
use swh_base::Name;
use swh_dirfmt::DirEntry;
use swh_revfmt::{SpelledRel, SpelledRev};

/// A revision: its directory, its parents in order, and the rest of its body.
pub fn revision_value(
    alloc: Global,
    id: &[u8; 20],
    rev: &SpelledRev<'_>,
) -> Result<Value, AllocError>
    ensures { IfOk result (λ value. view value ≡ revision_data id.now (revision_spelled rev.now)) }
{
    let directory = id_value(alloc, &rev.directory)?;
    let own = id_value(alloc, id)?;
    let parents = ids_value(alloc, rev.parents.as_slice())?;
    let rest = text_value(alloc, rev.rest)?;
    json!(in alloc; {"directory": directory, "id": own, "parents": parents, "rest": rest})
}

/// The ids of a log's revisions, in order.
pub fn log_value(alloc: Global, names: &[Name]) -> Result<Value, AllocError>
    ensures { IfOk result (λ value. view value ≡ log_data names.now) }
{
    let mut values = Vec::new(alloc);
    for name in names {
        values.push(id_value(alloc, &name.id)?)?;
    }
    Ok(Value::Array(values))
}

/// A release: its name, the object that it names, and the rest of its body.
pub fn release_value(
    alloc: Global,
    id: &[u8; 20],
    rel: &SpelledRel<'_>,
) -> Result<Value, AllocError>
    ensures { IfOk result (λ value. view value ≡ release_data id.now (release_spelled rel.now)) }
{
    let own = id_value(alloc, id)?;
    let name = text_value(alloc, rel.tag)?;
    let rest = text_value(alloc, rel.rest)?;
    let target = id_value(alloc, &rel.object.id)?;
    let kind = word_of_kind(rel.object.kind);
    json!(in alloc; {"id": own, "name": name, "rest": rest, "target": target, "target_type": kind})
}

/// An entry of a directory, by itself.
pub fn entry_value(alloc: Global, entry: &DirEntry) -> Result<Value, AllocError>
    ensures { IfOk result (λ value. view value ≡ entry_data (entry_view entry.now)) }
{
    let name = text_value(alloc, entry.name.as_slice())?;
    let target = id_value(alloc, &entry.id)?;
    let perms = perms_of(entry.mode);
    let kind = entry_type(entry.mode);
    json!(in alloc; {"name": name, "perms": perms, "target": target, "type": kind})
}

/// The length of a body, and the core identifier of its name.
pub fn content_value(alloc: Global, name: &Name, body: &[u8]) -> Result<Value, AllocError>
    ensures { IfOk result (λ value. view value ≡ content_data name.now body.now) }
{
    let swhid = core_string(alloc, name)?;
    let length = body.len();
    json!(in alloc; {"length": length, "swhid": swhid})
}

/// The object to which a SWHID leads.
pub fn resolved_value(alloc: Global, name: &Name) -> Result<Value, AllocError>
    ensures { IfOk result (λ value. view value ≡ resolved_data name.now) }
{
    let id = id_value(alloc, &name.id)?;
    let kind = word_of_kind(name.kind);
    json!(in alloc; {"object_id": id, "object_type": kind})
}
