// The words of kinds, of visits and of entries in JSON, and core identifiers.
ghost use Rattle.std.specs.Prelude.{◌≡◌, IfOk, string_bytes};
ghost use Rattle.swh_base.specs.Snapshot.{target_kind_word};
ghost use Rattle.swh_base.specs.Visit.{visit_kind_word, status_word};
ghost use Rattle.swh_swhid.specs.Core.{core_text, kind_word};
ghost use Rattle.swh_replies.specs.Json.{perms_of, entry_type};

use std::alloc::{AllocError, Global};
use swh_base::{Kind, Name, Status, VisitKind};

/// The word of a visit's kind.
pub fn kind_of_visit(kind: VisitKind) -> &'static str
    ensures { result.now ≡ visit_kind_word kind }
{
    match kind {
        VisitKind::Fast => "fast",
        VisitKind::Dir => "dir",
        VisitKind::Batch => "batch",
    }
}

/// The word of a visit's status.
pub fn word_of_status(status: Status) -> &'static str
    ensures { result.now ≡ status_word status }
{
    match status {
        Status::Created => "created",
        Status::Ongoing => "ongoing",
        Status::Full => "full",
        Status::Partial => "partial",
        Status::NotFound => "not_found",
        Status::Failed => "failed",
    }
}

/// The word for a kind of object (SWHID v1.2, core identifiers, snapshots, types of targets).
pub fn word_of_kind(kind: Kind) -> &'static str
    ensures { result.now ≡ target_kind_word kind }
{
    match kind {
        Kind::Content => "content",
        Kind::Directory => "directory",
        Kind::Revision => "revision",
        Kind::Release => "release",
        Kind::Snapshot => "snapshot",
    }
}

/// The permissions of an entry (stat(2), st_mode), by the number that its mode's digits write.
pub fn perms_of(mode: u32) -> u32
    ensures { result ≡ perms_of mode }
{
    match mode {
        100_644 => 33_188,
        100_755 => 33_261,
        120_000 => 40_960,
        40_000 => 16_384,
        _ => 57_344,
    }
}

/// What an entry is: a folder, a revision of another project, or a file.
pub fn entry_type(mode: u32) -> &'static str
    ensures { result.now ≡ entry_type mode }
{
    match mode {
        40_000 => "dir",
        160_000 => "rev",
        _ => "file",
    }
}

fn letters_and_colon(kind: Kind) -> &'static str
    ensures { result.now ≡ kind_word kind }
{
    match kind {
        Kind::Content => "cnt:",
        Kind::Directory => "dir:",
        Kind::Revision => "rev:",
        Kind::Release => "rel:",
        Kind::Snapshot => "snp:",
    }
}

/// The core identifier of a name (SWHID v1.2, core identifiers).
pub fn core_string(alloc: Global, name: &Name) -> Result<String, AllocError>
    ensures { IfOk result (λ text. string_bytes text ≡ core_text name.now) }
{
    let mut text = String::from_str(alloc, "swh:1:")?;
    text.push_str(letters_and_colon(name.kind))?;
    let digits = hex::encode(alloc, name.id)?;
    text.push_str(digits.as_str())?;
    Ok(text)
}
