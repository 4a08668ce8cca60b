// Replies on artifacts, and on what is found over the graph.
ghost use Rattle.std.specs.Prelude.{◌≡◌, ℕ, IfOk, IfSome, IfNone};
ghost use Rattle.percent_encoding.specs.Percent.{percent_decode};
ghost use Rattle.swh_base.specs.declared.kind.Kind.TheVariants.{Directory, Revision, Release, Snapshot};
ghost use Rattle.swh_graph.specs.Holding.{HoldsDirectory, HoldsRevision, HoldsRelease, HoldsSnapshot};
ghost use Rattle.swh_graph.specs.Log.{IsLogAnswer};
ghost use Rattle.swh_graph.specs.Path.{IsPathAnswer};
ghost use Rattle.swh_swhid.specs.declared.swhid.Swhid.{Swhid as ASwhid};
ghost use Rattle.swh_swhid.specs.Qualifier.{IsSwhid};
ghost use Rattle.swh_replies.specs.Json.{revision_data, log_data, release_data, entry_data, directory_data, snapshot_data};
ghost use Rattle.swh_api.specs.Answer.{log_limit, IsRead, IsIdReply, IsResolveReply};
ghost use Rattle.swh_api.specs.Fault.{IsFaultReply};

use percent_encoding::percent_decode;
use std::alloc::Global;
use swh_base::{Kind, Memory, Reply};
use swh_graph::{
    GraphFault, at_path, directory_at, log, release_at, resolve, revision_at, snapshot_at,
};
use swh_model::Look;
use swh_replies::{
    branches_reply, entries_reply, entry_value, id_of, json_reply, log_value, no_path, not_held,
    refusal, release_value, resolved_value, revision_value,
};
use swh_swhid::{Swhid, SwhidFault, parse};

/// How many revisions of a log are told.
const LOG_LIMIT: u32 = 100;

// The reply that tells why there is no value.
fn fault_reply(alloc: Global, fault: GraphFault) -> Result<Reply, Memory>
    ensures { IfOk result (IsFaultReply fault) }
{
    match fault {
        GraphFault::NotHeld { name } => not_held(alloc, &name),
        GraphFault::NoPath { component } => no_path(alloc, component),
        GraphFault::Memory => Err(Memory),
    }
}

/// The reply on the revision whose id a text is: its directory, its parents and the rest of its body.
pub fn revision_reply<L: Look>(alloc: Global, look: &L, text: &[u8]) -> Result<Reply, Memory>
    ensures { IfOk result (IsIdReply Revision (IsRead HoldsRevision (L.archive look.now).bodies)
        revision_data text.now) }
{
    let Some(name) = id_of(Kind::Revision, text) else {
        return refusal(alloc, 400, "swhid");
    };
    let rev = match revision_at(alloc, look, name) {
        Ok(rev) => rev,
        Err(fault) => return fault_reply(alloc, fault),
    };
    let value = revision_value(alloc, &name.id, &rev)?;
    json_reply(alloc, 200, &value)
}

/// The reply with the log of the revision whose id a text is: at most 100 ids.
pub fn log_reply<L: Look>(alloc: Global, look: &L, text: &[u8]) -> Result<Reply, Memory>
    ensures { IfOk result (IsIdReply Revision
        (λ root. IsLogAnswer (L.archive look.now).bodies root log_limit) (λ _. log_data) text.now) }
{
    let Some(name) = id_of(Kind::Revision, text) else {
        return refusal(alloc, 400, "swhid");
    };
    let names = match log(alloc, look, name.id, LOG_LIMIT) {
        Ok(names) => names,
        Err(fault) => return fault_reply(alloc, fault),
    };
    let value = log_value(alloc, names.as_slice())?;
    json_reply(alloc, 200, &value)
}

/// The reply on the release whose id a text is: its name, the object that it names and the rest of its body.
pub fn release_reply<L: Look>(alloc: Global, look: &L, text: &[u8]) -> Result<Reply, Memory>
    ensures { IfOk result (IsIdReply Release (IsRead HoldsRelease (L.archive look.now).bodies)
        release_data text.now) }
{
    let Some(name) = id_of(Kind::Release, text) else {
        return refusal(alloc, 400, "swhid");
    };
    let rel = match release_at(look, name) {
        Ok(rel) => rel,
        Err(fault) => return fault_reply(alloc, fault),
    };
    let value = release_value(alloc, &name.id, &rel)?;
    json_reply(alloc, 200, &value)
}

/// The reply with the entries of the directory whose id a text is.
pub fn directory_reply<L: Look>(alloc: Global, look: &L, text: &[u8]) -> Result<Reply, Memory>
    ensures { IfOk result (IsIdReply Directory (IsRead HoldsDirectory (L.archive look.now).bodies)
        (λ _. directory_data) text.now) }
{
    let Some(name) = id_of(Kind::Directory, text) else {
        return refusal(alloc, 400, "swhid");
    };
    let entries = match directory_at(alloc, look, name) {
        Ok(entries) => entries,
        Err(fault) => return fault_reply(alloc, fault),
    };
    entries_reply(alloc, entries.as_slice())
}

/// The reply with the entry to which a path leads, percent-decoded, from the directory whose id a text is.
pub fn entry_reply<L: Look>(
    alloc: Global,
    look: &L,
    text: &[u8],
    path: &[u8],
) -> Result<Reply, Memory>
    ensures { IfOk result (IsIdReply Directory
        (λ root. IsPathAnswer (L.archive look.now).bodies root (percent_decode path.now))
        (λ _. entry_data) text.now) }
{
    let Some(name) = id_of(Kind::Directory, text) else {
        return refusal(alloc, 400, "swhid");
    };
    let mut decoded = Vec::new(alloc);
    percent_decode(path).append_to(&mut decoded)?;
    let entry = match at_path(alloc, look, name.id, decoded.as_slice()) {
        Ok(entry) => entry,
        Err(fault) => return fault_reply(alloc, fault),
    };
    let value = entry_value(alloc, &entry)?;
    json_reply(alloc, 200, &value)
}

/// The reply on the snapshot whose id a text is: its branches by their escaped names.
pub fn snapshot_reply<L: Look>(alloc: Global, look: &L, text: &[u8]) -> Result<Reply, Memory>
    ensures { IfOk result (IsIdReply Snapshot (IsRead HoldsSnapshot (L.archive look.now).bodies)
        snapshot_data text.now) }
{
    let Some(name) = id_of(Kind::Snapshot, text) else {
        return refusal(alloc, 400, "swhid");
    };
    let branches = match snapshot_at(alloc, look, name) {
        Ok(branches) => branches,
        Err(fault) => return fault_reply(alloc, fault),
    };
    branches_reply(alloc, &name.id, branches.as_slice())
}

// The value of a text, as a SWHID; none where it is none.
fn swhid_of(alloc: Global, text: &[u8]) -> Result<Option<Swhid>, Memory>
    ensures some { IfOk result (λ found. IfSome found (IsSwhid text.now)) }
    ensures none { IfOk result (λ found. IfNone found ((swhid : ASwhid) → IsSwhid text.now swhid → ⊥)) }
{
    match parse(alloc, text) {
        Ok(swhid) => Ok(Some(swhid)),
        Err(SwhidFault::BadText { .. }) => Ok(None),
        Err(SwhidFault::Memory) => Err(Memory),
    }
}

/// The reply on the object to which the SWHID leads that a text is (SWHID v1.2, qualified identifiers).
pub fn resolve_reply<L: Look>(alloc: Global, look: &L, text: &[u8]) -> Result<Reply, Memory>
    ensures { IfOk result (IsResolveReply (L.archive look.now).bodies text.now) }
{
    let found = swhid_of(alloc, text)?;
    let Some(swhid) = found else {
        return refusal(alloc, 400, "swhid");
    };
    let name = match resolve(alloc, look, &swhid) {
        Ok(name) => name,
        Err(fault) => return fault_reply(alloc, fault),
    };
    let value = resolved_value(alloc, &name)?;
    json_reply(alloc, 200, &value)
}
