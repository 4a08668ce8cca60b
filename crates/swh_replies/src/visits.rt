// Visits and origins as JSON.
ghost use Rattle.std.specs.Prelude.{◌≡◌, ℕ, List, IfOk, OnOk, codes};
ghost use Rattle.serde_json.specs.View.{view};
ghost use Rattle.serde_json.specs.Written.{compact_text};
ghost use Rattle.swh_base.specs.Escape.{escaped as escaped_text};
ghost use Rattle.swh_base.specs.Visit.{last_mark as last_mark_of};
ghost use Rattle.swh_replies.specs.Json.{optional_id_data, visit_data, visits_data, origin_data};
ghost use Rattle.swh_replies.specs.Writes.{WritesValue, WritesMember};

use crate::members::{put_number, put_text};
use crate::value::text_value;
use crate::words::{kind_of_visit, word_of_status};
use json::Writer;
use serde_json::{Value, json};
use std::alloc::{AllocError, Global};
use swh_base::{Status, escape};
use swh_model::Visit;

fn last_mark(visit: &Visit) -> (Status, Option<[u8; 20]>)
    ensures { result ≡ last_mark_of visit.now.statuses }
{
    match visit.statuses.as_slice().last() {
        None => (Status::Created, None),
        Some(last) => *last,
    }
}

fn put_snapshot(alloc: Global, writer: &mut Writer, id: Option<[u8; 20]>) -> Result<(), AllocError>
    ensures { OnOk result (WritesMember writer.old (codes "snapshot") (optional_id_data id) writer.new) }
{
    writer.key("snapshot")?;
    match id {
        None => writer.null(),
        Some(id) => {
            let digits = hex::encode(alloc, id)?;
            writer.string(digits.as_str())
        }
    }
}

/// A visit of an origin, whose text is escaped already: its last status, and the snapshot that this has.
fn put_visit(
    alloc: Global,
    writer: &mut Writer,
    escaped: &str,
    visit: &Visit,
) -> Result<(), AllocError>
    ensures { OnOk result ((origin : List ℕ) → escaped.now ≡ escaped_text origin
        → WritesValue writer.old (visit_data origin visit.now) writer.new) }
{
    let (status, snapshot) = last_mark(visit);
    writer.begin_object()?;
    put_number(writer, "date", visit.date)?;
    put_text(writer, "origin", escaped)?;
    put_snapshot(alloc, writer, snapshot)?;
    put_text(writer, "status", word_of_status(status))?;
    put_text(writer, "type", kind_of_visit(visit.kind))?;
    put_number(writer, "visit", visit.number)?;
    writer.end_object()
}

/// The text of an origin's visits, which are handed in with the oldest first: the latest first. Dates are in seconds since
/// 1970. It is written one visit after another: a tree of many visits takes much more memory and time.
pub fn visits_text(alloc: Global, origin: &[u8], visits: &[Visit]) -> Result<Vec<u8>, AllocError>
    ensures { IfOk result (λ text. text.items ≡ compact_text (visits_data origin.now visits.now)) }
{
    let escaped = escape(alloc, origin)?;
    let mut writer = Writer::new(Vec::new(alloc));
    writer.begin_array()?;
    for visit in visits.iter().rev() {
        put_visit(alloc, &mut writer, escaped.as_str(), visit)?;
    }
    writer.end_array()?;
    Ok(writer.into_inner())
}

/// An origin, and how many visits it has.
pub fn origin_value(alloc: Global, origin: &[u8], visits: &[Visit]) -> Result<Value, AllocError>
    ensures { IfOk result (λ value. view value ≡ origin_data origin.now visits.now) }
{
    let url = text_value(alloc, origin)?;
    let count = visits.len();
    json!(in alloc; {"url": url, "visits": count})
}
