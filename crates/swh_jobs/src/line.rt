//! The job of one line.
ghost use Rattle.std.specs.Prelude.{◌≡◌, ◌++◌, ◌∷◌, ◌↔◌, ℕ, List, Contains, IsTrue, IfSome, IfNone, IsUtf8};
ghost use Rattle.std.specs.Option.{option_copied};
ghost use Rattle.swh_base.specs.Url.{IsUrl};
ghost use Rattle.swh_base.specs.Visit.{visit_kind_word};
ghost use Rattle.swh_base.specs.declared.visit.VisitKind.{VisitKind as Kind};
ghost use Rattle.swh_base.specs.declared.visit.VisitKind.TheVariants.{Fast, Dir, Batch};
ghost use Rattle.swh_jobs.specs.Job.{Job, JobInput, Fields, HasNoFeed, IsJobPath, IsHeadText, IsLineOf, fields, more_text};
ghost use Rattle.swh_jobs.specs.Reading.{HasFields, IsInputOf};
ghost use Rattle.swh_jobs.specs.Spelled.{fields_cut, spelled_input, spelled_job};

use crate::job::{SpelledInput, SpelledJob};
use crate::limits::INPUT_PATH_LIMIT;
use swh_base::{VisitKind, behind, is_ref, is_url, split_at_byte};

/// What stands between the TABs of a line, which is not looked at yet: the kind of the input, the URL, the path, and what
/// stands behind that.
#[derive(Clone, Copy)]
struct Cut<'a> {
    kind: VisitKind,
    url: &'a [u8],
    path: &'a [u8],
    more: Option<&'a [u8]>,
}

// The kind of the input, and what stands behind its word and a TAB.
fn kind_and_rest(line: &[u8]) -> Option<(VisitKind, &[u8])>
    ensures some { IfSome result (λ x. line.now ≡ visit_kind_word x.0 ++ 9 ∷ x.1.now) }
    ensures none { IfNone result ((kind : Kind) (rest : List ℕ) → line.now ≡ visit_kind_word kind ++ 9 ∷ rest → ⊥) }
{
    if let Some(rest) = behind(b"fast\t", line) {
        return Some((VisitKind::Fast, rest));
    }
    if let Some(rest) = behind(b"dir\t", line) {
        return Some((VisitKind::Dir, rest));
    }
    if let Some(rest) = behind(b"batch\t", line) {
        return Some((VisitKind::Batch, rest));
    }
    None
}

// The path, and what stands behind it where a TAB follows.
fn path_and_more(bytes: &[u8]) -> (&[u8], Option<&[u8]>)
    ensures { (Contains result.0.now 9 → ⊥) × (bytes.now ≡ result.0.now ++ more_text (option_copied result.1)) }
{
    match split_at_byte(bytes, b'\t') {
        Some((path, more)) => (path, Some(more)),
        None => (bytes, None),
    }
}

fn cut_line(line: &[u8]) -> Option<Cut<'_>>
    ensures some { IfSome result (λ cut. HasFields line.now cut.url.now (fields_cut cut)) }
    ensures none { IfNone result ((url : List ℕ) (fields : Fields) → HasFields line.now url fields → ⊥) }
{
    let Some((kind, rest)) = kind_and_rest(line) else {
        return None;
    };
    let Some((url, last)) = split_at_byte(rest, b'\t') else {
        return None;
    };
    let (path, more) = path_and_more(last);
    Some(Cut {
        kind,
        url,
        path,
        more,
    })
}

// The URL as text, where it is one.
fn url_text(url: &[u8]) -> Option<&str>
    ensures some { IfSome result (λ text. IsUrl url.now × IsUtf8 url.now × (text.now ≡ url.now)) }
    ensures none { IfNone result (IsUrl url.now → IsUtf8 url.now → ⊥) }
{
    if !is_url(url) {
        return None;
    }
    str::from_utf8(url).ok()
}

// The path as text, where it is one of a job.
fn path_text(path: &[u8]) -> Option<&str>
    requires { HasNoFeed path.now }
    ensures some { IfSome result (λ text. IsJobPath path.now × (text.now ≡ path.now)) }
    ensures none { IfNone result (IsJobPath path.now → ⊥) }
{
    if path.is_empty() || path.len() > INPUT_PATH_LIMIT {
        return None;
    }
    if let Some(_) = split_at_byte(path, b'\t') {
        return None;
    }
    str::from_utf8(path).ok()
}

fn is_head(head: &[u8]) -> bool
    ensures { IsTrue result ↔ IsHeadText head.now }
{
    if !is_ref(head) {
        return false;
    }
    if head == b"HEAD".as_slice() {
        return false;
    }
    str::from_utf8(head).is_ok()
}

// Whether a line may end with this head, or with none.
fn may_end(head: Option<&[u8]>) -> bool
    ensures { IsTrue result ↔ IfSome (option_copied head.entry) IsHeadText }
{
    match head {
        Some(head) => is_head(head),
        None => true,
    }
}

// The stream at a path, where what stands behind the path is a head or nothing.
fn stream_at<'a>(path: &'a str, more: Option<&'a [u8]>) -> Option<SpelledInput<'a>>
    requires { IsJobPath path.now }
    ensures some { IfSome result (λ input. IsInputOf (fields Fast path.now (option_copied more.entry))
        (spelled_input input)) }
    ensures none { IfNone result ((input : JobInput)
        → IsInputOf (fields Fast path.now (option_copied more.entry)) input → ⊥) }
{
    if !may_end(more) {
        return None;
    }
    Some(SpelledInput::Fast { path, head: more })
}

// The folder at a path, where what stands behind the path is that of a listing or nothing.
fn folder_at<'a>(path: &'a str, more: Option<&'a [u8]>) -> Option<SpelledInput<'a>>
    requires path { IsJobPath path.now }
    requires no_feed { IfSome (option_copied more) HasNoFeed }
    ensures some { IfSome result (λ input. IsInputOf (fields Dir path.now (option_copied more.entry))
        (spelled_input input)) }
    ensures none { IfNone result ((input : JobInput)
        → IsInputOf (fields Dir path.now (option_copied more.entry)) input → ⊥) }
{
    let Some(more) = more else {
        return Some(SpelledInput::Dir { path, modes: None });
    };
    let Some(modes) = path_text(more) else {
        return None;
    };
    Some(SpelledInput::Dir {
        path,
        modes: Some(modes),
    })
}

// The batch at a path, where what stands behind the path is that of its refs.
fn batch_at<'a>(path: &'a str, more: Option<&'a [u8]>) -> Option<SpelledInput<'a>>
    requires path { IsJobPath path.now }
    requires no_feed { IfSome (option_copied more) HasNoFeed }
    ensures some { IfSome result (λ input. IsInputOf (fields Batch path.now (option_copied more.entry))
        (spelled_input input)) }
    ensures none { IfNone result ((input : JobInput)
        → IsInputOf (fields Batch path.now (option_copied more.entry)) input → ⊥) }
{
    let Some(more) = more else {
        return None;
    };
    let Some(refs) = path_text(more) else {
        return None;
    };
    Some(SpelledInput::Batch { path, refs })
}

// The input that fields of a line spell.
fn input_at<'a>(cut: &Cut<'a>) -> Option<SpelledInput<'a>>
    requires path { HasNoFeed cut.now.path.now }
    requires more { IfSome (option_copied cut.now.more) HasNoFeed }
    ensures some { IfSome result (λ input. IsInputOf (fields_cut cut.now) (spelled_input input)) }
    ensures none { IfNone result ((input : JobInput) → IsInputOf (fields_cut cut.now) input → ⊥) }
{
    let Some(path) = path_text(cut.path) else {
        return None;
    };
    match cut.kind {
        VisitKind::Fast => stream_at(path, cut.more),
        VisitKind::Dir => folder_at(path, cut.more),
        VisitKind::Batch => batch_at(path, cut.more),
    }
}

/// The job that a line spells: the kind of its input, the URL, the path, and then for a stream the head, where one is named,
/// for a folder the path of its listing, where it has one, and for a batch the path of its refs, with TABs between. None
/// where the line spells no job.
pub fn spelled_line(line: &[u8]) -> Option<SpelledJob<'_>>
    requires { HasNoFeed line.now }
    ensures some { IfSome result (λ job. IsLineOf line.now (spelled_job job)) }
    ensures none { IfNone result ((job : Job) → IsLineOf line.now job → ⊥) }
{
    let Some(cut) = cut_line(line) else {
        return None;
    };
    let Some(url) = url_text(cut.url) else {
        return None;
    };
    let Some(input) = input_at(&cut) else {
        return None;
    };
    Some(SpelledJob { url, input })
}
