//! Core identifiers: `swh:1:`, three letters for the kind, a colon and the id.

ghost use Rattle.std.specs.Prelude.{
  ◌≡◌,
  ◌≤◌,
  ◌++◌,
  ℕ,
  ◌==◌,
  if◌then◌else◌,
  true,
  length,
  replicate,
  IfOk,
  IfErr,
  IfSome,
};
ghost use Rattle.std.specs.List.{AllPass};
ghost use Rattle.hex.specs.Hex.{encode_lower};
ghost use Rattle.swh_base.specs.Name.{IsName, IsIdText};
ghost use Rattle.swh_swhid.specs.Front.{BreaksAt, common};
ghost use Rattle.swh_swhid.specs.Core.{accepts, kind_word, along, core_text, IsCore, HasCore, KindAndId};
ghost use Rattle.swh_swhid.specs.declared.identifier.Role.TheVariants.{Text};

use crate::front::{behind, shared};
use swh_base::{Kind, Name, is_lower_hex_digit};

/// Where a core identifier stands, which settles the kinds that it may have.
#[derive(Clone, Copy)]
pub enum Role {
    /// At the head of a text: any kind.
    Text,
    /// As a visit: a snapshot.
    Visit,
    /// As an anchor: any kind but a content.
    Anchor,
}

fn accepts(place: Role, kind: Kind) -> bool
    ensures { result ≡ accepts place kind }
{
    match place {
        Role::Text => true,
        Role::Visit => kind == Kind::Snapshot,
        Role::Anchor => kind != Kind::Content,
    }
}

/// The letters of the kind and the colon after them.
fn kind_word(kind: Kind) -> &'static [u8]
    ensures { result.now ≡ kind_word kind }
{
    match kind {
        Kind::Content => b"cnt:",
        Kind::Directory => b"dir:",
        Kind::Revision => b"rev:",
        Kind::Release => b"rel:",
        Kind::Snapshot => b"snp:",
    }
}

/// How far the text goes along with the kind's word, where the kind may stand here.
fn along(place: Role, kind: Kind, text: &[u8]) -> usize
    ensures { result ≡ along place kind text.now }
{
    if accepts(place, kind) {
        shared(kind_word(kind), text)
    } else {
        0
    }
}

/// The kind whose word begins the text, or where all the words break off.
fn kind_of(place: Role, text: &[u8]) -> Result<Kind, usize>
    ensures ok { IfOk result (λ kind. along place kind text.now ≡ 4) }
    ensures err { IfErr result (λ n. BreaksAt (KindAndId place) text.now n) }
{
    let content = along(place, Kind::Content, text);
    let directory = along(place, Kind::Directory, text);
    let revision = along(place, Kind::Revision, text);
    let release = along(place, Kind::Release, text);
    let snapshot = along(place, Kind::Snapshot, text);
    if content == 4 {
        Ok(Kind::Content)
    } else if directory == 4 {
        Ok(Kind::Directory)
    } else if revision == 4 {
        Ok(Kind::Revision)
    } else if release == 4 {
        Ok(Kind::Release)
    } else if snapshot == 4 {
        Ok(Kind::Snapshot)
    } else {
        Err(
            content
                .max(directory)
                .max(revision)
                .max(release)
                .max(snapshot),
        )
    }
}

/// Where a text that is no id stops being one.
fn id_break(text: &[u8]) -> usize
    requires { IsIdText text.now → ⊥ }
    ensures { BreaksAt IsIdText text.now result }
{
    for (i, c) in text.iter().enumerate() {
        if i == 40 {
            return i;
        }
        if !is_lower_hex_digit(*c) {
            return i;
        }
    }
    text.len()
}

/// The name whose core identifier the text is, or where it breaks off.
pub fn read_core(place: Role, text: &[u8]) -> Result<Name, usize>
    ensures ok { IfOk result (λ name. IsCore place text.now name) }
    ensures err { IfErr result (λ n. BreaksAt (HasCore place) text.now n) }
{
    let lead = shared(b"swh:1:", text);
    if lead < 6 {
        return Err(lead);
    }
    let kind = match kind_of(place, behind(text, 6)) {
        Ok(kind) => kind,
        Err(at) => return Err(6 + at),
    };
    let id = behind(text, 10);
    match Name::from_hex(kind, id) {
        Some(name) => Ok(name),
        None => Err(10 + id_break(id)),
    }
}

/// The name whose core identifier the text is, which are the 50 bytes that `core_text` writes; none where the text is
/// anything else (SWHID v1.2, core identifiers). It takes no memory.
pub fn parse_core(text: &[u8]) -> Option<Name>
    ensures some { IfSome result (λ name. IsName name × (text.now ≡ core_text name)) }
    ensures only { (name : Name) → IsName name → text.now ≡ core_text name → result ≡ Some name }
{
    read_core(Role::Text, text).ok()
}

/// Writes the core identifier of the name: `swh:1:`, three letters for the kind, a colon and 40 lower-case digits
/// (SWHID v1.2, core identifiers).
pub fn core_text(name: &Name, out: &mut [u8; 50])
    ensures { out.new ≡ core_text name.now }
{
    let mut id = [0; 40];
    name.hex(&mut id);
    out[..6].copy_from_slice(b"swh:1:");
    out[6..10].copy_from_slice(kind_word(name.kind));
    out[10..].copy_from_slice(&id);
}
