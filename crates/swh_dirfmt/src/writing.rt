//! Entries written as a body.

ghost use Rattle.std.specs.Prelude.{◌≡◌, ◌++◌, ℕ, List, IfOk, OnOk};
ghost use Rattle.swh_base.specs.Directory.{DirectoryEntry, entry_text, directory_text, IsDirectory};
ghost use Rattle.swh_dirfmt.specs.Entries.{entry_view};

use crate::entries::Entries;
use crate::entry::DirEntry;
use itoa::Buffer;
use std::alloc::Global;
use swh_base::Memory;

fn put_entry(out: &mut Vec<u8>, entry: &DirEntry) -> Result<(), Memory>
    ensures { OnOk result (out.new.items ≡ out.old.items ++ entry_text (entry_view entry.now)) }
{
    let mut mode = Buffer::new();
    out.extend_from_slice(mode.format(entry.mode).as_bytes())?;
    out.push(b' ')?;
    out.extend_from_slice(entry.name.as_slice())?;
    out.push(b'\0')?;
    out.extend_from_slice(&entry.id)?;
    Ok(())
}

/// The body that has these entries (git objects, tree). Fails where memory runs out.
pub fn write_dir(alloc: Global, entries: &Entries) -> Result<Vec<u8>, Memory>
    ensures directory { IfOk result (λ body. IsDirectory body.items entries.now) }
    // What was read is written again, byte for byte.
    ensures same { (body : List ℕ) → IsDirectory body entries.now → IfOk result (λ out. out.items ≡ body) }
{
    let mut out = Vec::new(alloc);
    for entry in entries.list() {
        put_entry(&mut out, entry)?;
    }
    Ok(out)
}

/// A list of entries is the list of one body at most.
pub fn one_spelling()
    ensures { (a b : List ℕ) (entries : List DirectoryEntry) → IsDirectory a entries → IsDirectory b entries → a ≡ b }
{}
