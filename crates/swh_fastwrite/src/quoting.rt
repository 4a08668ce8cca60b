//! Paths, between quotes where they have to be.
ghost use Rattle.std.specs.Prelude.{◌≡◌, ◌++◌, OnOk};
ghost use Rattle.std.specs.List.{flat_map, list_any};
ghost use Rattle.swh_fastwrite.specs.Quoted.{is_quoted_byte, quoted_byte, quoted_path};

use swh_base::Memory;

fn is_quoted_byte(c: u8) -> bool
    ensures { result ≡ is_quoted_byte c }
{
    c <= 31 || c == b'"' || c == b'\\' || c >= 127
}

fn has_quoted_byte(path: &[u8]) -> bool
    ensures { result ≡ list_any is_quoted_byte path.now }
{
    path.iter().any(|c| is_quoted_byte(*c))
}

/// A byte of a path between quotes.
fn push_quoted_byte(out: &mut Vec<u8>, c: u8) -> Result<(), Memory>
    ensures { OnOk result (out.new.items ≡ out.old.items ++ quoted_byte c) }
{
    if c == b'"' || c == b'\\' {
        out.extend_from_slice(&[b'\\', c])?;
        return Ok(());
    }
    if is_quoted_byte(c) {
        out.extend_from_slice(&[b'\\', b'0' + c / 8 / 8, b'0' + c / 8 % 8, b'0' + c % 8])?;
        return Ok(());
    }
    out.push(c)?;
    Ok(())
}

fn push_quoted_bytes(out: &mut Vec<u8>, path: &[u8]) -> Result<(), Memory>
    ensures { OnOk result (out.new.items ≡ out.old.items ++ flat_map quoted_byte path.now) }
{
    for c in path {
        push_quoted_byte(out, *c)?;
    }
    Ok(())
}

/// A path (git-fast-import(1), filemodify): between quotes exactly where it holds a byte below a space, `"`, `\` or a
/// byte from DEL on.
pub fn push_path(out: &mut Vec<u8>, path: &[u8]) -> Result<(), Memory>
    ensures { OnOk result (out.new.items ≡ out.old.items ++ quoted_path path.now) }
{
    if !has_quoted_byte(path) {
        out.extend_from_slice(path)?;
        return Ok(());
    }
    out.push(b'"')?;
    push_quoted_bytes(out, path)?;
    out.push(b'"')?;
    Ok(())
}
