// Where a yard makes what it makes: one file, or a folder first, then what stands in it, and files right beside it.

/// Whether this may stand in a folder. No name of a path has a slash.
fn is_name(name: &str) -> bool {
    !matches!(name, "" | "." | "..") && !name.contains('\0')
}

/// Whether a path leads to a name that may stand in a folder. The folder may be any.
pub fn ends_in_name(path: &str) -> bool {
    match path.rsplit_once('/') {
        Some((_, name)) => is_name(name),
        None => is_name(path),
    }
}

/// Whether what stands at a path is the folder at another one, or one above it.
fn is_front(above: &str, last: &str) -> bool {
    match last.strip_prefix(above) {
        Some(rest) => rest.is_empty() || rest.starts_with('/'),
        None => false,
    }
}

/// Whether a path leads to a name in the folder that was made last or in one above it, but in none above the folder that
/// was made first, whose path has so many bytes.
pub fn is_within(first: usize, last: &str, path: &str) -> bool {
    match path.rsplit_once('/') {
        Some((above, name)) => is_name(name) && above.len() >= first && is_front(above, last),
        None => false,
    }
}

/// Whether a path is that of the folder that was made first, with more behind its name.
pub fn is_beside(first: usize, last: &str, path: &str) -> bool {
    let Some((folder, _)) = last.split_at_checked(first) else {
        return false;
    };
    match path.strip_prefix(folder) {
        Some(more) => !more.is_empty() && !more.contains('/') && !more.contains('\0'),
        None => false,
    }
}
