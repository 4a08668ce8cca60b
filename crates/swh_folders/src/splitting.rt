//! A path cut at its last slash.

ghost use Rattle.std.specs.Prelude.{◌≡◌, ◌++◌, ◌∷◌, [], IsTrue};
ghost use Rattle.swh_fastlex.specs.Path.{components};
ghost use Rattle.swh_folders.specs.Opened.{folder_path, lent_path};

/// The path of the folder that a path's last component stands in, none where that is the root's, and the component.
pub fn split_path(path: &[u8]) -> (Option<&[u8]>, &[u8])
    ensures { components path.now ≡ lent_path result.0 ++ result.1.now ∷ [] }
{
    let mut end = path.len();
    'back: while end > 0 {
        if path[end - 1] == b'/' {
            return (Some(&path[..end - 1]), &path[end..]);
        }
        end -= 1;
    }
    (None, path)
}

/// Whether both are the path of the same folder.
pub fn is_same_folder(at: &Option<Vec<u8>>, folder: Option<&[u8]>) -> bool
    ensures { IsTrue result → folder_path at.now ≡ lent_path folder.entry }
{
    match at {
        Some(path) => match folder {
            Some(other) => path.as_slice() == other,
            None => false,
        },
        None => folder.is_none(),
    }
}
