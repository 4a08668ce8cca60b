// What a path has to be.
ghost use Rattle.std.specs.Prelude.{◌↔◌, IsTrue};
ghost use Rattle.swh_fastlex.specs.Path.{IsComponent, IsPath};

use swh_base::split_at_byte;

/// Whether this may be a component of a path: it is not empty, is neither `.` nor `..`, and has no NUL.
fn is_component(name: &[u8]) -> bool
    ensures { IsTrue result ↔ IsComponent name.now }
{
    if name.is_empty() {
        return false;
    }
    if name == b".".as_slice() {
        return false;
    }
    if name == b"..".as_slice() {
        return false;
    }
    match split_at_byte(name, b'\0') {
        Some(_) => false,
        None => true,
    }
}

/// Whether these bytes are a path of any length: its components are not empty, are neither `.` nor `..`, and have no
/// NUL.
pub fn is_path(path: &[u8]) -> bool
    ensures { IsTrue result ↔ IsPath path.now }
{
    let mut rest = path;
    'components: while let Some((component, after)) = split_at_byte(rest, b'/') {
        if !is_component(component) {
            return false;
        }
        rest = after;
    }
    is_component(rest)
}
