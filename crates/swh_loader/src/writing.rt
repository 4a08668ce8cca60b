// Writing into room that was taken before.
ghost use Rattle.std.specs.Prelude.{◌≡◌, ◌+◌, ◌*◌, ◌≤◌, ◌++◌, length, vec_capacity, decimal};
ghost use Rattle.hex.specs.Hex.{encode_lower};
ghost use Rattle.swh_base.specs.Escape.{escaped, escaped_byte, is_escaped};
ghost use Rattle.swh_swhid.specs.Core.{core_text};

use itoa::Buffer;
use percent_encoding::percent_encode_byte;
use swh_base::Name;
use swh_swhid::core_text;

/// Adds bytes for which there is room.
pub fn put(out: &mut Vec<u8>, bytes: &[u8])
    requires { length out.old.items + length bytes.now ≤ vec_capacity out.old }
    ensures items { out.new.items ≡ out.old.items ++ bytes.now }
    ensures len { length out.new.items ≡ length out.old.items + length bytes.now }
    ensures capacity { vec_capacity out.old ≤ vec_capacity out.new }
{
    let Ok(()) = out.extend_from_slice(bytes) else {
        unreachable!();
    };
}

pub fn put_number(out: &mut Vec<u8>, number: u64)
    requires { length out.old.items + 20 ≤ vec_capacity out.old }
    ensures items { out.new.items ≡ out.old.items ++ decimal number }
    ensures short { length out.new.items ≤ length out.old.items + 20 }
    ensures capacity { vec_capacity out.old ≤ vec_capacity out.new }
{
    let mut digits = Buffer::new();
    put(out, digits.format(number).as_bytes());
}

pub fn put_core(out: &mut Vec<u8>, name: &Name)
    requires { length out.old.items + 50 ≤ vec_capacity out.old }
    ensures items { out.new.items ≡ out.old.items ++ core_text name.now }
    ensures len { length out.new.items ≡ length out.old.items + 50 }
    ensures capacity { vec_capacity out.old ≤ vec_capacity out.new }
{
    let mut text = [0; 50];
    core_text(name, &mut text);
    put(out, &text);
}

/// Adds an id as forty lower-case hexadecimal digits.
pub fn put_id(out: &mut Vec<u8>, id: [u8; 20])
    requires { length out.old.items + 40 ≤ vec_capacity out.old }
    ensures items { out.new.items ≡ out.old.items ++ encode_lower id }
    ensures len { length out.new.items ≡ length out.old.items + 40 }
    ensures capacity { vec_capacity out.old ≤ vec_capacity out.new }
{
    let mut digits = [0; 40];
    let _ = hex::encode_to_slice(id, &mut digits);
    put(out, &digits);
}

/// Whether a byte of a path is escaped.
fn is_escaped(byte: u8) -> bool
    ensures { result ≡ is_escaped byte }
{
    byte <= 32 || byte == 37 || byte == 59 || 127 <= byte
}

fn put_escaped_byte(out: &mut Vec<u8>, byte: u8)
    requires { length out.old.items + 3 ≤ vec_capacity out.old }
    ensures items { out.new.items ≡ out.old.items ++ escaped_byte byte }
    ensures short { length out.new.items ≤ length out.old.items + 3 }
    ensures capacity { vec_capacity out.old ≤ vec_capacity out.new }
{
    if is_escaped(byte) {
        put(out, percent_encode_byte(byte).as_bytes());
    } else {
        put(out, &[byte]);
    }
}

/// Adds the bytes of a path, each escaped that is to be.
pub fn put_escaped(out: &mut Vec<u8>, bytes: &[u8])
    requires { length out.old.items + 3 * length bytes.now ≤ vec_capacity out.old }
    ensures items { out.new.items ≡ out.old.items ++ escaped bytes.now }
    ensures short { length out.new.items ≤ length out.old.items + 3 * length bytes.now }
    ensures capacity { vec_capacity out.old ≤ vec_capacity out.new }
{
    'bytes: for byte in bytes {
        put_escaped_byte(out, *byte);
    }
}
