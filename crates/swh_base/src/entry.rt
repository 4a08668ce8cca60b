//! Artifacts as they are held: a name, a body and children.

use crate::memory::Memory;
use crate::name::Name;
use crate::shared::Shared;

/// A named artifact: its name, its body, and the names that its body names.
#[derive(Debug, Drop)]
pub struct Entry {
    pub name: Name,
    /// The bytes that the name's id is computed from, without the header.
    pub body: Shared<u8>,
    /// The names in the order in which they stand in the body.
    pub kids: Shared<Name>,
}

impl Entry {
    ghost use Rattle.std.specs.Prelude.{◌≡◌, IfOk};

    /// An equal entry that shares the body and the children: no byte is copied. Fails where memory runs out.
    pub fn again(&self) -> Result<Entry, Memory>
        ensures { IfOk result (λ entry. entry ≡ self.now) }
    {
        Ok(Entry {
            name: self.name,
            body: self.body.again()?,
            kids: self.kids.again()?,
        })
    }
}

// What another thread may be handed.
fn is_sent<T: Send>(_value: &T) {}

/// An entry may be handed to another thread.
pub fn entry_is_sent(entry: &Entry) {
    is_sent(entry)
}
