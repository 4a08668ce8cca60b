//! Items of several owners.

use crate::memory::Memory;
use std::marker::Model;
use std::sync::ArcSlice;

/// Items that several owners share, which contracts see as a list. An empty list takes no memory.
#[derive(Debug, Drop)]
pub struct Shared<T: Drop> {
    items: Option<ArcSlice<T>>,
}

impl<T: Drop> Model for Shared<T> {
    ghost use Rattle.std.specs.Prelude.{List, [], unwrap_or};
    ghost use Rattle.std.specs.Option.{option_map};
    ghost use Rattle.std.specs.Arc.{arc_slice_items};

    ghost Value = { List T };

    ghost view = { λ s. unwrap_or (option_map arc_slice_items s.items) [] };
}

impl<T: Drop> Shared<T> {
    ghost use Rattle.std.specs.Prelude.{◌≡◌, [], IsOk, IfOk};

    /// Takes the items over without copying them; room for more of them than there are is given back. Fails where there
    /// are items and memory runs out, and they are let go.
    pub fn from_vec(mut items: Vec<T>) -> Result<Shared<T>, Memory>
        ensures ok { IfOk result (λ s. s ≡ items.items) }
        ensures none { items.items ≡ [] → IsOk result }
    {
        if items.is_empty() {
            return Ok(Shared { items: None });
        }
        items.shrink_to_fit();
        let items = Some(ArcSlice::from_vec(items)?);
        Ok(Shared { items })
    }

    /// The items where they lie.
    pub fn as_slice(&self) -> &[T]
        ensures { result.now ≡ self.now }
    {
        match &self.items {
            Some(items) => items.as_slice(),
            None => &[],
        }
    }

    /// An equal one that shares the items: none is copied. Fails where memory runs out.
    pub fn again(&self) -> Result<Shared<T>, Memory>
        ensures { IfOk result (λ s. s ≡ self.now) }
    {
        match &self.items {
            Some(items) => {
                let items = Some(items.clone()?);
                Ok(Shared { items })
            }
            None => Ok(Shared { items: None }),
        }
    }
}
