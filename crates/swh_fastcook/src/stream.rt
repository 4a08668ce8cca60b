//! A whole stream.
ghost use Rattle.std.specs.Prelude.{◌≡◌, ℕ, List, OnOk, OnErr, Contains};
ghost use Rattle.swh_base.specs.declared.name.Name.{Name as Named};
ghost use Rattle.swh_postorder.specs.Cycle.{ArePreceded};
ghost use Rattle.swh_postorder.specs.Postorder.{IsPostorder};
ghost use Rattle.swh_fastcarried.specs.Rules.{IsOddObject};
ghost use Rattle.swh_fastwrite.specs.Held.{WroteSome, kept};
ghost use Rattle.swh_fastcook.specs.Cause.{HasWriteCause};
ghost use Rattle.swh_fastcook.specs.Stream.{IsStreamText};

use crate::ends::write_end;
use crate::objects::write_objects;
use crate::pieces::hold;
use std::alloc::Global;
use swh_base::Name;
use swh_carried::CookFault;
use swh_fastwrite::{Taker, flush};
use swh_marks::Marks;
use swh_model::Look;

/// Writes the stream of the names that are reached from the root, which stand in this order. Its last bytes may be held.
fn write_all<L: Look, T: Taker>(
    alloc: Global,
    look: &L,
    marks: &Marks,
    root: Name,
    taker: &mut T,
    held: &mut Vec<u8>,
) -> Result<(), CookFault>
    requires order { IsPostorder (L.children_of look.now) root marks.now }
    requires preceded { ArePreceded (L.children_of look.now) marks.now }
    requires plain { (n : Named) → Contains marks.now n → IsOddObject (L.archive look.now).bodies n → ⊥ }
    ensures bytes { WroteSome T.takes T.takes_front (kept taker.old held.old.items)
        (IsStreamText (L.archive look.now).bodies marks.now root) (kept taker.new held.new.items) result }
    ensures cause { HasWriteCause (T.failures taker.old) (T.failures taker.new) result }
{
    hold(held, b"feature done\n")?;
    write_objects(alloc, look, marks, taker, held)?;
    write_end(alloc, look, marks, root, taker, held)
}

/// Writes the stream of the names that are reached from the root, which stand in this order. A failure leaves a front of it
/// taken.
pub fn write_stream<L: Look, T: Taker>(
    alloc: Global,
    look: &L,
    marks: &Marks,
    root: Name,
    taker: &mut T,
) -> Result<(), CookFault>
    requires order { IsPostorder (L.children_of look.now) root marks.now }
    requires preceded { ArePreceded (L.children_of look.now) marks.now }
    requires plain { (n : Named) → Contains marks.now n → IsOddObject (L.archive look.now).bodies n → ⊥ }
    ensures ok { OnOk result ((text : List ℕ) × IsStreamText (L.archive look.now).bodies marks.now root text
        × T.takes taker.old text taker.new) }
    ensures err { OnErr result ((text : List ℕ) → IsStreamText (L.archive look.now).bodies marks.now root text
        → T.takes_front taker.old text taker.new) }
    ensures cause { HasWriteCause (T.failures taker.old) (T.failures taker.new) result }
{
    let mut held = Vec::new(alloc);
    write_all(alloc, look, marks, root, taker, &mut held)?;
    flush(taker, &mut held)?;
    Ok(())
}
