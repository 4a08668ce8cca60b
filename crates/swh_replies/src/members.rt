// Members of an object whose values are texts or numbers, written one after another.
ghost use Rattle.std.specs.Prelude.{[], ◌∷◌, OnOk, decimal};
ghost use Rattle.json.specs.Token as token;
ghost use Rattle.swh_replies.specs.Writes.{Adds};

use json::Writer;
use std::alloc::AllocError;

pub fn put_text(writer: &mut Writer, key: &str, text: &str) -> Result<(), AllocError>
    ensures { OnOk result (Adds writer.old (token.key key.now ∷ token.string text.now ∷ []) writer.new) }
{
    writer.key(key)?;
    writer.string(text)
}

pub fn put_number(writer: &mut Writer, key: &str, number: u64) -> Result<(), AllocError>
    ensures { OnOk result (Adds writer.old (token.key key.now ∷ token.number (decimal number) ∷ []) writer.new) }
{
    writer.key(key)?;
    writer.u64(number)
}
