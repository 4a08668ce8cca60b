// What a line says of a bad input.
ghost use Rattle.std.specs.Prelude.{◌≡◌, ◌+◌, ◌≤◌, ◌++◌, length, vec_capacity, decimal};
ghost use Rattle.swh_loader.specs.Report.{stream_why_word, which_word, text_detail, text_room};

use crate::writing::{put, put_escaped, put_id, put_number};
use swh_base::Which;
use swh_fastload::StreamWhy;
use swh_inputs::BadText;

fn word_of_why(why: StreamWhy) -> &'static [u8]
    ensures is { result.now ≡ stream_why_word why }
    ensures short { length result.now ≤ 8 }
{
    match why {
        StreamWhy::Grammar => b"grammar".as_slice(),
        StreamWhy::End => b"end".as_slice(),
        StreamWhy::LeftOut => b"left-out".as_slice(),
        StreamWhy::Mark => b"mark".as_slice(),
        StreamWhy::Branch => b"branch".as_slice(),
        StreamWhy::Place => b"place".as_slice(),
    }
}

fn word_of_which(which: Which) -> &'static [u8]
    ensures is { result.now ≡ which_word which }
    ensures short { length result.now ≤ 7 }
{
    match which {
        Which::Body => b"body".as_slice(),
        Which::Objects => b"objects".as_slice(),
        Which::Bytes => b"bytes".as_slice(),
        Which::Store => b"store".as_slice(),
        Which::Ledger => b"ledger".as_slice(),
        Which::Stream => b"stream".as_slice(),
        Which::Line => b"line".as_slice(),
        Which::Path => b"path".as_slice(),
        Which::Ref => b"ref".as_slice(),
        Which::Refs => b"refs".as_slice(),
    }
}

/// Adds a word, and the number behind it.
fn put_counted(out: &mut Vec<u8>, word: &[u8], number: u64)
    requires word { length word.now ≤ 7 }
    requires room { length out.old.items + 86 ≤ vec_capacity out.old }
    ensures items { out.new.items ≡ out.old.items ++ (word.now ++ decimal number) }
    ensures short { length out.new.items ≤ length out.old.items + 27 }
    ensures capacity { vec_capacity out.old ≤ vec_capacity out.new }
{
    put(out, word);
    put_number(out, number);
}

/// Adds how an input breaks.
pub fn put_bad_text(out: &mut Vec<u8>, bad: &BadText)
    requires { length out.old.items + text_room bad.now ≤ vec_capacity out.old }
    ensures items { out.new.items ≡ out.old.items ++ text_detail bad.now }
    ensures short { length out.new.items ≤ length out.old.items + text_room bad.now }
    ensures capacity { vec_capacity out.old ≤ vec_capacity out.new }
{
    match bad {
        BadText::Stream { at, why } => {
            put_counted(out, b"stream ", *at);
            put(out, b" ");
            put(out, word_of_why(*why));
        }
        BadText::Batch { at } => put_counted(out, b"batch ", *at),
        BadText::Name { given, got } => {
            put(out, b"name ");
            put_id(out, *given);
            put(out, b" ");
            put_id(out, *got);
        }
        BadText::Refs { line } => put_counted(out, b"refs ", *line),
        BadText::NoObject { id } => {
            put(out, b"no-object ");
            put_id(out, *id);
        }
        BadText::Other { path } => {
            put(out, b"other ");
            put_escaped(out, path.as_slice());
        }
        BadText::Modes { line } => put_counted(out, b"modes ", *line),
        BadText::Limit { which, number: _ } => {
            put(out, b"limit ");
            put(out, word_of_which(*which));
        }
    }
}
