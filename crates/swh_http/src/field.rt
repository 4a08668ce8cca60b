//! The fields of a head.
ghost use Rattle.std.specs.Prelude.{
  ◌≡◌,
  ◌↔◌,
  IsTrue,
  ℕ,
  true,
  ◌++◌,
  ◌∷◌,
  [],
  OnOk,
  IfOk,
  IfSome,
  IfNone,
  All,
  List,
  map,
  length,
};
ghost use Rattle.httparse.specs.Grammar.{is_ows, skip_ows};
ghost use Rattle.httparse.specs.Spans.{IsHeaderWithin, header_bytes};
ghost use Rattle.std.specs.Str.{str_eq_ignore_ascii_case};
ghost use Rattle.std.specs.List.{list_any, list_all};
ghost use Rattle.std.specs.Borrow.{Bor};
ghost use Rattle.swh_base.specs.Text.{IsNumber};
ghost use Rattle.swh_http.specs.Field.{values, AreLength, is_close, has_close, AreTakenFields, IsRefusedAs};

use httparse::spans::HeaderSpan;
use std::alloc::Global;
use swh_base::{Memory, number_of, split_at_byte};

fn is_same_word(word: &[u8], other: &[u8]) -> bool
    ensures { result ≡ str_eq_ignore_ascii_case word.now other.now }
{
    word.eq_ignore_ascii_case(other)
}

// The value of this field, where it has the name.
fn push_named<'a>(
    found: &mut Vec<&'a [u8]>,
    head: &'a [u8],
    header: &HeaderSpan,
    name: &[u8],
) -> Result<(), Memory>
    requires { IsHeaderWithin (length head.now) header.now }
    ensures { OnOk result (map (λ (v : Bor (List ℕ)). v.now) found.new.items
        ≡ map (λ (v : Bor (List ℕ)). v.now) found.old.items ++ values name.now
        (header_bytes head.now header.now ∷ [])) }
{
    if is_same_word(header.name.of(head), name) {
        found.push(header.value.of(head))?;
    }
    Ok(())
}

/// The values of the fields of this name, in any case.
pub fn values_of<'a>(
    alloc: Global,
    head: &'a [u8],
    headers: &[HeaderSpan],
    name: &[u8],
) -> Result<Vec<&'a [u8]>, Memory>
    requires { All (IsHeaderWithin (length head.now)) headers.now }
    ensures { IfOk result (λ found. map (λ (v : Bor (List ℕ)). v.now) found.items
        ≡ values name.now (map (header_bytes head.now) headers.now)) }
{
    let mut found = Vec::new(alloc);
    for header in headers {
        push_named(&mut found, head, header, name)?;
    }
    Ok(found)
}

fn says(value: &[u8], length: u64) -> bool
    ensures { IsTrue result ↔ IsNumber value.now length }
{
    match number_of(value) {
        Some(said) => said == length,
        None => false,
    }
}

fn all_say(values: &[&[u8]], length: u64) -> bool
    ensures { IsTrue result ↔ All (λ (v : Bor (List ℕ)). IsNumber v.now length) values.now }
{
    values.iter().all(|value| says(value, length))
}

/// The length that all the values say.
pub fn common_length(values: &[&[u8]]) -> Option<u64>
    ensures some { IfSome result (λ n. AreLength (map (λ (v : Bor (List ℕ)). v.now) values.now) n) }
    ensures none { IfNone result ((n : ℕ) → AreLength (map (λ (v : Bor (List ℕ)). v.now) values.now) n → ⊥) }
{
    let Some(first) = values.first() else {
        return Some(0);
    };
    let length = number_of(first)?;
    if all_say(values, length) {
        Some(length)
    } else {
        None
    }
}

fn is_ows(byte: u8) -> bool
    ensures { result ≡ is_ows byte }
{
    byte == b' ' || byte == b'\t'
}

fn are_ows(text: &[u8]) -> bool
    ensures { result ≡ list_all is_ows text.now }
{
    text.iter().all(|byte| is_ows(*byte))
}

fn after_ows(text: &[u8]) -> &[u8]
    ensures { result.now ≡ skip_ows text.now }
{
    let mut rest = text;
    'bytes: while let Some((first, more)) = rest.split_first() {
        if !is_ows(*first) {
            return rest;
        }
        rest = more;
    }
    rest
}

fn is_close(item: &[u8]) -> bool
    ensures { result ≡ is_close item.now }
{
    let word = after_ows(item);
    if word.len() < 5 {
        return false;
    }
    is_same_word(&word[..5], b"close") && are_ows(&word[5..])
}

fn has_close(value: &[u8]) -> bool
    ensures { result ≡ has_close value.now }
{
    let mut rest = value;
    'items: while let Some((item, more)) = split_at_byte(rest, b',') {
        if is_close(item) {
            return true;
        }
        rest = more;
    }
    is_close(rest)
}

/// Whether one of these values of `Connection` lists `close`.
pub fn asks_close(values: &[&[u8]]) -> bool
    ensures { result ≡ list_any (λ (v : Bor (List ℕ)). has_close v.now) values.now }
{
    values.iter().any(|value| has_close(value))
}
