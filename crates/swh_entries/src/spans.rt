//! Entries in their order, cut into pieces that several lists share. A change makes anew one piece and the forks above
//! it, but for those that one list alone has: it changes them. The sides of a fork are about as deep as each other, so
//! of n entries about log n forks stand above a piece.

ghost use Rattle.std.specs.Prelude.{◌≡◌, ◌<◌, ◌≤◌, ◌+◌, ◌-◌, ◌++◌, ℕ, length, slice_index_or, IsTrue, IsFalse, IfOk, OnOk};
ghost use Rattle.std.specs.List.{insert, remove, slice_get};
ghost use Rattle.std.specs.Rc.{rc_value};
ghost use Rattle.swh_entries.specs.declared.entry.Entry.{Entry};
ghost use Rattle.swh_entries.specs.Gaps.{entry_before};
ghost use Rattle.swh_entries.specs.Spans.{items_of, weight, IsCounted};

use crate::entry::{Entry, Gap};
use crate::order::is_name_before;
use std::alloc::{AllocError, Global};
use std::marker::Model;
use std::rc::Rc;

/// The most entries of a piece.
const PIECE: usize = 16;

/// A piece, or two sides with the number of their entries, how deep they are, and a copy of their first entry.
#[derive(Drop)]
pub enum Span {
    Piece(Vec<Entry>),
    Fork(Rc<Span>, Rc<Span>, usize, usize, Option<Entry>),
}

/// How many entries there are.
fn len_of(span: &Span) -> usize
    requires { IsCounted span.now }
    ensures { result ≡ length (items_of span.now) }
{
    match span {
        Span::Piece(entries) => entries.len(),
        Span::Fork(_, _, len, _, _) => *len,
    }
}

/// How many forks stand above the piece that has most of them above it.
fn depth_of(span: &Span) -> usize {
    match span {
        Span::Piece(_) => 0,
        Span::Fork(_, _, _, depth, _) => *depth,
    }
}

/// The first entry, where there is one.
fn first_of(span: &Span) -> Option<Entry> {
    match span {
        Span::Piece(entries) => entries.first().copied(),
        Span::Fork(_, _, _, _, first) => *first,
    }
}

/// Whether a name, with what it is compared with after it, comes before an entry; where there is none, it does.
fn is_in_front(names: &[Vec<u8>], entry: Option<Entry>, name: &[u8], end: &[u8]) -> bool {
    match entry {
        Some(entry) => is_name_before(names, name, end, entry),
        None => true,
    }
}

/// How many entries there are up to the first that a name, with what it is compared with after it, comes before: right where
/// they are in order.
fn count_up_to(names: &[Vec<u8>], entries: &[Entry], name: &[u8], end: &[u8]) -> usize {
    let mut low = 0;
    let mut high = entries.len();
    'halves: while low < high {
        let middle = low + (high - low) / 2;
        let before = is_name_before(names, name, end, entries[middle]);
        if before {
            high = middle;
        } else {
            low = middle + 1;
        }
    }
    low
}

/// A place at which a name, with what it is compared with after it, may be looked for: right where the entries are in
/// order.
fn guess_in(span: &Span, names: &[Vec<u8>], name: &[u8], end: &[u8]) -> usize
    requires { IsCounted span.now }
{
    match span {
        Span::Piece(entries) => count_up_to(names, entries.as_slice(), name, end),
        Span::Fork(left, right, _, _, _) => {
            if is_in_front(names, first_of(right), name, end) {
                guess_in(left, names, name, end)
            } else {
                len_of(left).saturating_add(guess_in(right, names, name, end))
            }
        }
    }
}

/// The entry at a place.
fn entry_at(span: &Span, place: usize) -> Entry
    requires counted { IsCounted span.now }
    requires within { place < length (items_of span.now) }
    ensures { (d : Entry) → result ≡ slice_index_or (items_of span.now) place d }
{
    match span {
        Span::Piece(entries) => entries[place],
        Span::Fork(left, right, _, _, _) => {
            let before = len_of(left);
            if place < before {
                entry_at(left, place)
            } else {
                entry_at(right, place - before)
            }
        }
    }
}

/// The piece that a place is in, or at whose end it is, and the place there.
fn piece_at(span: &Span, place: usize) -> (&[Entry], usize)
    requires { IsCounted span.now }
    ensures within { result.1 ≤ place }
    ensures same { (k : ℕ) → k ≤ result.1
        → slice_get result.0.now k ≡ slice_get (items_of span.now) (place - result.1 + k) }
{
    match span {
        Span::Piece(entries) => (entries.as_slice(), place),
        Span::Fork(left, right, _, _, _) => {
            let before = len_of(left);
            if place < before {
                piece_at(left, place)
            } else {
                piece_at(right, place - before)
            }
        }
    }
}

/// The entry at a place in a piece, where there is one.
fn entry_in(piece: &[Entry], place: usize) -> Option<Entry>
    ensures { result ≡ slice_get piece.now place }
{
    piece.get(place).copied()
}

/// The entry at a place, where there is one.
fn get_in(span: &Span, place: usize) -> Option<Entry>
    requires { IsCounted span.now }
    ensures { result ≡ slice_get (items_of span.now) place }
{
    let (piece, inner) = piece_at(span, place);
    entry_in(piece, inner)
}

/// The entry before a place, and the one at it.
fn sides_of(span: &Span, place: usize) -> (Option<Entry>, Option<Entry>)
    requires { IsCounted span.now }
    ensures before { result.0 ≡ entry_before (items_of span.now) place }
    ensures at { result.1 ≡ slice_get (items_of span.now) place }
{
    if place == 0 {
        return (None, get_in(span, 0));
    }
    let (piece, inner) = piece_at(span, place);
    let at = entry_in(piece, inner);
    if inner == 0 {
        return (get_in(span, place - 1), at);
    }
    let before = entry_in(piece, inner - 1);
    (before, at)
}

/// These entries in one piece.
fn piece(alloc: Global, entries: Vec<Entry>) -> Result<Rc<Span>, AllocError>
    ensures counted { IfOk result (λ s. IsCounted (rc_value s)) }
    ensures items { IfOk result (λ s. items_of (rc_value s) ≡ entries.items) }
{
    Ok(Rc::new(alloc, Span::Piece(entries))?)
}

/// The entries of both sides, under one fork.
fn fork(alloc: Global, left: Rc<Span>, right: Rc<Span>) -> Result<Rc<Span>, AllocError>
    requires left { IsCounted (rc_value left) }
    requires right { IsCounted (rc_value right) }
    ensures counted { IfOk result (λ s. IsCounted (rc_value s)) }
    ensures items { IfOk result (λ s. items_of (rc_value s) ≡ items_of (rc_value left) ++ items_of (rc_value right)) }
{
    let Some(total) = len_of(&left).checked_add(len_of(&right)) else {
        return Err(AllocError);
    };
    let deeper = depth_of(&left).max(depth_of(&right)).saturating_add(1);
    let first = first_of(&left);
    Ok(Rc::new(alloc, Span::Fork(left, right, total, deeper, first))?)
}

/// The entries of three sides, where the one in the middle may be cut.
fn cut_middle(
    alloc: Global,
    left: Rc<Span>,
    middle: &Rc<Span>,
    right: Rc<Span>,
) -> Result<Rc<Span>, AllocError>
    requires left { IsCounted (rc_value left) }
    requires middle { IsCounted (rc_value middle.now) }
    requires right { IsCounted (rc_value right) }
    ensures counted { IfOk result (λ s. IsCounted (rc_value s)) }
    ensures items { IfOk result (λ s. items_of (rc_value s)
        ≡ items_of (rc_value left) ++ (items_of (rc_value middle.now) ++ items_of (rc_value right))) }
{
    match middle.as_ref() {
        Span::Piece(_) => {
            let after = fork(alloc, middle.clone()?, right)?;
            fork(alloc, left, after)
        }
        Span::Fork(near, far, _, _, _) => {
            let before = fork(alloc, left, near.clone()?)?;
            let after = fork(alloc, far.clone()?, right)?;
            fork(alloc, before, after)
        }
    }
}

/// The entries of both sides, where the left one is the deeper.
fn lean_left(alloc: Global, left: Rc<Span>, right: Rc<Span>) -> Result<Rc<Span>, AllocError>
    requires left { IsCounted (rc_value left) }
    requires right { IsCounted (rc_value right) }
    ensures counted { IfOk result (λ s. IsCounted (rc_value s)) }
    ensures items { IfOk result (λ s. items_of (rc_value s) ≡ items_of (rc_value left) ++ items_of (rc_value right)) }
{
    match left.as_ref() {
        Span::Piece(_) => fork(alloc, left.clone()?, right),
        Span::Fork(outer, inner, _, _, _) => {
            if depth_of(outer) < depth_of(inner) {
                return cut_middle(alloc, outer.clone()?, inner, right);
            }
            let after = fork(alloc, inner.clone()?, right)?;
            fork(alloc, outer.clone()?, after)
        }
    }
}

/// The entries of both sides, where the right one is the deeper.
fn lean_right(alloc: Global, left: Rc<Span>, right: Rc<Span>) -> Result<Rc<Span>, AllocError>
    requires left { IsCounted (rc_value left) }
    requires right { IsCounted (rc_value right) }
    ensures counted { IfOk result (λ s. IsCounted (rc_value s)) }
    ensures items { IfOk result (λ s. items_of (rc_value s) ≡ items_of (rc_value left) ++ items_of (rc_value right)) }
{
    match right.as_ref() {
        Span::Piece(_) => fork(alloc, left, right.clone()?),
        Span::Fork(inner, outer, _, _, _) => {
            if depth_of(outer) < depth_of(inner) {
                return cut_middle(alloc, left, inner, outer.clone()?);
            }
            let before = fork(alloc, left, inner.clone()?)?;
            fork(alloc, before, outer.clone()?)
        }
    }
}

/// The entries of both sides, of which one changed by an entry, and may be empty now.
fn joined(alloc: Global, left: Rc<Span>, right: Rc<Span>) -> Result<Rc<Span>, AllocError>
    requires left { IsCounted (rc_value left) }
    requires right { IsCounted (rc_value right) }
    ensures counted { IfOk result (λ s. IsCounted (rc_value s)) }
    ensures items { IfOk result (λ s. items_of (rc_value s) ≡ items_of (rc_value left) ++ items_of (rc_value right)) }
{
    if len_of(&left) == 0 {
        return Ok(right);
    }
    if len_of(&right) == 0 {
        return Ok(left);
    }
    let (deep_left, deep_right) = (depth_of(&left), depth_of(&right));
    if deep_left > deep_right.saturating_add(1) {
        return lean_left(alloc, left, right);
    }
    if deep_right > deep_left.saturating_add(1) {
        return lean_right(alloc, left, right);
    }
    fork(alloc, left, right)
}

/// These entries, with room for as many as a piece has at most.
fn roomy(alloc: Global, entries: &[Entry]) -> Result<Vec<Entry>, AllocError>
    ensures { IfOk result (λ v. v.items ≡ entries.now) }
{
    let mut roomy = Vec::with_capacity(alloc, PIECE)?;
    roomy.extend_from_slice(entries)?;
    Ok(roomy)
}

/// Both halves of these entries: the first where they all were, the second a copy.
fn halves(alloc: Global, entries: Vec<Entry>) -> Result<(Vec<Entry>, Vec<Entry>), AllocError>
    ensures { IfOk result (λ h. h.0.items ++ h.1.items ≡ entries.items) }
{
    let middle = entries.len() / 2;
    let (_, after) = entries.as_slice().split_at(middle);
    let second = roomy(alloc, after)?;
    let mut first = entries;
    first.truncate(middle);
    Ok((first, second))
}

/// These entries and one more, at a place, in one piece.
fn piece_of_more(
    alloc: Global,
    entries: Vec<Entry>,
    place: usize,
    entry: Entry,
) -> Result<Rc<Span>, AllocError>
    requires { place ≤ length entries.items }
    ensures counted { IfOk result (λ s. IsCounted (rc_value s)) }
    ensures items { IfOk result (λ s. items_of (rc_value s) ≡ insert entries.items place entry) }
{
    let mut more = entries;
    more.insert(place, entry)?;
    piece(alloc, more)
}

/// These entries and one more, at a place: in two pieces where they are too many for one. The piece is cut before the
/// entry is put into one of its halves, so that it never grows over its room.
fn piece_with(
    alloc: Global,
    entries: Vec<Entry>,
    place: usize,
    entry: Entry,
) -> Result<Rc<Span>, AllocError>
    requires within { place ≤ length entries.items }
    ensures counted { IfOk result (λ s. IsCounted (rc_value s)) }
    ensures items { IfOk result (λ s. items_of (rc_value s) ≡ insert entries.items place entry) }
{
    if entries.len() < PIECE {
        return piece_of_more(alloc, entries, place, entry);
    }
    let (first, second) = halves(alloc, entries)?;
    let before = first.len();
    if place <= before {
        let left = piece_of_more(alloc, first, place, entry)?;
        let right = piece(alloc, second)?;
        fork(alloc, left, right)
    } else {
        let left = piece(alloc, first)?;
        let right = piece_of_more(alloc, second, place - before, entry)?;
        fork(alloc, left, right)
    }
}

/// The same entries, whose sides or whose piece others have too.
fn shared(alloc: Global, span: &Span) -> Result<Span, AllocError>
    requires { IsCounted span.now }
    ensures counted { IfOk result (λ s. IsCounted s) }
    ensures items { IfOk result (λ s. items_of s ≡ items_of span.now) }
    ensures weight { IfOk result (λ s. weight s ≡ weight span.now) }
{
    match span {
        Span::Piece(entries) => Ok(Span::Piece(roomy(alloc, entries.as_slice())?)),
        Span::Fork(left, right, len, depth, first) => {
            let (left, right) = (left.clone()?, right.clone()?);
            Ok(Span::Fork(left, right, *len, *depth, *first))
        }
    }
}

/// What an owner has, itself where there is no other owner.
fn owned(alloc: Global, span: Rc<Span>) -> Result<Span, AllocError>
    requires { IsCounted (rc_value span) }
    ensures counted { IfOk result (λ s. IsCounted s) }
    ensures items { IfOk result (λ s. items_of s ≡ items_of (rc_value span)) }
    ensures weight { IfOk result (λ s. weight s ≡ weight (rc_value span)) }
{
    match Rc::try_unwrap(span) {
        Ok(own) => Ok(own),
        Err(other) => shared(alloc, &other),
    }
}

/// One entry more, at a place: in the pieces themselves where they have no other owner.
fn with(alloc: Global, span: Rc<Span>, place: usize, entry: Entry) -> Result<Rc<Span>, AllocError>
    requires counted { IsCounted (rc_value span) }
    requires within { place ≤ length (items_of (rc_value span)) }
    ensures counted { IfOk result (λ s. IsCounted (rc_value s)) }
    ensures items { IfOk result (λ s. items_of (rc_value s) ≡ insert (items_of (rc_value span)) place entry) }
{
    match owned(alloc, span)? {
        Span::Piece(entries) => piece_with(alloc, entries, place, entry),
        Span::Fork(left, right, _, _, _) => {
            let before = len_of(&left);
            if place <= before {
                let changed = with(alloc, left, place, entry)?;
                joined(alloc, changed, right)
            } else {
                let changed = with(alloc, right, place - before, entry)?;
                joined(alloc, left, changed)
            }
        }
    }
}

/// The first entry after one more was put at a place.
fn first_after(first: Option<Entry>, place: usize, entry: Entry) -> Option<Entry> {
    if place == 0 { Some(entry) } else { first }
}

/// Puts one entry more at a place, in the pieces themselves, and tells whether it did: where one of them has another owner,
/// or the piece has no room, they stay.
fn put_in_place(span: &mut Rc<Span>, place: usize, entry: Entry) -> bool
    requires counted { IsCounted (rc_value span.old) }
    requires within { place ≤ length (items_of (rc_value span.old)) }
    ensures counted { IsCounted (rc_value span.new) }
    ensures put { IsTrue result → items_of (rc_value span.new) ≡ insert (items_of (rc_value span.old)) place entry }
    ensures left { IsFalse result → items_of (rc_value span.new) ≡ items_of (rc_value span.old) }
{
    let Some(own) = Rc::get_mut(span) else {
        return false;
    };
    match own {
        Span::Piece(entries) => {
            if entries.len() >= PIECE {
                return false;
            }
            entries.insert(place, entry).is_ok()
        }
        Span::Fork(left, right, len, _, first) => {
            let Some(more) = len.checked_add(1) else {
                return false;
            };
            let before = len_of(left);
            if place <= before {
                let put = put_in_place(left, place, entry);
                if !put {
                    return false;
                }
                *first = first_after(*first, place, entry);
                *len = more;
                return true;
            }
            let put = put_in_place(right, place - before, entry);
            if !put {
                return false;
            }
            *len = more;
            true
        }
    }
}

/// All entries but the one at a place, in the pieces themselves where they have no other owner.
fn without(alloc: Global, span: Rc<Span>, place: usize) -> Result<Rc<Span>, AllocError>
    requires counted { IsCounted (rc_value span) }
    requires within { place < length (items_of (rc_value span)) }
    ensures counted { IfOk result (λ s. IsCounted (rc_value s)) }
    ensures items { IfOk result (λ s. items_of (rc_value s) ≡ remove (items_of (rc_value span)) place) }
{
    match owned(alloc, span)? {
        Span::Piece(entries) => {
            let mut rest = entries;
            let _ = rest.remove(place);
            piece(alloc, rest)
        }
        Span::Fork(left, right, _, _, _) => {
            let before = len_of(&left);
            if place < before {
                let changed = without(alloc, left, place)?;
                joined(alloc, changed, right)
            } else {
                let changed = without(alloc, right, place - before)?;
                joined(alloc, left, changed)
            }
        }
    }
}

/// These entries, cut into halves down to the pieces.
fn cut(alloc: Global, entries: &[Entry]) -> Result<Rc<Span>, AllocError>
    ensures counted { IfOk result (λ s. IsCounted (rc_value s)) }
    ensures items { IfOk result (λ s. items_of (rc_value s) ≡ entries.now) }
{
    if entries.len() <= PIECE {
        return piece(alloc, Vec::from_slice(alloc, entries)?);
    }
    let (first, second) = entries.split_at(entries.len() / 2);
    let left = cut(alloc, first)?;
    let right = cut(alloc, second)?;
    fork(alloc, left, right)
}

/// Puts the entries behind those that are there.
fn put_all(span: &Span, out: &mut Vec<Entry>) -> Result<(), AllocError>
    ensures { OnOk result (out.new.items ≡ out.old.items ++ items_of span.now) }
{
    match span {
        Span::Piece(entries) => out.extend_from_slice(entries.as_slice()),
        Span::Fork(left, right, _, _, _) => {
            put_all(left, out)?;
            put_all(right, out)
        }
    }
}

/// The entries of a folder, in pieces. Contracts see their list.
#[derive(Drop)]
pub struct Spans {
    root: Rc<Span>,
    /// A place at which to look first: behind the entry that was put there last.
    hint: usize,
}

impl Model for Spans {
    ghost use Rattle.swh_entries.specs.Listed.{Row};

    ghost Value = { Row };

    ghost use Rattle.std.specs.Rc.{rc_value};
    ghost use Rattle.swh_entries.specs.Spans.{items_of, IsCounted};

    ghost view = { λ s. record { items = items_of (rc_value s.root) } };

    ghost invariant = { λ s. IsCounted (rc_value s.root) };
}

impl Spans {
    ghost use Rattle.std.specs.Prelude.{◌≡◌, ◌<◌, ◌≤◌, length, slice_index_or, IfOk};
    ghost use Rattle.std.specs.List.{insert, remove};
    ghost use Rattle.swh_entries.specs.declared.entry.Entry.{Entry};
    ghost use Rattle.swh_entries.specs.Gaps.{gap_at};

    /// These entries. Fails where memory runs out.
    pub fn of(alloc: Global, entries: &[Entry]) -> Result<Spans, AllocError>
        ensures { IfOk result (λ s. s.items ≡ entries.now) }
    {
        let root = cut(alloc, entries)?;
        Ok(Spans { root, hint: 0 })
    }

    /// How many entries there are.
    pub fn len(&self) -> usize
        ensures { result ≡ length self.now.items }
    {
        len_of(&self.root)
    }

    /// The entry at a place.
    pub fn at(&self, place: usize) -> Entry
        requires { place < length self.now.items }
        ensures { (d : Entry) → result ≡ slice_index_or self.now.items place d }
    {
        entry_at(&self.root, place)
    }

    /// A place, with the entries on both sides of it.
    pub fn gap(&self, place: usize) -> Gap
        ensures { result ≡ gap_at self.now.items place }
    {
        let (before, at) = sides_of(&self.root, place);
        Gap { place, before, at }
    }

    /// A place at which to look for a name, with what it is compared with after it.
    pub fn guess(&self, names: &[Vec<u8>], name: &[u8], end: &[u8]) -> usize {
        guess_in(&self.root, names, name, end)
    }

    /// A place at which to look first: behind the entry that was put there last, or where one was looked for last.
    pub fn hint(&self) -> usize {
        self.hint
    }

    /// The same entries, of which one was looked for at this place.
    pub fn hinted(self, hint: usize) -> Spans
        ensures { result.items ≡ self.items }
    {
        let root = self.root;
        Spans { root, hint }
    }

    /// A copy of the entries. Fails where memory runs out.
    pub fn entries(&self, alloc: Global) -> Result<Vec<Entry>, AllocError>
        ensures { IfOk result (λ v. v.items ≡ self.now.items) }
    {
        let mut out = Vec::with_capacity(alloc, self.len())?;
        put_all(&self.root, &mut out)?;
        Ok(out)
    }

    /// The same entries, shared. Fails where memory runs out.
    pub fn again(&self) -> Result<Spans, AllocError>
        ensures { IfOk result (λ s. s.items ≡ self.now.items) }
    {
        let root = self.root.clone()?;
        let hint = self.hint;
        Ok(Spans { root, hint })
    }

    /// One entry more, at a place. Fails where memory runs out.
    pub fn with(self, alloc: Global, place: usize, entry: Entry) -> Result<Spans, AllocError>
        requires { place ≤ length self.items }
        ensures { IfOk result (λ s. s.items ≡ insert self.items place entry) }
    {
        let hint = place.saturating_add(1);
        let mut root = self.root;
        let put = put_in_place(&mut root, place, entry);
        if put {
            return Ok(Spans { root, hint });
        }
        let root = with(alloc, root, place, entry)?;
        Ok(Spans { root, hint })
    }

    /// All entries but the one at a place. Fails where memory runs out.
    pub fn without(self, alloc: Global, place: usize) -> Result<Spans, AllocError>
        requires { place < length self.items }
        ensures { IfOk result (λ s. s.items ≡ remove self.items place) }
    {
        let root = without(alloc, self.root, place)?;
        Ok(Spans { root, hint: place })
    }
}
