//! Leaves of nodes, stored in few lists.
ghost use Rattle.std.specs.Prelude.{◌≡◌, ◌+◌, ◌-◌, ◌<◌, ◌≤◌, ◌^◌, [], ◌∷◌, ◌++◌, ℕ, List, Some, IfOk, OnOk, OnErr, IsTrue, length, map, take, drop, slice_get, vec_len};
ghost use Rattle.std.specs.List.{All};
ghost use Rattle.std.specs.Option.{option_map};
ghost use Rattle.octet_text.specs.Puts.{Begins};
ghost use Rattle.road_leaf.specs.Held.{extra_at, start_before, said, codes_of, held, IsWithin, AreHeld};
ghost use Rattle.road_leaf.specs.Seen.{seen, extra_seen};

use crate::view::{ExtraView, NodeView};
use crate::{Extra, NodeLeaf};
use octet_text::{NoMemory, extend, push, room_for};
use road_map::Arc;
use std::alloc::Global;
use std::marker::Model;
use std::mem::size_of;

/// The part of a leaf that these lists store for it alone: the node's id and coordinates, and the index at which
/// its arcs end.
#[derive(Clone, Copy, Debug)]
pub struct Head {
    pub id: u32,
    pub x: i32,
    pub y: i32,
    pub end: u32,
}

/// The contents of a leaf besides its coordinates and arcs, as stored in these lists. Each case has its shorter
/// field first, so that a note takes eight octets.
#[derive(Clone, Copy, Debug)]
pub enum Note {
    /// Nothing.
    Plain,
    /// The node's own codes: `count` codes from index `start` on.
    Own { count: u16, start: u32 },
    /// The greatest difference between the node's own codes and those that replace them, and the node that these
    /// belong to.
    Near { error: u16, reference: u32 },
    /// Whether a road leads from the node to another cell, and the node's cell.
    Cell { border: bool, cell: u32 },
}

const _: () = prove!(size_of::<Note>() == 8);

/// Leaves of nodes, in order. A leaf has lists of its own only if the leaves have 2^32 arcs or codes in all, or
/// more than 65,535 codes in one leaf. Contracts treat this as the list of the leaves.
#[derive(Debug, Drop)]
pub struct NodeLeaves {
    heads: Vec<Head>,
    // The arcs of these leaves, one leaf after the other.
    arcs: Vec<Arc>,
    // The extra contents of each of these leaves, up to the last leaf that has any.
    notes: Vec<Note>,
    // The codes of the notes; those of each leaf are contiguous.
    codes: Vec<u16>,
    // The remaining leaves. The first of them is the first leaf whose arcs would end after 2^32 - 1 arcs, whose
    // codes would end after 2^32 - 1 codes, or that has more than 65,535 codes.
    further: Vec<NodeLeaf>,
}

impl Model for NodeLeaves {
    ghost use Rattle.std.specs.Prelude.{List, length, ◌++◌};
    ghost use Rattle.road_leaf.specs.declared.leaf.NodeLeaf.{NodeLeaf};
    ghost use Rattle.road_leaf.specs.Held.{held, AreHeld};

    ghost Value = { List NodeLeaf };

    ghost view = { λ n. held n.heads.items n.arcs.items n.notes.items n.codes.items
        ++ n.further.items };

    ghost invariant = { λ n. AreHeld n.heads.items (length n.arcs.items) n.notes.items
        (length n.codes.items) };
}

impl NodeLeaves {
    /// Makes an empty list.
    pub fn new(alloc: Global) -> NodeLeaves
        ensures { result ≡ [] }
    {
        NodeLeaves {
            heads: Vec::new(alloc),
            arcs: Vec::new(alloc),
            notes: Vec::new(alloc),
            codes: Vec::new(alloc),
            further: Vec::new(alloc),
        }
    }

    /// Makes the list of these leaves.
    pub fn of(alloc: Global, leaves: Vec<NodeLeaf>) -> Result<NodeLeaves, NoMemory>
        ensures { IfOk result (λ held. held ≡ leaves.items) }
    {
        let mut held = NodeLeaves::new(alloc);
        for leaf in leaves {
            held.push(leaf)?;
        }
        Ok(held)
    }

    /// Returns the number of leaves.
    pub fn len(&self) -> usize
        ensures { result ≡ length self.now }
    {
        self.heads.len() + self.further.len()
    }

    /// Returns an empty list of ids, with room for one id for each leaf whose arcs are in the common list.
    pub fn room_for_ids(&self, alloc: Global) -> Result<Vec<u32>, NoMemory>
        ensures items { IfOk result (λ list. list.items ≡ []) }
        ensures len { IfOk result (λ list. vec_len list ≡ 0) }
    {
        room_for(alloc, &self.heads)
    }

    /// Returns the leaf at an index, if the index exists.
    pub fn get(&self, index: usize) -> Option<NodeView<'_>>
        ensures { option_map seen result ≡ slice_get self.now index }
    {
        if index >= self.len() {
            return None;
        }
        Some(self.at(index))
    }

    /// Returns the leaf at an index, which must exist.
    pub fn at(&self, index: usize) -> NodeView<'_>
        requires { index < length self.now }
        ensures { slice_get self.now index ≡ Some (seen result) }
    {
        if index >= self.heads.len() {
            return self.further[index - self.heads.len()].view();
        }
        let head = self.heads[index];
        let start = start_before(&self.heads, index);
        NodeView {
            id: head.id,
            x: head.x,
            y: head.y,
            arcs: between(&self.arcs, start as usize, head.end as usize),
            extra: said_at(&self.notes, &self.codes, index),
        }
    }

    /// Appends a leaf. After an error the leaves are unchanged.
    pub fn push(&mut self, leaf: NodeLeaf) -> Result<(), NoMemory>
        ensures ok { OnOk result (self.new ≡ self.old ++ leaf ∷ []) }
        ensures err { OnErr result (self.new ≡ self.old) }
    {
        if self.further.is_empty()
            && end_fits(&self.arcs, leaf.arcs.as_slice())
            && end_fits(&self.codes, codes_of(&leaf.extra))
            && is_short(codes_of(&leaf.extra))
        {
            hold(
                &mut self.heads,
                &mut self.arcs,
                &mut self.notes,
                &mut self.codes,
                leaf,
            )
        } else {
            push(&mut self.further, leaf)
        }
    }
}

// Returns the index at which the arcs of the leaf at an index begin.
fn start_before(heads: &[Head], index: usize) -> u32
    requires { index < length heads.now }
    ensures { result ≡ start_before 0 heads.now index }
{
    if index == 0 {
        return 0;
    }
    heads[index - 1].end
}

// Returns the items from index `start` up to but not including index `end`.
fn between<T>(items: &[T], start: usize, end: usize) -> &[T]
    requires order { start ≤ end }
    requires within { end ≤ length items.now }
    ensures { result.now ≡ take (end - start) (drop start items.now) }
{
    &items[start..end]
}

// Returns the contents that a note stands for.
fn said(note: Note, codes: &[u16]) -> ExtraView<'_>
    requires { IsWithin (length codes.now) note }
    ensures { extra_seen result ≡ said codes.now note }
{
    match note {
        Note::Plain => ExtraView::Plain,
        Note::Own { count, start } => {
            let start = start as usize;
            ExtraView::Own(between(codes, start, start + count as usize))
        }
        Note::Near { error, reference } => ExtraView::Near { reference, error },
        Note::Cell { border, cell } => ExtraView::Cell { cell, border },
    }
}

// Returns the contents that the note at an index stands for, or no contents if the index has no note.
fn said_at<'a>(notes: &[Note], codes: &'a [u16], index: usize) -> ExtraView<'a>
    requires { All (IsWithin (length codes.now)) notes.now }
    ensures { extra_seen result ≡ extra_at (map (said codes.now) notes.now) index }
{
    match notes.get(index) {
        Some(note) => said(*note, codes),
        None => ExtraView::Plain,
    }
}

// Returns the codes in the contents of a leaf.
fn codes_of(extra: &Extra) -> &[u16]
    ensures { result.now ≡ codes_of extra.now }
{
    match extra {
        Extra::Own(codes) => codes.as_slice(),
        _ => &[],
    }
}

// Tests whether the sum of two numbers of items fits in 32 bits.
fn end_fits<T>(items: &[T], more: &[T]) -> bool
    ensures { IsTrue result → length items.now + length more.now < 2 ^ 32 }
{
    let most = u32::MAX as usize;
    items.len() <= most && more.len() <= most - items.len()
}

// Tests whether a note can hold the number of these codes.
fn is_short(codes: &[u16]) -> bool
    ensures { IsTrue result → length codes.now < 2 ^ 16 }
{
    codes.len() <= u16::MAX as usize
}

// Appends a leaf to those whose arcs are in the common list.
fn hold(
    heads: &mut Vec<Head>,
    arcs: &mut Vec<Arc>,
    notes: &mut Vec<Note>,
    codes: &mut Vec<u16>,
    leaf: NodeLeaf,
) -> Result<(), NoMemory>
    requires held { AreHeld heads.old.items (length arcs.old.items) notes.old.items
        (length codes.old.items) }
    requires arcs_fit { length arcs.old.items + length leaf.arcs < 2 ^ 32 }
    requires codes_fit { length codes.old.items + length (codes_of leaf.extra) < 2 ^ 32 }
    requires short { length (codes_of leaf.extra) < 2 ^ 16 }
    ensures held { AreHeld heads.new.items (length arcs.new.items) notes.new.items
        (length codes.new.items) }
    ensures ok { OnOk result (held heads.new.items arcs.new.items notes.new.items codes.new.items
        ≡ held heads.old.items arcs.old.items notes.old.items codes.old.items ++ leaf ∷ []) }
    ensures err { OnErr result (held heads.new.items arcs.new.items notes.new.items codes.new.items
        ≡ held heads.old.items arcs.old.items notes.old.items codes.old.items) }
{
    let NodeLeaf {
        id,
        x,
        y,
        arcs: more,
        extra,
    } = leaf;
    put_note(notes, codes, heads.len(), &extra)?;
    let count = arcs.len();
    extend(arcs, more.as_slice())?;
    let end = arcs.len() as u32;
    match push(heads, Head { id, x, y, end }) {
        Ok(()) => Ok(()),
        Err(none) => {
            arcs.truncate(count);
            Err(none)
        }
    }
}

// Adds empty notes up to an index.
fn pad(notes: &mut Vec<Note>, count: usize) -> Result<(), NoMemory>
    requires { vec_len notes.old ≤ count }
    ensures same { (codes : List ℕ) (i : ℕ) → extra_at (map (said codes) notes.new.items) i
        ≡ extra_at (map (said codes) notes.old.items) i }
    ensures within { (long : ℕ) → All (IsWithin long) notes.old.items
        → All (IsWithin long) notes.new.items }
    ensures count { OnOk result (vec_len notes.new ≡ count) }
{
    for _ in notes.len()..count {
        push(notes, Note::Plain)?;
    }
    Ok(())
}

// Appends the codes of a leaf's contents, and returns the note for these contents.
fn noted(codes: &mut Vec<u16>, extra: &Extra) -> Result<Note, NoMemory>
    requires fits { length codes.old.items + length (codes_of extra.now) < 2 ^ 32 }
    requires short { length (codes_of extra.now) < 2 ^ 16 }
    ensures begins { Begins codes.old.items codes.new.items }
    ensures within { IfOk result (IsWithin (length codes.new.items)) }
    ensures says { IfOk result (λ note. said codes.new.items note ≡ extra.now) }
{
    let start = codes.len() as u32;
    let own = codes_of(extra);
    let count = own.len() as u16;
    extend(codes, own)?;
    match extra {
        Extra::Plain => Ok(Note::Plain),
        Extra::Own(_) => Ok(Note::Own { count, start }),
        Extra::Near { reference, error } => Ok(Note::Near {
            error: *error,
            reference: *reference,
        }),
        Extra::Cell { cell, border } => Ok(Note::Cell {
            border: *border,
            cell: *cell,
        }),
    }
}

// Adds the note for the contents of the leaf at an index. No later index has a note.
fn put_note(
    notes: &mut Vec<Note>,
    codes: &mut Vec<u16>,
    index: usize,
    extra: &Extra,
) -> Result<(), NoMemory>
    requires within { All (IsWithin (length codes.old.items)) notes.old.items }
    requires fits { length codes.old.items + length (codes_of extra.now) < 2 ^ 32 }
    requires short { length (codes_of extra.now) < 2 ^ 16 }
    ensures within { All (IsWithin (length codes.new.items)) notes.new.items }
    ensures before { (i : ℕ) → i < index → extra_at (map (said codes.new.items) notes.new.items) i
        ≡ extra_at (map (said codes.old.items) notes.old.items) i }
    ensures here { OnOk result (extra_at (map (said codes.new.items) notes.new.items) index
        ≡ extra.now) }
{
    notes.truncate(index);
    if let Extra::Plain = extra {
        return Ok(());
    }
    pad(notes, index)?;
    let note = noted(codes, extra)?;
    push(notes, note)?;
    Ok(())
}
