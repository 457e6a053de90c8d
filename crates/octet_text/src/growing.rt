//! Growing lists. Each function asks the system for memory, and fails with `NoMemory` exactly if the system refuses
//! it. The list is then unchanged.
ghost use Rattle.std.specs.Prelude.{◌≡◌, ◌+◌, ◌*◌, ◌++◌, ◌∷◌, ◌≤◌, ◌^◌, [], List, if◌then◌else◌, ◌-◌, length, is_ok, ◌<◌, replicate, take, vec_len, vec_capacity, string_bytes, IsPermutation, true, not, Some, IfOk, OnOk, OnErr};
ghost use Rattle.std.specs.List.{insert as insert_item};
ghost use Rattle.std.specs.Iterator.{DrainsIf, HoldsAlong, IsFinite};
ghost use Rattle.std.specs.Iterator.Runs.{WholeRun};
ghost use Rattle.std.specs.List.Sorted.{IsSortedByKeyClosure, IsStableByKeyClosure};
ghost use Rattle.std.specs.BTreeMap.{get, insert_entry, Updates};
ghost use Rattle.std.specs.BinaryHeap.{heap_items, KeepsHeap};
ghost use Rattle.octet_text.specs.Room.{IsBorneOut, AreBorneOut};
ghost use Rattle.std.specs.BTreeSet.{contains, insert_key, Updates as KeyUpdates};

use crate::NoMemory;
use std::alloc::Global;
use std::collections::{BTreeMap, BTreeSet, BinaryHeap};
use std::rc::Rc;

/// Appends an item.
pub fn push<T: Drop>(list: &mut Vec<T>, item: T) -> Result<(), NoMemory>
    ensures items { list.new.items ≡
        (if is_ok result then list.old.items ++ item ∷ [] else list.old.items) }
    ensures len { vec_len list.new ≡
        (if is_ok result then vec_len list.old + 1 else vec_len list.old) }
{
    match list.push(item) {
        Ok(()) => Ok(()),
        Err(_) => Err(NoMemory::refused()),
    }
}

/// Inserts an item.
pub fn insert_at<T: Drop>(list: &mut Vec<T>, place: usize, item: T) -> Result<(), NoMemory>
    requires { place ≤ length list.old.items }
    ensures items { list.new.items ≡ (if is_ok result then
        insert_item list.old.items place item else list.old.items) }
{
    match list.insert(place, item) {
        Ok(()) => Ok(()),
        Err(_) => Err(NoMemory::refused()),
    }
}

/// Appends copies of items.
pub fn extend<T: Copy>(list: &mut Vec<T>, more: &[T]) -> Result<(), NoMemory>
    ensures items { list.new.items ≡
        (if is_ok result then list.old.items ++ more.now else list.old.items) }
    ensures len { vec_len list.new ≡
        (if is_ok result then vec_len list.old + length more.now else vec_len list.old) }
{
    match list.extend_from_slice(more) {
        Ok(()) => Ok(()),
        Err(_) => Err(NoMemory::refused()),
    }
}

/// Copies items.
pub fn copied<T: Copy>(alloc: Global, items: &[T]) -> Result<Vec<T>, NoMemory>
    ensures items { IfOk result (λ copy. copy.items ≡ items.now) }
    ensures len { IfOk result (λ copy. vec_len copy ≡ length items.now) }
{
    match Vec::from_slice(alloc, items) {
        Ok(copy) => Ok(copy),
        Err(_) => Err(NoMemory::refused()),
    }
}

/// Returns an empty list with room for as many items as `at_hand` has. The items take at most 16 octets for each
/// octet of `at_hand`.
pub fn room_for<T, S>(alloc: Global, at_hand: &[S]) -> Result<Vec<T>, NoMemory>
    requires borne_out { IsBorneOut T.row S.row }
    ensures items { IfOk result (λ list. list.items ≡ []) }
    ensures len { IfOk result (λ list. vec_len list ≡ 0) }
    ensures capacity { IfOk result (λ list. length at_hand.now ≤ vec_capacity list) }
{
    match Vec::with_capacity(alloc, at_hand.len()) {
        Ok(list) => Ok(list),
        Err(_) => Err(NoMemory::refused()),
    }
}

/// Returns an empty list with room for `count` items, which take at most 1,024 octets for each octet of `at_hand`,
/// plus 1,024 octets.
pub fn with_room<T, S>(alloc: Global, count: usize, at_hand: &[S]) -> Result<Vec<T>, NoMemory>
    requires borne_out { AreBorneOut T.row count S.row (length at_hand.now) }
    ensures items { IfOk result (λ list. list.items ≡ []) }
    ensures len { IfOk result (λ list. vec_len list ≡ 0) }
{
    match Vec::with_capacity(alloc, count) {
        Ok(list) => Ok(list),
        Err(_) => Err(NoMemory::refused()),
    }
}

/// Appends copies of an item until the list has `count` items. Asks for memory as the list grows, each time for at
/// most as many items as the list holds, plus 64.
pub fn fill_up<T: Copy>(list: &mut Vec<T>, count: usize, item: T) -> Result<(), NoMemory>
    ensures items { OnOk result
        (list.new.items ≡ list.old.items ++ replicate (count - vec_len list.old) item) }
{
    let mut left = count.saturating_sub(list.len());
    while left > 0 {
        let more = left.min(list.len().saturating_add(64));
        append(list, more, item)?;
        left -= more;
    }
    Ok(())
}

/// Appends `more` copies of an item.
fn append<T: Copy>(list: &mut Vec<T>, more: usize, item: T) -> Result<(), NoMemory>
    requires room { vec_len list.old + more < 2 ^ 64 }
    requires borne_out { more ≤ vec_len list.old + 64 }
    ensures items { OnOk result (list.new.items ≡ list.old.items ++ replicate more item) }
    ensures len { OnOk result (vec_len list.new ≡ vec_len list.old + more) }
{
    let count = list.len() + more;
    match list.resize(count, item) {
        Ok(()) => Ok(()),
        Err(_) => Err(NoMemory::refused()),
    }
}

/// Makes a list of `count` copies of an item.
pub fn filled<T: Copy>(alloc: Global, item: T, count: usize) -> Result<Vec<T>, NoMemory>
    ensures items { IfOk result (λ list. list.items ≡ replicate count item) }
{
    let mut list = Vec::new(alloc);
    fill_up(&mut list, count, item)?;
    Ok(list)
}

/// Inserts a value under a key, and returns the value that it replaces.
pub fn insert<K: Ord + Drop, V: Drop>(
    map: &mut BTreeMap<K, V>,
    key: K,
    value: V,
) -> Result<Option<V>, NoMemory>
    ensures old { IfOk result (λ old. old ≡ get K.cmp map.old key) }
    ensures updates { OnOk result (Updates K.cmp map.old map.new key (Some value)) }
    ensures entries { OnOk result
        (map.new.entries ≡ insert_entry K.cmp map.old.entries key value) }
    ensures err { OnErr result (map.new.entries ≡ map.old.entries) }
{
    match map.insert(key, value) {
        Ok(old) => Ok(old),
        Err(_) => Err(NoMemory::refused()),
    }
}

/// Inserts a key, and returns whether it is new.
pub fn insert_key<K: Ord + Drop>(set: &mut BTreeSet<K>, key: K) -> Result<bool, NoMemory>
    ensures added { IfOk result (λ added. added ≡ not (contains K.cmp set.old key)) }
    ensures updates { OnOk result (KeyUpdates K.cmp set.old set.new key true) }
    ensures keys { OnOk result (set.new.keys ≡ insert_key K.cmp set.old.keys key) }
    ensures err { OnErr result (set.new.keys ≡ set.old.keys) }
{
    match set.insert(key) {
        Ok(added) => Ok(added),
        Err(_) => Err(NoMemory::refused()),
    }
}

/// Makes a shared value.
pub fn shared<T: Drop>(alloc: Global, value: T) -> Result<Rc<T>, NoMemory>
    ensures ok { IfOk result (λ shared. shared.value ≡ value) }
{
    match Rc::new(alloc, value) {
        Ok(shared) => Ok(shared),
        Err(_) => Err(NoMemory::refused()),
    }
}

/// Returns another reference to a shared value.
pub fn share<T: Drop>(value: &Rc<T>) -> Result<Rc<T>, NoMemory>
    ensures same { IfOk result (λ shared. shared.value ≡ value.now.value) }
{
    match value.clone() {
        Ok(shared) => Ok(shared),
        Err(_) => Err(NoMemory::refused()),
    }
}

/// Copies a text.
pub fn text_of(alloc: Global, text: &str) -> Result<String, NoMemory>
    ensures ok { IfOk result (λ copy. string_bytes copy ≡ text.now) }
{
    match String::from_str(alloc, text) {
        Ok(copy) => Ok(copy),
        Err(_) => Err(NoMemory::refused()),
    }
}

/// Appends a text.
pub fn push_str(text: &mut String, more: &str) -> Result<(), NoMemory>
    ensures bytes { string_bytes text.new ≡
        (if is_ok result then string_bytes text.old ++ more.now else string_bytes text.old) }
{
    match text.push_str(more) {
        Ok(()) => Ok(()),
        Err(_) => Err(NoMemory::refused()),
    }
}

/// Pushes an item onto a heap.
pub fn push_heap<T: Ord + Drop>(heap: &mut BinaryHeap<T>, item: T) -> Result<(), NoMemory>
    ensures permutation { OnOk result
        (IsPermutation (item ∷ heap_items heap.old) (heap_items heap.new)) }
    ensures heap_order { OnOk result
        (KeepsHeap T.cmp (heap_items heap.old) (heap_items heap.new)) }
    ensures unchanged { OnErr result (heap_items heap.new ≡ heap_items heap.old) }
{
    match heap.push(item) {
        Ok(()) => Ok(()),
        Err(_) => Err(NoMemory::refused()),
    }
}

/// Collects the items of an iterator.
pub fn collected<B: FromIterator<I::Item>, I: Iterator>(
    alloc: B::Alloc,
    items: I,
) -> Result<B, NoMemory>
    requires can { I.can_next items }
    requires finite { IsFinite (I.remaining items) }
    requires can_collect { HoldsAlong I.next_gives items B.can_from_iter }
    ensures ran { IfOk result (λ v. (xs : List I.Item) ×
        DrainsIf I.next_gives (B.is_complete v) items xs × B.from_iter_gives xs v) }
    ensures runs { IfOk result (λ v. B.is_complete v →
        WholeRun I.next_gives items (λ p. B.from_iter_gives p.items v)) }
{
    match items.collect(alloc) {
        Ok(made) => Ok(made),
        Err(_) => Err(NoMemory::refused()),
    }
}

/// Sorts by a key; items with the same key keep their order.
pub fn sort_by_key<T: Drop, K: Ord + Drop, F: FnMut(&T) -> K>(
    list: &mut Vec<T>,
    key: F,
) -> Result<(), NoMemory>
    requires { F.IsAlwaysCallable key }
    ensures permutation { IsPermutation list.old.items list.new.items }
    ensures sorted { OnOk result (IsSortedByKeyClosure F.FnMut K.cmp key list.new.items) }
    ensures stable { IsStableByKeyClosure F.FnMut K.cmp key list.old.items list.new.items }
    ensures err { OnErr result (list.new.items ≡ list.old.items) }
{
    match list.sort_by_key(key) {
        Ok(()) => Ok(()),
        Err(_) => Err(NoMemory::refused()),
    }
}
