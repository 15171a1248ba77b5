//! A sequence in chunks.
ghost use Rattle.std.specs.Prelude.{◌≡◌, ◌+◌, ◌-◌, ◌≤◌, ◌<◌, ◌∷◌, ◌++◌, [], length, drop, take, get_or, set, option_copied, slice_get, IsTrue, IsFalse, IfOk, OnOk, OnErr};
ghost use Rattle.std.specs.List.{insert, remove};
ghost use Rattle.std.specs.VecDeque.{deque_capacity};
ghost use Rattle.ks_chunks.specs.Chunks.{AreChunks, AreLacking, Items, all_items, room};

use crate::chunk::{FULL, MOST, put};
use std::alloc::{AllocError, Global};
use std::collections::VecDeque;
use std::marker::Model;
use std::mem::replace;
use std::ops::Index;

/// Items in an order, of which each is found by its place at once, and comes and goes in about as many steps as a chunk has
/// items and as there are chunks. Contracts see the items, and for how many more there is room.
pub struct Sequence<T> {
    alloc: Global,
    pub(crate) chunks: Vec<VecDeque<T>>,
}

impl<T: Drop> Drop for Sequence<T> {
    fn drop(self) {
        let Sequence {
            alloc: _,
            chunks: _,
        } = self;
    }
}

impl<T> Model for Sequence<T> {
    ghost use Rattle.ks_chunks.specs.Chunks.{AreChunks, Items, all_items, room};
    ghost use Rattle.std.specs.Prelude.{◌≤◌, length};
    ghost use Rattle.ks_chunks.specs.declared.chunk.TheConstants.{FULL, MOST};

    ghost Value = { Items T };

    ghost view = { λ all. record { items = all_items all.chunks.items; room = room FULL all.chunks.items } };

    ghost invariant = { λ all. AreChunks FULL all.chunks.items × (length all.chunks.items ≤ MOST) };
}

/// How many items are in the chunks.
pub(crate) fn count<T>(chunks: &[VecDeque<T>]) -> usize
    requires chunks { AreChunks FULL chunks.now }
    requires most { length chunks.now ≤ MOST }
    ensures { result ≡ length (all_items chunks.now) }
{
    match chunks.last() {
        Some(last) => (chunks.len() - 1) * FULL + last.len(),
        None => 0,
    }
}

/// Whether one item more has room.
fn has_room<T>(chunks: &[VecDeque<T>]) -> bool
    requires { AreChunks FULL chunks.now }
    ensures yes { IsTrue result → 0 < room FULL chunks.now }
    ensures no { IsFalse result → room FULL chunks.now ≡ 0 }
{
    match chunks.last() {
        Some(last) => last.len() < FULL,
        None => false,
    }
}

/// Puts an item before all others from a chunk on; the last chunk has room.
fn put_before<T>(chunks: &mut [VecDeque<T>], from: usize, item: T)
    requires chunks { AreChunks FULL chunks.old }
    requires room { 0 < room FULL (drop from chunks.old) }
    ensures items { all_items chunks.new ≡ all_items (take from chunks.old) ++ (item ∷ all_items (drop from chunks.old)) }
    ensures chunks { AreChunks FULL chunks.new }
    ensures len { length chunks.new ≡ length chunks.old }
{
    let mut carried = Some(item);
    let mut at = from;
    while let Some(item) = carried {
        carried = put(&mut chunks[at], 0, item);
        at += 1;
    }
}

/// Puts an item before the one at this place; the last chunk has room.
fn insert_in<T>(chunks: &mut [VecDeque<T>], at: usize, item: T)
    requires chunks { AreChunks FULL chunks.old }
    requires at { at ≤ length (all_items chunks.old) }
    requires room { 0 < room FULL chunks.old }
    ensures items { all_items chunks.new ≡ insert (all_items chunks.old) at item }
    ensures chunks { AreChunks FULL chunks.new }
    ensures len { length chunks.new ≡ length chunks.old }
{
    let chunk = at / FULL;
    if let Some(last) = put(&mut chunks[chunk], at % FULL, item) {
        put_before(chunks, chunk + 1, last);
    }
}

/// Puts an item in place of the one at this place, and gives that.
fn replace_in<T>(chunks: &mut [VecDeque<T>], at: usize, item: T) -> T
    requires chunks { AreChunks FULL chunks.old }
    requires at { at < length (all_items chunks.old) }
    ensures value { result ≡ get_or (all_items chunks.old) at result }
    ensures items { all_items chunks.new ≡ set (all_items chunks.old) at item }
    ensures chunks { AreChunks FULL chunks.new }
    ensures room { room FULL chunks.new ≡ room FULL chunks.old }
    ensures len { length chunks.new ≡ length chunks.old }
{
    put_over(&mut chunks[at / FULL], at % FULL, item)
}

/// Puts an item in place of the one at this place of a chunk, and gives that.
fn put_over<T>(chunk: &mut VecDeque<T>, at: usize, item: T) -> T
    requires { at < length chunk.old.items }
    ensures value { result ≡ get_or chunk.old.items at result }
    ensures items { chunk.new.items ≡ set chunk.old.items at item }
    ensures capacity { deque_capacity chunk.new ≡ deque_capacity chunk.old }
{
    replace(&mut chunk[at], item)
}

/// Whether the last chunk is empty.
fn ends_empty<T>(chunks: &[VecDeque<T>]) -> bool
    requires { AreChunks FULL chunks.now }
    ensures yes { IsTrue result → FULL ≤ room FULL chunks.now }
    ensures no { IsFalse result → room FULL chunks.now < FULL }
{
    match chunks.last() {
        Some(last) => last.is_empty(),
        None => false,
    }
}

/// Lets a last chunk go that is empty.
fn trim<T: Drop>(chunks: &mut Vec<VecDeque<T>>)
    requires { AreChunks FULL chunks.old.items }
    ensures items { all_items chunks.new.items ≡ all_items chunks.old.items }
    ensures chunks { AreChunks FULL chunks.new.items }
    ensures some { room FULL chunks.new.items < FULL }
    ensures len { length chunks.new.items ≤ length chunks.old.items }
{
    if ends_empty(chunks.as_slice()) {
        drop(chunks.pop());
    }
}

/// Gives a chunk that lacks an item the first one of the next, and so on.
fn close_up<T>(chunks: &mut [VecDeque<T>], from: usize)
    requires lacking { AreLacking FULL from chunks.old }
    requires some { room FULL (drop (from + 1) chunks.old) < FULL }
    ensures items { all_items chunks.new ≡ all_items chunks.old }
    ensures chunks { AreChunks FULL chunks.new }
    ensures room { 0 < room FULL chunks.new }
    ensures len { length chunks.new ≡ length chunks.old }
{
    let last = chunks.len().saturating_sub(1);
    let mut at = from;
    while at < last {
        match chunks[at + 1].pop_front() {
            Some(item) => chunks[at].push_back_reserved(item),
            None => unreachable!(),
        }
        at += 1;
    }
}

/// Takes the item at this place out; a last chunk that is empty is not there.
fn remove_in<T>(chunks: &mut [VecDeque<T>], at: usize) -> T
    requires chunks { AreChunks FULL chunks.old }
    requires at { at < length (all_items chunks.old) }
    requires some { room FULL chunks.old < FULL }
    ensures value { result ≡ get_or (all_items chunks.old) at result }
    ensures items { all_items chunks.new ≡ remove (all_items chunks.old) at }
    ensures chunks { AreChunks FULL chunks.new }
    ensures room { 0 < room FULL chunks.new }
    ensures len { length chunks.new ≡ length chunks.old }
{
    let chunk = at / FULL;
    match chunks[chunk].remove(at % FULL) {
        Some(item) => {
            close_up(chunks, chunk);
            item
        }
        None => unreachable!(),
    }
}

impl<T: Drop> Sequence<T> {
    /// No items, which take no memory yet.
    pub fn new(alloc: Global) -> Sequence<T>
        ensures { result.items ≡ [] }
    {
        Sequence {
            alloc,
            chunks: Vec::new(alloc),
        }
    }

    /// These items, in their order.
    pub fn from_vec(items: Vec<T>) -> Result<Sequence<T>, AllocError>
        ensures { IfOk result (λ made. made.items ≡ items.items) }
    {
        let mut made = Sequence::new(*items.allocator());
        for item in items {
            made.push(item)?;
        }
        Ok(made)
    }

    /// Puts an item behind all others.
    pub fn push(&mut self, item: T) -> Result<(), AllocError>
        ensures ok { OnOk result (self.new.items ≡ self.old.items ++ item ∷ []) }
        ensures err { OnErr result (self.new.items ≡ self.old.items) }
    {
        self.reserve()?;
        let end = self.len();
        self.insert(end, item);
        Ok(())
    }

    /// How many items there are.
    pub fn len(&self) -> usize
        ensures { result ≡ length self.now.items }
    {
        count(self.chunks.as_slice())
    }

    /// The item at this place.
    pub fn get(&self, at: usize) -> Option<&T>
        ensures { option_copied result ≡ slice_get self.now.items at }
    {
        self.chunks.get(at / FULL)?.get(at % FULL)
    }

    /// Puts an item before the one at this place.
    pub fn insert(&mut self, at: usize, item: T)
        requires at { at ≤ length self.old.items }
        requires room { 0 < self.old.room }
        ensures { self.new.items ≡ insert self.old.items at item }
    {
        insert_in(self.chunks.as_mut_slice(), at, item);
    }

    /// Puts an item in place of the one at this place, and gives that.
    pub fn replace(&mut self, at: usize, item: T) -> T
        requires { at < length self.old.items }
        ensures value { result ≡ get_or self.old.items at result }
        ensures items { self.new.items ≡ set self.old.items at item }
        ensures room { self.new.room ≡ self.old.room }
    {
        replace_in(self.chunks.as_mut_slice(), at, item)
    }

    /// Puts an item in place of the one at this place.
    pub fn set(&mut self, at: usize, item: T)
        requires { at < length self.old.items }
        ensures { self.new.items ≡ set self.old.items at item }
    {
        drop(self.replace(at, item));
    }

    /// Takes the item at this place out, which leaves room for one.
    pub fn remove(&mut self, at: usize) -> T
        requires { at < length self.old.items }
        ensures value { result ≡ get_or self.old.items at result }
        ensures items { self.new.items ≡ remove self.old.items at }
        ensures room { 0 < self.new.room }
    {
        trim(&mut self.chunks);
        remove_in(self.chunks.as_mut_slice(), at)
    }

    /// The last item.
    pub fn last(&self) -> Option<&T>
        ensures { option_copied result ≡ slice_get self.now.items (length self.now.items - 1) }
    {
        self.get(self.len().saturating_sub(1))
    }

    /// Makes room for one item more.
    pub fn reserve(&mut self) -> Result<(), AllocError>
        ensures items { self.new.items ≡ self.old.items }
        ensures ok { OnOk result (0 < self.new.room) }
    {
        if !has_room(self.chunks.as_slice()) {
            if self.chunks.len() == MOST {
                return Err(AllocError);
            }
            let chunk = VecDeque::with_capacity(self.alloc, FULL)?;
            self.chunks.push(chunk)?;
        }
        Ok(())
    }
}

impl<T: Drop> Index<usize> for Sequence<T> {
    type Output = T;

    ghost can_index = { λ all at. at < length all.items };

    ghost index_gives = { λ all at item. item ≡ get_or all.items at item };

    fn index(&self, at: usize) -> &T
        requires { at < length self.now.items }
        ensures { result.now ≡ get_or self.now.items at result.now }
    {
        match self.get(at) {
            Some(item) => item,
            None => unreachable!(),
        }
    }
}
