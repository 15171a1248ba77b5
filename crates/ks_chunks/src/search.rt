//! Binary searches in a sequence.
ghost use Rattle.std.specs.Prelude.{◌≡◌, ◌≤◌, true, false, length, if◌then◌else◌};
ghost use Rattle.std.specs.Ordering.{is_lt, is_le};
ghost use Rattle.std.specs.declared.cmp.Ordering.TheVariants.{Less, Greater};
ghost use Rattle.std.specs.declared.cmp.Ordering.{Ordering};
ghost use Rattle.std.specs.List.Sorted.{IsBinarySearchResult, IsPartitionPoint, IsPartitionedBy, IsSearchInRange};
ghost use Rattle.ks_chunks.specs.Chunks.{AreChunks, all_items, last_side};

use crate::Sequence;
use crate::chunk::{FULL, MOST};
use crate::sequence::count;
use std::cmp::Ordering;
use std::collections::VecDeque;

/// What is looked for among items.
pub trait Seek<T> {
    ghost side: { Self → T → Ordering };

    /// Whether the item lies before what is looked for (`Less`), is it (`Equal`) or lies behind it.
    fn side(&self, item: &T) -> Ordering
        ensures { result ≡ side self.now item.now };
}

/// What lies just before what is looked for.
#[derive(Drop)]
struct Before<'a, S> {
    sought: &'a S,
}

impl<T, S: Seek<T>> Seek<T> for Before<'_, S> {
    ghost side = { λ before item. if is_lt (S.side before.sought.now item) then Less else Greater };

    fn side(&self, item: &T) -> Ordering {
        if self.sought.side(item).is_lt() {
            Ordering::Less
        } else {
            Ordering::Greater
        }
    }
}

/// What lies just behind what is looked for.
#[derive(Drop)]
struct Behind<'a, S> {
    sought: &'a S,
}

impl<T, S: Seek<T>> Seek<T> for Behind<'_, S> {
    ghost side = { λ behind item. if is_le (S.side behind.sought.now item) then Less else Greater };

    fn side(&self, item: &T) -> Ordering {
        if self.sought.side(item).is_le() {
            Ordering::Less
        } else {
            Ordering::Greater
        }
    }
}

/// How the last item of a chunk lies to what is looked for; a chunk without items lies behind it.
fn last_side<T, S: Seek<T>>(chunk: &VecDeque<T>, sought: &S) -> Ordering
    ensures { result ≡ last_side (S.side sought.now) chunk.now.items }
{
    match chunk.back() {
        Some(item) => sought.side(item),
        None => Ordering::Greater,
    }
}

/// The chunk whose last item is what is looked for, or the first one that ends behind it.
fn chunk_for<T, S: Seek<T>>(chunks: &[VecDeque<T>], sought: &S) -> Result<usize, usize>
    ensures bound { IsSearchInRange result (length chunks.now) }
    ensures position { IsBinarySearchResult (λ chunk. last_side (S.side sought.now) chunk.items) chunks.now result }
{
    chunks.binary_search_by(|chunk| last_side(chunk, sought))
}

/// The place in a chunk of an item that is what is looked for, or the one where that belongs, where items rise.
fn place_in<T, S: Seek<T>>(chunk: &VecDeque<T>, sought: &S) -> Result<usize, usize>
    ensures bound { IsSearchInRange result (length chunk.now.items) }
    ensures position { IsBinarySearchResult (S.side sought.now) chunk.now.items result }
{
    chunk.binary_search_by(|item| sought.side(item))
}

/// The place of an item that is what is looked for, or the one where that belongs, where items rise. The chunk is found by
/// what the chunks end with, and then the place in it.
fn search_in<T, S: Seek<T>>(chunks: &[VecDeque<T>], sought: &S) -> Result<usize, usize>
    requires chunks { AreChunks FULL chunks.now }
    requires most { length chunks.now ≤ MOST }
    ensures bound { IsSearchInRange result (length (all_items chunks.now)) }
    ensures position { IsBinarySearchResult (S.side sought.now) (all_items chunks.now) result }
{
    match chunk_for(chunks, sought) {
        Ok(chunk) => Ok(chunk * FULL + chunks[chunk].len() - 1),
        Err(chunk) => match chunks.get(chunk) {
            Some(items) => match place_in(items, sought) {
                Ok(at) => Ok(chunk * FULL + at),
                Err(at) => Err(chunk * FULL + at),
            },
            None => Err(count(chunks)),
        },
    }
}

impl<T: Drop> Sequence<T> {
    /// Where the items begin that do not lie before what is looked for, where none of those that do comes behind them.
    pub fn begin_of<S: Seek<T>>(&self, sought: &S) -> usize
        ensures bound { result ≤ length self.now.items }
        ensures parted { IsPartitionedBy (λ item. is_lt (S.side sought.now item)) self.now.items → IsPartitionPoint (λ item. is_lt (S.side sought.now item) ≡ true) (λ item. is_lt (S.side sought.now item) ≡ false) self.now.items result }
    {
        match self.search(&Before { sought }) {
            Ok(_) => unreachable!(),
            Err(at) => at,
        }
    }

    /// Where the items end that do not lie behind what is looked for, where all that do come behind them.
    pub fn end_of<S: Seek<T>>(&self, sought: &S) -> usize
        ensures bound { result ≤ length self.now.items }
        ensures parted { IsPartitionedBy (λ item. is_le (S.side sought.now item)) self.now.items → IsPartitionPoint (λ item. is_le (S.side sought.now item) ≡ true) (λ item. is_le (S.side sought.now item) ≡ false) self.now.items result }
    {
        match self.search(&Behind { sought }) {
            Ok(_) => unreachable!(),
            Err(at) => at,
        }
    }

    /// The place of an item that is what is looked for, or the one where that belongs, where items rise.
    pub fn search<S: Seek<T>>(&self, sought: &S) -> Result<usize, usize>
        ensures bound { IsSearchInRange result (length self.now.items) }
        ensures position { IsBinarySearchResult (S.side sought.now) self.now.items result }
    {
        search_in(self.chunks.as_slice(), sought)
    }
}
