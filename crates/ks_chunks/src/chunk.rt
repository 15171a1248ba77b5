//! A chunk of a sequence.
ghost use Rattle.std.specs.Prelude.{◌≡◌, ◌≤◌, ◌<◌, ◌++◌, []};
ghost use Rattle.std.specs.Prelude.{length, option_to_list, IsSome, ◌↔◌};
ghost use Rattle.std.specs.List.{insert};
ghost use Rattle.std.specs.VecDeque.{deque_capacity};

use std::collections::VecDeque;

/// How many items a chunk has, but for the last one.
pub(crate) const FULL: usize = 1024;

/// How many chunks there are at most, so that a count of items fits.
pub(crate) const MOST: usize = 1 << 40;

/// Puts an item in its place; the last one comes out of a chunk that is full.
pub(crate) fn put<T>(chunk: &mut VecDeque<T>, at: usize, item: T) -> Option<T>
    requires capacity { FULL ≤ deque_capacity chunk.old }
    requires full { length chunk.old.items ≤ FULL }
    requires at { at ≤ length chunk.old.items }
    requires within { at < FULL }
    ensures items { chunk.new.items ++ option_to_list result ≡ insert chunk.old.items at item }
    ensures out { IsSome result ↔ (FULL ≤ length chunk.old.items) }
    ensures most { length chunk.new.items ≤ FULL }
    ensures stays { FULL ≤ length chunk.old.items → FULL ≤ length chunk.new.items }
    ensures capacity { deque_capacity chunk.old ≤ deque_capacity chunk.new }
{
    let last = if chunk.len() < FULL {
        None
    } else {
        chunk.pop_back()
    };
    match chunk.insert(at, item) {
        Ok(()) => last,
        Err(_) => unreachable!(),
    }
}
