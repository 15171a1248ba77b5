//! Values that are made of others: options, pairs and lists.
ghost use Rattle.std.specs.Prelude.{◌≡◌, ◌++◌, OnOk, IfOk};
ghost use Rattle.ks_spelling.specs.Leaves.{number32};
ghost use Rattle.ks_spelling.specs.Wholes.{both, listed, read_times, spell_all, AllFit};
ghost use Rattle.ks_spelling.specs.Variants.{optional};
ghost use Rattle.ks_spelling.specs.declared.unread.Unread.TheVariants.{NoSpelling};

use crate::{Cursor, Spelled, Unread, write_at, write_place};
use ks_base::{ListOf, Memory};
use std::alloc::Global;

impl<T: Spelled> Spelled for Option<T> {
    ghost code = { optional T.code };

    fn write_to(&self, into: &mut Vec<u8>) -> Result<(), Memory> {
        match self {
            None => write_place(0, into),
            Some(held) => write_at(1, held, into),
        }
    }

    fn read_from(alloc: Global, from: &mut Cursor<'_>) -> Result<Option<T>, Unread> {
        match u8::read_from(alloc, from)? {
            0 => Ok(None),
            1 => Ok(Some(T::read_from(alloc, from)?)),
            _ => Err(Unread::NoSpelling),
        }
    }
}

impl<A: Spelled, B: Spelled> Spelled for (A, B) {
    ghost code = { both A.code B.code };

    fn write_to(&self, into: &mut Vec<u8>) -> Result<(), Memory> {
        self.0.write_to(into)?;
        self.1.write_to(into)
    }

    fn read_from(alloc: Global, from: &mut Cursor<'_>) -> Result<(A, B), Unread> {
        let first = A::read_from(alloc, from)?;
        let second = B::read_from(alloc, from)?;
        Ok((first, second))
    }
}

fn write_items<T: Spelled>(items: &[T], into: &mut Vec<u8>) -> Result<(), Memory>
    ensures fits { OnOk result (AllFit T.code items.now) }
    ensures spelled { OnOk result (into.new.items ≡ into.old.items ++ spell_all T.code items.now) }
{
    for item in items {
        item.write_to(into)?;
    }
    Ok(())
}

fn read_items<T: Spelled>(
    alloc: Global,
    count: u32,
    from: &mut Cursor<'_>,
) -> Result<Vec<T>, Unread>
    ensures ok { IfOk result (λ items. read_times T.code count from.old ≡ Some (items.items, from.new)) }
    ensures none { result ≡ Err NoSpelling → read_times T.code count from.old ≡ None }
{
    let mut items = Vec::new(alloc);
    for _ in 0..count {
        let item = T::read_from(alloc, from)?;
        items.push(item)?;
    }
    Ok(items)
}

impl<T: Spelled> Spelled for ListOf<T> {
    ghost code = { listed number32 T.code };

    fn write_to(&self, into: &mut Vec<u8>) -> Result<(), Memory> {
        let items = self.as_slice();
        let Ok(count) = u32::try_from(items.len()) else {
            return Err(Memory);
        };
        count.write_to(into)?;
        write_items(items, into)
    }

    fn read_from(alloc: Global, from: &mut Cursor<'_>) -> Result<ListOf<T>, Unread> {
        let count = u32::read_from(alloc, from)?;
        Ok(ListOf::from_vec(read_items(alloc, count, from)?))
    }
}
