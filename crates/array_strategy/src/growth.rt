//! Queues that grow by many items at once, and writes to one place of a queue.

ghost use Rattle.std.specs.Prelude.{◌≡◌, ◌<◌, ◌≤◌, ◌+◌, ◌-◌, ◌^◌, ◌++◌, ◌∷◌, [], length, map, take, replicate, slice_set, IfOk, OnOk, OnErr, true, false};
ghost use Rattle.std.specs.VecDeque.{deque_len, deque_capacity};
ghost use Rattle.array_strategy.specs.Elements.{HasItem, IsSetAt, all_integers};

use crate::place::place_at;
use std::alloc::{AllocError, Global};
use std::collections::VecDeque;
use typed_location::Item;

/// Puts an item in place of the one at an index, where a negative one counts from the end. Where there is none, nothing is done.
#[inline(always)]
pub(crate) fn set_at<T: Drop>(items: &mut VecDeque<T>, index: i64, item: T) -> bool
    ensures done { result ≡ true → IsSetAt items.old.items index item items.new.items }
    ensures there { HasItem items.old.items index → result ≡ true }
    ensures kept { result ≡ false → items.new.items ≡ items.old.items }
{
    match place_at(index, items.len()) {
        Some(place) => set_within(items, place, item),
        None => false,
    }
}

// Puts an item in place of another, where there is one.
#[inline(always)]
fn set_within<T: Drop>(items: &mut VecDeque<T>, place: usize, item: T) -> bool
    ensures within { result ≡ true → place < length items.old.items }
    ensures there { place < length items.old.items → result ≡ true }
    ensures done { result ≡ true → items.new.items ≡ slice_set items.old.items place item }
    ensures kept { result ≡ false → items.new.items ≡ items.old.items }
{
    if place < items.len() {
        items[place] = item;
        return true;
    }
    false
}

/// Adds `count` copies of `fill`, of which the last is `fill` itself, and then an item.
pub(crate) fn push_filled<V: Item>(
    items: &mut VecDeque<V>,
    count: usize,
    fill: V,
    item: V,
) -> Result<(), AllocError>
    requires some { 0 < count }
    requires few { count < 2 ^ 32 }
    ensures done { OnOk result (items.new.items ≡ items.old.items ++ replicate count fill ++ item ∷ []) }
    ensures kept { OnErr result (items.new.items ≡ items.old.items) }
{
    let len = items.len();
    items.reserve(count + 1)?;
    if let Err(refused) = push_copies(items, count - 1, &fill) {
        items.truncate(len);
        return Err(refused);
    }
    items.push_back_reserved(fill);
    items.push_back_reserved(item);
    Ok(())
}

// Adds copies where there is room for two more; a refused copy leaves some behind the old items.
fn push_copies<V: Item>(items: &mut VecDeque<V>, count: usize, fill: &V) -> Result<(), AllocError>
    requires { deque_len items.old + count + 2 ≤ deque_capacity items.old }
    ensures done { OnOk result (items.new.items ≡ items.old.items ++ replicate count fill.now) }
    ensures room { OnOk result (deque_len items.new + 2 ≤ deque_capacity items.new) }
    ensures behind { take (deque_len items.old) items.new.items ≡ items.old.items }
{
    'copies: for _ in 0..count {
        items.push_back_reserved(fill.copy()?);
    }
    Ok(())
}

/// The items that raw integers stand for, with room for more.
pub(crate) fn widened<V: Item>(
    alloc: Global,
    ints: &VecDeque<i64>,
    room: usize,
) -> Result<VecDeque<V>, AllocError>
    requires { deque_len ints.now + room < 2 ^ 64 }
    ensures items { IfOk result (λ anys. anys.items ≡ map V.int ints.now.items) }
    ensures room { IfOk result (λ anys. deque_len ints.now + room ≤ deque_capacity anys) }
{
    let mut anys = VecDeque::with_capacity(alloc, ints.len() + room)?;
    'ints: for n in ints {
        anys.push_back_reserved(V::of_int(*n));
    }
    Ok(anys)
}

/// Whether all items stand for integers.
pub(crate) fn are_integers<V: Item>(items: &[V]) -> bool
    ensures { result ≡ all_integers V.integer items.now }
{
    'items: for item in items {
        if item.as_int().is_none() {
            return false;
        }
    }
    true
}

/// The integers that items stand for. Where one stands for none, that is told as want of memory.
pub(crate) fn narrowed<V: Item>(alloc: Global, items: &[V]) -> Result<VecDeque<i64>, AllocError>
    ensures { IfOk result (λ ints. map V.int ints.items ≡ items.now) }
{
    let mut ints = VecDeque::with_capacity(alloc, items.len())?;
    'items: for item in items {
        let Some(n) = item.as_int() else {
            return Err(AllocError);
        };
        ints.push_back(n)?;
    }
    Ok(ints)
}

/// The items that raw integers stand for.
pub(crate) fn told<V: Item>(alloc: Global, ints: &VecDeque<i64>) -> Result<Vec<V>, AllocError>
    ensures { IfOk result (λ items. items.items ≡ map V.int ints.now.items) }
{
    let mut items = Vec::with_capacity(alloc, ints.len())?;
    'ints: for n in ints {
        items.push(V::of_int(*n))?;
    }
    Ok(items)
}

/// A copy of each item.
pub(crate) fn copies<V: Item>(alloc: Global, anys: &VecDeque<V>) -> Result<Vec<V>, AllocError>
    ensures { IfOk result (λ items. items.items ≡ anys.now.items) }
{
    let mut items = Vec::with_capacity(alloc, anys.len())?;
    'anys: for item in anys {
        items.push(item.copy()?)?;
    }
    Ok(items)
}
