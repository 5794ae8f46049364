//! Queues of flags, and the items that they stand for.

ghost use Rattle.std.specs.Prelude.{◌≡◌, ◌<◌, ◌≤◌, ◌+◌, ◌^◌, ◌++◌, ◌∷◌, [], map, replicate, IfOk, OnOk, OnErr};
ghost use Rattle.std.specs.VecDeque.{deque_len, deque_capacity};
ghost use Rattle.array_strategy.specs.Elements.{all_flags};

use std::alloc::{AllocError, Global};
use std::collections::VecDeque;
use typed_location::{Flag, Item};

/// Adds `count` times `fill`, and then a flag.
pub(crate) fn push_flags(
    flags: &mut VecDeque<Flag>,
    count: usize,
    fill: Flag,
    flag: Flag,
) -> Result<(), AllocError>
    requires few { count < 2 ^ 32 }
    ensures done { OnOk result (flags.new.items ≡ flags.old.items ++ replicate count fill ++ flag ∷ []) }
    ensures kept { OnErr result (flags.new.items ≡ flags.old.items) }
{
    flags.reserve(count + 1)?;
    push_fills(flags, count, fill);
    flags.push_back_reserved(flag);
    Ok(())
}

// Adds a flag so many times where there is room for one more.
fn push_fills(flags: &mut VecDeque<Flag>, count: usize, fill: Flag)
    requires { deque_len flags.old + count + 1 ≤ deque_capacity flags.old }
    ensures done { flags.new.items ≡ flags.old.items ++ replicate count fill }
    ensures room { deque_len flags.new + 1 ≤ deque_capacity flags.new }
{
    'fills: for _ in 0..count {
        flags.push_back_reserved(fill);
    }
}

/// The items that flags stand for, with room for more.
pub(crate) fn widened_flags<V: Item>(
    alloc: Global,
    flags: &VecDeque<Flag>,
    room: usize,
) -> Result<VecDeque<V>, AllocError>
    requires { deque_len flags.now + room < 2 ^ 64 }
    ensures items { IfOk result (λ anys. anys.items ≡ map V.flag flags.now.items) }
    ensures room { IfOk result (λ anys. deque_len flags.now + room ≤ deque_capacity anys) }
{
    let mut anys = VecDeque::with_capacity(alloc, flags.len() + room)?;
    'flags: for flag in flags {
        anys.push_back_reserved(V::of_flag(*flag));
    }
    Ok(anys)
}

/// Whether all items stand for flags.
pub(crate) fn are_flags<V: Item>(items: &[V]) -> bool
    ensures { result ≡ all_flags V.flag_of items.now }
{
    'items: for item in items {
        if item.as_flag().is_none() {
            return false;
        }
    }
    true
}

/// The flags that items stand for. Where one stands for none, that is told as want of memory.
pub(crate) fn narrowed_flags<V: Item>(
    alloc: Global,
    items: &[V],
) -> Result<VecDeque<Flag>, AllocError>
    ensures { IfOk result (λ flags. map V.flag flags.items ≡ items.now) }
{
    let mut flags = VecDeque::with_capacity(alloc, items.len())?;
    'items: for item in items {
        let Some(flag) = item.as_flag() else {
            return Err(AllocError);
        };
        flags.push_back(flag)?;
    }
    Ok(flags)
}

/// The items that flags stand for.
pub(crate) fn told_flags<V: Item>(
    alloc: Global,
    flags: &VecDeque<Flag>,
) -> Result<Vec<V>, AllocError>
    ensures { IfOk result (λ items. items.items ≡ map V.flag flags.now.items) }
{
    let mut items = Vec::with_capacity(alloc, flags.len())?;
    'flags: for flag in flags {
        items.push(V::of_flag(*flag))?;
    }
    Ok(items)
}
