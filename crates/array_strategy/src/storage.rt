//! The storage of an array: nothing, raw integers, flags or any items.

ghost use Rattle.std.specs.Prelude.{◌≡◌, ◌≢◌, ◌<◌, ◌≤◌, ◌+◌, ◌-◌, ◌^◌, ◌++◌, ◌∷◌, [], length, map, take, drop, replicate, slice_get, All, IsSome, IsSomeAnd, IfSome, IfOk, OnOk, OnErr, None, true, false};
ghost use Rattle.std.specs.List.{remove};

use crate::flags::{are_flags, narrowed_flags, push_flags, told_flags, widened_flags};
use crate::growth::{are_integers, copies, narrowed, push_filled, set_at, told, widened};
use std::alloc::{AllocError, Global};
use std::collections::VecDeque;
use typed_location::{Flag, Item};

/// How an array holds its items.
#[derive(Clone, Copy, PartialEq, Eq, Debug)]
pub enum Strategy {
    /// It holds none.
    Empty,
    /// It holds raw integers.
    Ints,
    /// It holds any items: a byte each while nothing but flags has come, and else the items themselves.
    Anys,
}

/// The storage of an array.
#[derive(Drop)]
pub enum Store<V> {
    Empty,
    Ints(VecDeque<i64>),
    Flags(VecDeque<Flag>),
    Anys(VecDeque<V>),
}

/// What stands at a place, seen where it stands.
#[derive(Drop)]
pub enum Peeked<'a, V> {
    /// No item.
    Nothing,
    /// The item of a raw integer.
    Int(i64),
    /// The item of a flag.
    Flag(Flag),
    /// An item that is held itself.
    Item(&'a V),
}

impl<V: Item> Store<V> {
    ghost use Rattle.array_strategy.specs.Storage.{stored, seen, replaced, filled};
    ghost use Rattle.array_strategy.specs.Elements.{HasItem, IsFlags, IsIntegerBy, IsRaw, IsSetAt, Widens, empty, of_items, pushed, unshifted};

    /// The storage of these items.
    pub(crate) fn of_vec(alloc: Global, items: Vec<V>) -> Result<Store<V>, AllocError>
        ensures { IfOk result (λ store. stored V.int V.flag store ≡ of_items V.integer items.items) }
    {
        if items.is_empty() {
            return Ok(Store::Empty);
        }
        if are_integers(items.as_slice()) {
            return Ok(Store::Ints(narrowed(alloc, items.as_slice())?));
        }
        if are_flags(items.as_slice()) {
            return Ok(Store::Flags(narrowed_flags(alloc, items.as_slice())?));
        }
        Ok(Store::Anys(VecDeque::from_vec(items)))
    }

    /// The storage of `count` copies of an item, of which the last is the item itself.
    #[tactic(auto, using(crate::proofs::Repeats::repeats))]
    pub(crate) fn of_repeated(alloc: Global, count: usize, item: V) -> Result<Store<V>, AllocError>
        requires { count < 2 ^ 32 }
        ensures { IfOk result (λ store. stored V.int V.flag store ≡ of_items V.integer (replicate count item)) }
    {
        if count == 0 {
            return Ok(Store::Empty);
        }
        if count == 1 {
            return Store::of_one(alloc, item);
        }
        let fill = item.copy()?;
        Store::of_filled(alloc, count - 1, fill, item)
    }

    /// A copy of each item.
    pub(crate) fn to_vec(&self, alloc: Global) -> Result<Vec<V>, AllocError>
        ensures { IfOk result (λ items. items.items ≡ (stored V.int V.flag self.now).items) }
    {
        match self {
            Store::Empty => Ok(Vec::new(alloc)),
            Store::Ints(ints) => told(alloc, ints),
            Store::Flags(flags) => told_flags(alloc, flags),
            Store::Anys(anys) => copies(alloc, anys),
        }
    }

    /// How many items it holds.
    #[inline(always)]
    pub(crate) fn len(&self) -> usize
        ensures { result ≡ length (stored V.int V.flag self.now).items }
    {
        match self {
            Store::Empty => 0,
            Store::Ints(ints) => ints.len(),
            Store::Flags(flags) => flags.len(),
            Store::Anys(anys) => anys.len(),
        }
    }

    /// How it holds them.
    pub(crate) fn strategy(&self) -> Strategy
        ensures exact { result ≡ (stored V.int V.flag self.now).strategy }
        ensures none { result ≡ Strategy.Empty → (stored V.int V.flag self.now).items ≡ [] }
        ensures raw { result ≡ Strategy.Ints → All (IsIntegerBy V.int) (stored V.int V.flag self.now).items }
    {
        match self {
            Store::Empty => Strategy::Empty,
            Store::Ints(_) => Strategy::Ints,
            Store::Flags(_) => Strategy::Anys,
            Store::Anys(_) => Strategy::Anys,
        }
    }

    /// A copy of the item at a place; one that is held as a raw integer or a flag needs no memory.
    #[inline(always)]
    pub(crate) fn get(&self, place: usize) -> Result<Option<V>, AllocError>
        ensures found { IfOk result (λ found. found ≡ slice_get (stored V.int V.flag self.now).items place) }
        ensures raw { (stored V.int V.flag self.now).strategy ≡ Strategy.Ints → IfOk result (λ found. IfSome found (λ item. IsSome (V.integer item))) }
        ensures refused { OnErr result ((stored V.int V.flag self.now).strategy ≡ Strategy.Anys) }
        ensures at_item { OnErr result (place < length (stored V.int V.flag self.now).items) }
        ensures counted { OnErr result (IsSomeAnd (slice_get (stored V.int V.flag self.now).items place) (λ item. V.counted item ≡ true)) }
    {
        match self {
            Store::Empty => Ok(None),
            Store::Ints(ints) => match ints.get(place) {
                Some(n) => Ok(Some(V::of_int(*n))),
                None => Ok(None),
            },
            Store::Flags(flags) => match flags.get(place) {
                Some(flag) => Ok(Some(V::of_flag(*flag))),
                None => Ok(None),
            },
            Store::Anys(anys) => match anys.get(place) {
                Some(item) => Ok(Some(item.copy()?)),
                None => Ok(None),
            },
        }
    }

    /// The item at a place, where it stands.
    #[inline(always)]
    pub(crate) fn peek(&self, place: usize) -> Peeked<'_, V>
        ensures { seen V.int V.flag result ≡ slice_get (stored V.int V.flag self.now).items place }
    {
        match self {
            Store::Empty => Peeked::Nothing,
            Store::Ints(ints) => match ints.get(place) {
                Some(n) => Peeked::Int(*n),
                None => Peeked::Nothing,
            },
            Store::Flags(flags) => match flags.get(place) {
                Some(flag) => Peeked::Flag(*flag),
                None => Peeked::Nothing,
            },
            Store::Anys(anys) => match anys.get(place) {
                Some(item) => Peeked::Item(item),
                None => Peeked::Nothing,
            },
        }
    }

    /// Takes the last item out.
    pub(crate) fn pop(&mut self) -> Option<V>
        ensures taken { result ≡ slice_get (stored V.int V.flag self.old).items (length (stored V.int V.flag self.old).items - 1) }
        ensures rest { (stored V.int V.flag self.new).items ≡ take (length (stored V.int V.flag self.old).items - 1) (stored V.int V.flag self.old).items }
        ensures strategy { (stored V.int V.flag self.new).strategy ≡ (stored V.int V.flag self.old).strategy }
    {
        match self {
            Store::Empty => None,
            Store::Ints(ints) => match ints.pop_back() {
                Some(n) => Some(V::of_int(n)),
                None => None,
            },
            Store::Flags(flags) => match flags.pop_back() {
                Some(flag) => Some(V::of_flag(flag)),
                None => None,
            },
            Store::Anys(anys) => anys.pop_back(),
        }
    }

    /// Takes the first item out.
    pub(crate) fn shift(&mut self) -> Option<V>
        ensures taken { result ≡ slice_get (stored V.int V.flag self.old).items 0 }
        ensures rest { (stored V.int V.flag self.new).items ≡ drop 1 (stored V.int V.flag self.old).items }
        ensures strategy { (stored V.int V.flag self.new).strategy ≡ (stored V.int V.flag self.old).strategy }
    {
        match self {
            Store::Empty => None,
            Store::Ints(ints) => match ints.pop_front() {
                Some(n) => Some(V::of_int(n)),
                None => None,
            },
            Store::Flags(flags) => match flags.pop_front() {
                Some(flag) => Some(V::of_flag(flag)),
                None => None,
            },
            Store::Anys(anys) => anys.pop_front(),
        }
    }

    /// Takes the item at a place out.
    #[tactic(auto, using(crate::proofs::Places::places))]
    pub(crate) fn remove(&mut self, place: usize) -> Option<V>
        ensures taken { result ≡ slice_get (stored V.int V.flag self.old).items place }
        ensures rest { (stored V.int V.flag self.new).items ≡ remove (stored V.int V.flag self.old).items place }
        ensures strategy { (stored V.int V.flag self.new).strategy ≡ (stored V.int V.flag self.old).strategy }
    {
        match self {
            Store::Empty => None,
            Store::Ints(ints) => match ints.remove(place) {
                Some(n) => Some(V::of_int(n)),
                None => None,
            },
            Store::Flags(flags) => match flags.remove(place) {
                Some(flag) => Some(V::of_flag(flag)),
                None => None,
            },
            Store::Anys(anys) => anys.remove(place),
        }
    }

    #[tactic(auto, using(crate::proofs::Places::places))]
    /// Puts an item in place of another; only one of another kind among raw integers or flags needs memory.
    #[inline(always)]
    pub(crate) fn replace(&mut self, alloc: Global, place: usize, item: V) -> Result<(), AllocError>
        requires within { place < length (stored V.int V.flag self.old).items }
        requires few { length (stored V.int V.flag self.old).items < 2 ^ 32 }
        ensures done { OnOk result (stored V.int V.flag self.new ≡ replaced V.integer (stored V.int V.flag self.old) place item) }
        ensures kept { OnErr result (stored V.int V.flag self.new ≡ stored V.int V.flag self.old) }
        ensures refused { OnErr result (Widens V.int V.integer V.flag V.flag_of (stored V.int V.flag self.old) item) }
    {
        match self {
            Store::Empty => unreachable!(),
            Store::Ints(ints) => match item.as_int() {
                Some(n) => {
                    ints[place] = n;
                    Ok(())
                }
                None => {
                    let mut anys = widened(alloc, ints, 0)?;
                    anys[place] = item;
                    *self = Store::Anys(anys);
                    Ok(())
                }
            },
            Store::Flags(flags) => match item.as_flag() {
                Some(flag) => {
                    flags[place] = flag;
                    Ok(())
                }
                None => {
                    let mut anys = widened_flags(alloc, flags, 0)?;
                    anys[place] = item;
                    *self = Store::Anys(anys);
                    Ok(())
                }
            },
            Store::Anys(anys) => {
                anys[place] = item;
                Ok(())
            }
        }
    }

    /// Puts the item of an integer in place of the one at an index, where integers are held raw, or the items themselves. Else nothing is
    /// done.
    #[inline(always)]
    pub(crate) fn put_int(&mut self, index: i64, n: i64) -> bool
        ensures done { result ≡ true → IsSetAt (stored V.int V.flag self.old).items index (V.int n) (stored V.int V.flag self.new).items }
        ensures refused { result ≡ false → HasItem (stored V.int V.flag self.old).items index → IsFlags V.flag (stored V.int V.flag self.old) }
        ensures strategy { (stored V.int V.flag self.new).strategy ≡ (stored V.int V.flag self.old).strategy }
        ensures kept { result ≡ false → stored V.int V.flag self.new ≡ stored V.int V.flag self.old }
    {
        match self {
            Store::Empty => false,
            Store::Ints(ints) => set_at(ints, index, n),
            Store::Flags(_) => false,
            Store::Anys(anys) => set_at(anys, index, V::of_int(n)),
        }
    }

    /// Puts the item of a flag in place of the one at an index, where flags are held in a byte each, or the items themselves. Else nothing
    /// is done.
    #[inline(always)]
    pub(crate) fn put_flag(&mut self, index: i64, flag: Flag) -> bool
        ensures done { result ≡ true → IsSetAt (stored V.int V.flag self.old).items index (V.flag flag) (stored V.int V.flag self.new).items }
        ensures refused { result ≡ false → HasItem (stored V.int V.flag self.old).items index → IsRaw V.int (stored V.int V.flag self.old) }
        ensures never { result ≡ true → (stored V.int V.flag self.old).strategy ≡ Strategy.Anys }
        ensures strategy { (stored V.int V.flag self.new).strategy ≡ (stored V.int V.flag self.old).strategy }
        ensures kept { result ≡ false → stored V.int V.flag self.new ≡ stored V.int V.flag self.old }
    {
        match self {
            Store::Empty => false,
            Store::Ints(_) => false,
            Store::Flags(flags) => set_at(flags, index, flag),
            Store::Anys(anys) => set_at(anys, index, V::of_flag(flag)),
        }
    }

    /// Puts the item of an integer behind the last, unless each is a flag in a byte.
    #[inline(always)]
    pub(crate) fn push_int(&mut self, alloc: Global, n: i64) -> Result<bool, AllocError>
        ensures done { IfOk result (λ done. done ≡ true → stored V.int V.flag self.new ≡ pushed V.integer (stored V.int V.flag self.old) (V.int n)) }
        ensures refused { IfOk result (λ done. done ≡ false → IsFlags V.flag (stored V.int V.flag self.old)) }
        ensures kept { IfOk result (λ done. done ≡ false → stored V.int V.flag self.new ≡ stored V.int V.flag self.old) }
        ensures err { OnErr result (stored V.int V.flag self.new ≡ stored V.int V.flag self.old) }
    {
        match self {
            Store::Empty => {
                *self = Store::of_one(alloc, V::of_int(n))?;
                Ok(true)
            }
            Store::Ints(ints) => {
                ints.push_back(n)?;
                Ok(true)
            }
            Store::Flags(_) => Ok(false),
            Store::Anys(anys) => {
                anys.push_back(V::of_int(n))?;
                Ok(true)
            }
        }
    }

    /// Puts the item of a flag behind the last, unless integers are held raw.
    #[inline(always)]
    pub(crate) fn push_flag(&mut self, alloc: Global, flag: Flag) -> Result<bool, AllocError>
        ensures done { IfOk result (λ done. done ≡ true → stored V.int V.flag self.new ≡ pushed V.integer (stored V.int V.flag self.old) (V.flag flag)) }
        ensures refused { IfOk result (λ done. done ≡ false → IsRaw V.int (stored V.int V.flag self.old)) }
        ensures never { IfOk result (λ done. done ≡ true → (stored V.int V.flag self.old).strategy ≢ Strategy.Ints) }
        ensures kept { IfOk result (λ done. done ≡ false → stored V.int V.flag self.new ≡ stored V.int V.flag self.old) }
        ensures err { OnErr result (stored V.int V.flag self.new ≡ stored V.int V.flag self.old) }
    {
        match self {
            Store::Empty => {
                *self = Store::of_one(alloc, V::of_flag(flag))?;
                Ok(true)
            }
            Store::Ints(_) => Ok(false),
            Store::Flags(flags) => {
                flags.push_back(flag)?;
                Ok(true)
            }
            Store::Anys(anys) => {
                anys.push_back(V::of_flag(flag))?;
                Ok(true)
            }
        }
    }

    /// Puts an item behind the last.
    pub(crate) fn push(&mut self, alloc: Global, item: V) -> Result<(), AllocError>
        requires { length (stored V.int V.flag self.old).items < 2 ^ 32 }
        ensures done { OnOk result (stored V.int V.flag self.new ≡ pushed V.integer (stored V.int V.flag self.old) item) }
        ensures kept { OnErr result (stored V.int V.flag self.new ≡ stored V.int V.flag self.old) }
    {
        match self {
            Store::Empty => {
                *self = Store::of_one(alloc, item)?;
                Ok(())
            }
            Store::Ints(ints) => match item.as_int() {
                Some(n) => {
                    ints.push_back(n)?;
                    Ok(())
                }
                None => {
                    let mut anys = widened(alloc, ints, 1)?;
                    anys.push_back_reserved(item);
                    *self = Store::Anys(anys);
                    Ok(())
                }
            },
            Store::Flags(flags) => match item.as_flag() {
                Some(flag) => {
                    flags.push_back(flag)?;
                    Ok(())
                }
                None => {
                    let mut anys = widened_flags(alloc, flags, 1)?;
                    anys.push_back_reserved(item);
                    *self = Store::Anys(anys);
                    Ok(())
                }
            },
            Store::Anys(anys) => {
                anys.push_back(item)?;
                Ok(())
            }
        }
    }

    /// Puts an item before the first.
    pub(crate) fn unshift(&mut self, alloc: Global, item: V) -> Result<(), AllocError>
        requires { length (stored V.int V.flag self.old).items < 2 ^ 32 }
        ensures done { OnOk result (stored V.int V.flag self.new ≡ unshifted V.integer (stored V.int V.flag self.old) item) }
        ensures kept { OnErr result (stored V.int V.flag self.new ≡ stored V.int V.flag self.old) }
    {
        match self {
            Store::Empty => {
                *self = Store::of_one(alloc, item)?;
                Ok(())
            }
            Store::Ints(ints) => match item.as_int() {
                Some(n) => {
                    ints.push_front(n)?;
                    Ok(())
                }
                None => {
                    let mut anys = widened(alloc, ints, 1)?;
                    anys.push_front_reserved(item);
                    *self = Store::Anys(anys);
                    Ok(())
                }
            },
            Store::Flags(flags) => match item.as_flag() {
                Some(flag) => {
                    flags.push_front(flag)?;
                    Ok(())
                }
                None => {
                    let mut anys = widened_flags(alloc, flags, 1)?;
                    anys.push_front_reserved(item);
                    *self = Store::Anys(anys);
                    Ok(())
                }
            },
            Store::Anys(anys) => {
                anys.push_front(item)?;
                Ok(())
            }
        }
    }

    #[tactic(auto, using(crate::proofs::Places::places))]
    /// Puts `count` copies of `fill` and then an item behind the last.
    pub(crate) fn push_filled(
        &mut self,
        alloc: Global,
        count: usize,
        fill: V,
        item: V,
    ) -> Result<(), AllocError>
        requires some { 0 < count }
        requires small { count < 2 ^ 32 }
        requires few { length (stored V.int V.flag self.old).items < 2 ^ 32 }
        ensures done { OnOk result (stored V.int V.flag self.new ≡ filled V.integer (stored V.int V.flag self.old) count fill item) }
        ensures kept { OnErr result (stored V.int V.flag self.new ≡ stored V.int V.flag self.old) }
    {
        match self {
            Store::Empty => {
                *self = Store::of_filled(alloc, count, fill, item)?;
                Ok(())
            }
            Store::Ints(ints) => match (fill.as_int(), item.as_int()) {
                (Some(filler), Some(n)) => push_filled(ints, count, filler, n),
                _ => {
                    let mut anys = widened(alloc, ints, count + 1)?;
                    push_filled(&mut anys, count, fill, item)?;
                    *self = Store::Anys(anys);
                    Ok(())
                }
            },
            Store::Flags(flags) => match (fill.as_flag(), item.as_flag()) {
                (Some(filler), Some(flag)) => push_flags(flags, count, filler, flag),
                _ => {
                    let mut anys = widened_flags(alloc, flags, count + 1)?;
                    push_filled(&mut anys, count, fill, item)?;
                    *self = Store::Anys(anys);
                    Ok(())
                }
            },
            Store::Anys(anys) => push_filled(anys, count, fill, item),
        }
    }

    // The storage of one item.
    fn of_one(alloc: Global, item: V) -> Result<Store<V>, AllocError>
        ensures { IfOk result (λ store. stored V.int V.flag store ≡ pushed V.integer empty item) }
    {
        match item.as_int() {
            Some(n) => {
                let mut ints = VecDeque::new(alloc);
                ints.push_back(n)?;
                Ok(Store::Ints(ints))
            }
            None => Store::of_one_other(alloc, item),
        }
    }

    // The storage of one item that is no integer.
    fn of_one_other(alloc: Global, item: V) -> Result<Store<V>, AllocError>
        requires { V.integer item ≡ None }
        ensures { IfOk result (λ store. stored V.int V.flag store ≡ pushed V.integer empty item) }
    {
        match item.as_flag() {
            Some(flag) => {
                let mut flags = VecDeque::new(alloc);
                flags.push_back(flag)?;
                Ok(Store::Flags(flags))
            }
            None => {
                let mut anys = VecDeque::new(alloc);
                anys.push_back(item)?;
                Ok(Store::Anys(anys))
            }
        }
    }

    #[tactic(auto, using(crate::proofs::Places::places))]
    // The storage of `count` copies of `fill` and then an item.
    fn of_filled(alloc: Global, count: usize, fill: V, item: V) -> Result<Store<V>, AllocError>
        requires some { 0 < count }
        requires small { count < 2 ^ 32 }
        ensures { IfOk result (λ store. stored V.int V.flag store ≡ filled V.integer empty count fill item) }
    {
        match (fill.as_int(), item.as_int()) {
            (Some(filler), Some(n)) => {
                let mut ints = VecDeque::new(alloc);
                push_filled(&mut ints, count, filler, n)?;
                Ok(Store::Ints(ints))
            }
            _ => Store::of_others(alloc, count, fill, item),
        }
    }

    #[tactic(auto, using(crate::proofs::Places::places))]
    // The storage of `count` copies of `fill` and then an item, of which one is no integer.
    fn of_others(alloc: Global, count: usize, fill: V, item: V) -> Result<Store<V>, AllocError>
        requires some { 0 < count }
        requires small { count < 2 ^ 32 }
        ensures items { IfOk result (λ store. (stored V.int V.flag store).items ≡ replicate count fill ++ item ∷ []) }
        ensures strategy { IfOk result (λ store. (stored V.int V.flag store).strategy ≡ Strategy.Anys) }
    {
        match (fill.as_flag(), item.as_flag()) {
            (Some(filler), Some(flag)) => {
                let mut flags = VecDeque::new(alloc);
                push_flags(&mut flags, count, filler, flag)?;
                Ok(Store::Flags(flags))
            }
            _ => {
                let mut anys = VecDeque::new(alloc);
                push_filled(&mut anys, count, fill, item)?;
                Ok(Store::Anys(anys))
            }
        }
    }
}
