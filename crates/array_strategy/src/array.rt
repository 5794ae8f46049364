//! The array.

ghost use Rattle.std.specs.Prelude.{◌≡◌, ◌≢◌, ◌<◌, ◌≤◌, ◌+◌, ◌-◌, ◌++◌, ◌∷◌, [], length, take, drop, replicate, slice_get, IsTrue, All, ◌↔◌, None, Some, IsSome, IsSomeAnd, IfSome, IfOk, OnOk, OnErr, true, false};
ghost use Rattle.array_strategy.specs.Elements.{HasItem, IsFlags, IsIntegerBy, IsRaw, IsSetAt, item_at, without_item, place_of, empty, of_items, pushed, unshifted, put_at, MayNeedMemory};
ghost use Rattle.array_strategy.specs.Storage.{seen};

use crate::fault::PutFault;
use crate::place::place_at;
use crate::storage::{Peeked, Store, Strategy};
use std::alloc::{AllocError, Global};
use std::marker::Model;
use typed_location::{Flag, Item};

/// The greatest length of an array.
pub const MAX_LEN: usize = 16_777_216;

/// A list of items, which holds them as raw integers for as long as they all stand for integers, and in a byte each for as long as they
/// all stand for flags.
#[derive(Drop)]
pub struct LocalArray<V: Item> {
    store: Store<V>,
    alloc: Global,
}

impl<V: Item> Model for LocalArray<V> {
    ghost use Rattle.std.specs.Prelude.{◌≤◌, length};
    ghost use Rattle.array_strategy.specs.declared.array.TheConstants.{MAX_LEN};
    ghost use Rattle.array_strategy.specs.Elements.{Elements};

    ghost Value = { Elements V };

    ghost use Rattle.array_strategy.specs.Storage.{stored};

    ghost view = { λ a. stored V.int V.flag a.store };

    ghost invariant = { λ a. length (stored V.int V.flag a.store).items ≤ MAX_LEN };
}

impl<V: Item> LocalArray<V> {
    /// The empty array. It takes no memory.
    pub fn new(alloc: Global) -> Self
        ensures { result ≡ empty }
    {
        LocalArray {
            store: Store::Empty,
            alloc,
        }
    }

    /// The array of these items. It holds them as raw integers where all stand for integers, and in a byte each where all stand for flags.
    pub fn from_vec(alloc: Global, items: Vec<V>) -> Result<Self, PutFault>
        ensures done { IfOk result (λ array. array ≡ of_items V.integer items.items) }
        ensures too_long { (result ≡ Err PutFault.TooLong) ↔ (MAX_LEN < length items.items) }
        ensures cause { result ≢ Err PutFault.TooSmall }
    {
        if items.len() > MAX_LEN {
            return Err(PutFault::TooLong);
        }
        Ok(LocalArray {
            store: Store::of_vec(alloc, items)?,
            alloc,
        })
    }

    /// The array of `count` copies of an item. It holds them as raw integers or in a byte each from the first on, where the item stands for
    /// an integer or a flag.
    pub fn filled(alloc: Global, count: usize, item: V) -> Result<Self, PutFault>
        ensures done { IfOk result (λ array. array ≡ of_items V.integer (replicate count item)) }
        ensures too_long { (result ≡ Err PutFault.TooLong) ↔ (MAX_LEN < count) }
        ensures cause { result ≢ Err PutFault.TooSmall }
    {
        if count > MAX_LEN {
            return Err(PutFault::TooLong);
        }
        Ok(LocalArray {
            store: Store::of_repeated(alloc, count, item)?,
            alloc,
        })
    }

    /// A copy of each item.
    pub fn to_vec(&self) -> Result<Vec<V>, AllocError>
        ensures { IfOk result (λ items. items.items ≡ self.now.items) }
    {
        self.store.to_vec(self.alloc)
    }

    /// How many items it has.
    #[inline(always)]
    pub fn len(&self) -> usize
        ensures exact { result ≡ length self.now.items }
        ensures bound { result ≤ MAX_LEN }
    {
        self.store.len()
    }

    /// Whether it has none.
    pub fn is_empty(&self) -> bool
        ensures { IsTrue result ↔ (self.now.items ≡ []) }
    {
        self.len() == 0
    }

    /// How it holds its items.
    pub fn strategy(&self) -> Strategy
        ensures exact { result ≡ self.now.strategy }
        ensures none { result ≡ Strategy.Empty → self.now.items ≡ [] }
        ensures raw { result ≡ Strategy.Ints → All (IsIntegerBy V.int) self.now.items }
    {
        self.store.strategy()
    }

    /// A copy of the item at an index, where a negative one counts from the end. An integer needs no memory.
    #[inline(always)]
    pub fn at(&self, index: i64) -> Result<Option<V>, AllocError>
        ensures found { IfOk result (λ found. found ≡ item_at self.now.items index) }
        ensures raw { self.now.strategy ≡ Strategy.Ints → IfOk result (λ found. IfSome found (λ item. IsSome (V.integer item))) }
        ensures refused { OnErr result ((self.now.strategy ≡ Strategy.Anys) × IsSome (item_at self.now.items index)) }
        ensures counted { OnErr result (IsSomeAnd (item_at self.now.items index) (λ item. V.counted item ≡ true)) }
    {
        match place_at(index, self.len()) {
            Some(place) => self.store.get(place),
            None => Ok(None),
        }
    }

    /// The item at an index, where a negative one counts from the end, seen where it stands. No item is copied, and none shared.
    #[inline(always)]
    pub fn peek(&self, index: i64) -> Peeked<'_, V>
        ensures { seen V.int V.flag result ≡ item_at self.now.items index }
    {
        // An index that is not negative needs no length.
        match usize::try_from(index) {
            Ok(place) => self.store.peek(place),
            Err(_) => self.peek_from_end(index),
        }
    }

    /// The same by the length.
    #[inline(never)]
    fn peek_from_end(&self, index: i64) -> Peeked<'_, V>
        ensures { seen V.int V.flag result ≡ item_at self.now.items index }
    {
        match place_at(index, self.len()) {
            Some(place) => self.store.peek(place),
            None => Peeked::Nothing,
        }
    }

    /// Puts an item at an index, where a negative one counts from the end. The array is first filled up to there.
    #[tactic(auto, using(crate::proofs::Puts::puts))]
    #[inline(always)]
    pub fn put(&mut self, index: i64, item: V, fill: V) -> Result<(), PutFault>
        ensures done { OnOk result (IsSomeAnd (place_of index (length self.old.items)) (λ j. self.new ≡ put_at V.integer self.old j item fill)) }
        ensures too_small { (result ≡ Err PutFault.TooSmall) ↔ (place_of index (length self.old.items) ≡ None) }
        ensures too_long { (result ≡ Err PutFault.TooLong) ↔ IsSomeAnd (place_of index (length self.old.items)) (λ j. MAX_LEN ≤ j) }
        ensures memory { result ≡ Err PutFault.Memory → MayNeedMemory V.int V.integer V.flag V.flag_of self.old index item }
        ensures kept { OnErr result (self.new ≡ self.old) }
    {
        let len = self.len();
        let Some(place) = place_at(index, len) else {
            return Err(PutFault::TooSmall);
        };
        if place >= MAX_LEN {
            return Err(PutFault::TooLong);
        }
        if place < len {
            self.store.replace(self.alloc, place, item)?;
            return Ok(());
        }
        if place == len {
            self.store.push(self.alloc, item)?;
            return Ok(());
        }
        self.store.push_filled(self.alloc, place - len, fill, item)?;
        Ok(())
    }

    /// Puts the item of an integer in place of the one at an index, where a negative one counts from the end. It is done where there is such an
    /// item and the array holds raw integers, or the items themselves, and needs no memory. Else nothing is done.
    #[inline(always)]
    pub fn put_int(&mut self, index: i64, n: i64) -> bool
        ensures done { result ≡ true → IsSetAt self.old.items index (V.int n) self.new.items }
        ensures refused { result ≡ false → HasItem self.old.items index → IsFlags V.flag self.old }
        ensures bound { length self.old.items ≤ MAX_LEN }
        ensures strategy { self.new.strategy ≡ self.old.strategy }
        ensures kept { result ≡ false → self.new ≡ self.old }
    {
        self.store.put_int(index, n)
    }

    /// Puts the item of a flag in place of the one at an index, where a negative one counts from the end. It is done where there is such an
    /// item and the array holds a byte for each item, or the items themselves, and needs no memory. Else nothing is done.
    #[inline(always)]
    pub fn put_flag(&mut self, index: i64, flag: Flag) -> bool
        ensures done { result ≡ true → IsSetAt self.old.items index (V.flag flag) self.new.items }
        ensures refused { result ≡ false → HasItem self.old.items index → IsRaw V.int self.old }
        ensures never { result ≡ true → self.old.strategy ≡ Strategy.Anys }
        ensures bound { length self.old.items ≤ MAX_LEN }
        ensures strategy { self.new.strategy ≡ self.old.strategy }
        ensures kept { result ≡ false → self.new ≡ self.old }
    {
        self.store.put_flag(index, flag)
    }

    /// Puts the item of an integer behind the last. It is done where there is room for one more, unless the array holds a byte for each item.
    /// Else nothing is done.
    #[inline(always)]
    pub fn push_int(&mut self, n: i64) -> Result<bool, AllocError>
        ensures done { IfOk result (λ done. done ≡ true → self.new ≡ pushed V.integer self.old (V.int n)) }
        ensures room { IfOk result (λ done. done ≡ true → length self.old.items < MAX_LEN) }
        ensures refused { IfOk result (λ done. done ≡ false → length self.old.items < MAX_LEN → IsFlags V.flag self.old) }
        ensures kept { IfOk result (λ done. done ≡ false → self.new ≡ self.old) }
        ensures err { OnErr result (self.new ≡ self.old) }
    {
        if self.len() == MAX_LEN {
            return Ok(false);
        }
        self.store.push_int(self.alloc, n)
    }

    /// Puts the item of a flag behind the last. It is done where there is room for one more, unless the array holds raw integers. Else
    /// nothing is done.
    #[inline(always)]
    pub fn push_flag(&mut self, flag: Flag) -> Result<bool, AllocError>
        ensures done { IfOk result (λ done. done ≡ true → self.new ≡ pushed V.integer self.old (V.flag flag)) }
        ensures room { IfOk result (λ done. done ≡ true → length self.old.items < MAX_LEN) }
        ensures refused { IfOk result (λ done. done ≡ false → length self.old.items < MAX_LEN → IsRaw V.int self.old) }
        ensures never { IfOk result (λ done. done ≡ true → self.old.strategy ≢ Strategy.Ints) }
        ensures kept { IfOk result (λ done. done ≡ false → self.new ≡ self.old) }
        ensures err { OnErr result (self.new ≡ self.old) }
    {
        if self.len() == MAX_LEN {
            return Ok(false);
        }
        self.store.push_flag(self.alloc, flag)
    }

    /// Puts an item behind the last.
    pub fn push(&mut self, item: V) -> Result<(), PutFault>
        ensures done { OnOk result (self.new ≡ pushed V.integer self.old item) }
        ensures too_long { (result ≡ Err PutFault.TooLong) ↔ (length self.old.items ≡ MAX_LEN) }
        ensures room { result ≢ Err PutFault.TooLong → length self.old.items < MAX_LEN }
        ensures cause { result ≢ Err PutFault.TooSmall }
        ensures kept { OnErr result (self.new ≡ self.old) }
    {
        if self.len() == MAX_LEN {
            return Err(PutFault::TooLong);
        }
        self.store.push(self.alloc, item)?;
        Ok(())
    }

    /// Puts an item before the first.
    pub fn unshift(&mut self, item: V) -> Result<(), PutFault>
        ensures done { OnOk result (self.new ≡ unshifted V.integer self.old item) }
        ensures too_long { (result ≡ Err PutFault.TooLong) ↔ (length self.old.items ≡ MAX_LEN) }
        ensures room { result ≢ Err PutFault.TooLong → length self.old.items < MAX_LEN }
        ensures cause { result ≢ Err PutFault.TooSmall }
        ensures kept { OnErr result (self.new ≡ self.old) }
    {
        if self.len() == MAX_LEN {
            return Err(PutFault::TooLong);
        }
        self.store.unshift(self.alloc, item)?;
        Ok(())
    }

    /// Takes the last item out.
    pub fn pop(&mut self) -> Option<V>
        ensures taken { result ≡ slice_get self.old.items (length self.old.items - 1) }
        ensures rest { self.new.items ≡ take (length self.old.items - 1) self.old.items }
        ensures strategy { self.new.strategy ≡ self.old.strategy }
    {
        self.store.pop()
    }

    /// Takes the first item out.
    pub fn shift(&mut self) -> Option<V>
        ensures taken { result ≡ slice_get self.old.items 0 }
        ensures rest { self.new.items ≡ drop 1 self.old.items }
        ensures strategy { self.new.strategy ≡ self.old.strategy }
    {
        self.store.shift()
    }

    /// Takes the item at an index out, where a negative one counts from the end.
    pub fn delete_at(&mut self, index: i64) -> Option<V>
        ensures taken { result ≡ item_at self.old.items index }
        ensures rest { self.new.items ≡ without_item self.old.items index }
        ensures strategy { self.new.strategy ≡ self.old.strategy }
    {
        let place = place_at(index, self.len())?;
        self.store.remove(place)
    }

    /// Takes all items out, and gives their memory back.
    pub fn clear(&mut self)
        ensures { self.new ≡ empty }
    {
        self.store = Store::Empty;
    }
}
