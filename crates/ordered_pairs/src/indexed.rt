// Any number of pairs, found by the hash of their key.

ghost use Rattle.std.specs.Prelude.{◌≡◌, ◌<◌, ◌^◌, ◌↔◌, [], length, map, true, false, None, IfSome, IfOk, IsOk, OnOk, OnErr, Err};
ghost use Rattle.std.specs.List.{IsDistinct};
ghost use Rattle.std.specs.Map.{keys_of};
ghost use Rattle.rb_model.specs.Values.{plain, same};
ghost use Rattle.rb_model.specs.Things.{has_key, value_at, with_pair, without_key, may_put};
ghost use Rattle.ordered_pairs.specs.Order.{pair_of};

use crate::pairs::{MAX_PAIRS, PutFault};
use lru::LruCache;
use rb_model::Value;
use std::alloc::{AllocError, Global};
use std::marker::Model;

/// Pairs of a key and a value, in the order in which their keys came, which are found by the hash of the key. Contracts see the list of
/// pairs.
///
/// The entries are those of a cache without bound that is never asked for a key in a way that counts as a use: then its order is that of
/// their coming, and an entry is linked out in constant time.
#[derive(Drop)]
pub struct IndexedPairs {
    entries: LruCache<Value, Value>,
}

impl Model for IndexedPairs {
    ghost use Rattle.std.specs.Prelude.{◌≡◌, ◌-◌, ◌^◌, List};
    ghost use Rattle.rb_model.specs.Values.{Value as Val};
    ghost use Rattle.ordered_pairs.specs.Order.{in_order};

    ghost Value = { List (Val × Val) };

    ghost view = { λ p. in_order p.entries.entries };

    ghost invariant = { λ p. p.entries.cap ≡ 2 ^ 64 - 1 };
}

/// No key stands twice. The length of a cache tells that, and so callers ask for it.
#[inline(always)]
fn are_distinct(entries: &LruCache<Value, Value>)
    ensures { IsDistinct (λ a b. same (plain a) (plain b)) (keys_of entries.now.entries) }
{
    let _ = entries.len();
}

impl IndexedPairs {
    /// No pairs.
    pub(crate) fn new(alloc: Global) -> Result<IndexedPairs, AllocError>
        ensures { IfOk result (λ pairs. pairs ≡ []) }
    {
        Ok(IndexedPairs {
            entries: LruCache::unbounded(alloc)?,
        })
    }

    /// How many pairs there are.
    pub(crate) fn len(&self) -> usize
        ensures exact { result ≡ length self.now }
        ensures fits { result < 2 ^ 63 }
    {
        self.entries.len()
    }

    /// Whether a key is there.
    pub(crate) fn has(&self, key: &Value) -> bool
        ensures { result ≡ has_key (plain key.now) self.now }
    {
        self.entries.contains(key)
    }

    /// The value of a key where it stands, where the key is there.
    #[inline(always)]
    pub(crate) fn peek(&self, key: &Value) -> Option<&Value>
        ensures there { IfSome result (λ value. has_key (plain key.now) self.now ≡ true) }
        ensures value { IfSome result (λ value. plain value.now ≡ value_at (plain key.now) self.now) }
        ensures none { result ≡ None → has_key (plain key.now) self.now ≡ false }
    {
        are_distinct(&self.entries);
        self.entries.peek(key)
    }

    /// Gives a key a value. A key that is there keeps its place, another comes last.
    pub(crate) fn put(&mut self, key: Value, value: Value) -> Result<(), PutFault>
        ensures done { OnOk result (self.new ≡ with_pair (plain key) (plain value) self.old) }
        ensures too_long { (result ≡ Err PutFault.TooLong) ↔ (may_put (plain key) self.old ≡ false) }
        ensures kept { OnErr result (self.new ≡ self.old) }
        ensures there { has_key (plain key) self.old ≡ true → IsOk result }
    {
        are_distinct(&self.entries);
        if let Some(place) = self.entries.peek_mut(&key) {
            *place = value;
            return Ok(());
        }
        if self.entries.len() >= MAX_PAIRS {
            return Err(PutFault::TooLong);
        }
        self.entries.put(key, value)?;
        Ok(())
    }

    /// The same while pairs are gathered. That there are too many is told as want of memory.
    pub(crate) fn add(&mut self, key: Value, value: Value) -> Result<(), AllocError>
        ensures { OnOk result (self.new ≡ with_pair (plain key) (plain value) self.old) }
    {
        match self.put(key, value) {
            Ok(()) => Ok(()),
            Err(_) => Err(AllocError),
        }
    }

    /// Takes the pair of a key out. Answers its value, nil where it is not there.
    pub(crate) fn delete(&mut self, key: &Value) -> Value
        ensures value { plain result ≡ value_at (plain key.now) self.old }
        ensures gone { self.new ≡ without_key (plain key.now) self.old }
    {
        are_distinct(&self.entries);
        match self.entries.pop(key) {
            Some(value) => value,
            None => Value::Nil,
        }
    }

    /// A copy of all pairs. No bytes are copied.
    pub(crate) fn copy(&self, alloc: Global) -> Result<Vec<(Value, Value)>, AllocError>
        ensures { IfOk result (λ pairs. map pair_of pairs.items ≡ self.now) }
    {
        let mut pairs = Vec::with_capacity(alloc, self.entries.len())?;
        'pairs: for (key, value) in self.entries.iter().rev() {
            pairs.push((key.share()?, value.share()?))?;
        }
        Ok(pairs)
    }
}
