// Few pairs in one row, searched from the front.

ghost use Rattle.std.specs.Prelude.{◌≡◌, ◌<◌, ◌≤◌, ◌++◌, ◌∷◌, [], length, map, true, false, None, IfSome, IfOk, IsOk, OnOk, OnErr};
ghost use Rattle.rb_model.specs.Values.{plain};
ghost use Rattle.rb_model.specs.Things.{has_key, value_at, with_pair, without_key};
ghost use Rattle.ordered_pairs.specs.Order.{pair_of};
ghost use Rattle.ordered_pairs.specs.Few.{AreFew, StandsAt, has_place};

use crate::indexed::IndexedPairs;
use rb_model::Value;
use std::alloc::{AllocError, Global};
use std::marker::Model;

/// How many pairs stand in one row at the most, the number that CRuby's tables without an index have.
pub(crate) const FEW: usize = 8;

/// Up to `FEW` pairs of a key and a value, in the order in which their keys came. Contracts see the list of pairs.
#[derive(Drop)]
pub struct FewPairs {
    pairs: Vec<(Value, Value)>,
}

impl Model for FewPairs {
    ghost use Rattle.std.specs.Prelude.{List, map};
    ghost use Rattle.rb_model.specs.Values.{Value as Val};
    ghost use Rattle.ordered_pairs.specs.Order.{pair_of};
    ghost use Rattle.ordered_pairs.specs.Few.{AreFew};

    ghost Value = { List (Val × Val) };

    ghost view = { λ p. map pair_of p.pairs.items };

    ghost invariant = { λ p. AreFew (map pair_of p.pairs.items) };
}

/// Where the first pair with a key stands.
#[inline(always)]
fn place_in(pairs: &[(Value, Value)], key: &Value) -> Option<usize>
    ensures there { IfSome result (λ place. StandsAt (plain key.now) place (map pair_of pairs.now)) }
    ensures none { result ≡ None → has_key (plain key.now) (map pair_of pairs.now) ≡ false }
{
    'pairs: for (place, pair) in pairs.iter().enumerate() {
        if pair.0 == *key {
            return Some(place);
        }
    }
    None
}

/// Whether these pairs may stand in one row: they are few, and no key stands twice.
pub(crate) fn are_few(pairs: &[(Value, Value)]) -> bool
    ensures { result ≡ true → AreFew (map pair_of pairs.now) }
{
    if pairs.len() > FEW {
        return false;
    }
    'pairs: for (place, pair) in pairs.iter().enumerate() {
        if place_in(&pairs[..place], &pair.0).is_some() {
            return false;
        }
    }
    true
}

impl FewPairs {
    /// No pairs. They take no memory.
    pub(crate) fn new(alloc: Global) -> FewPairs
        ensures { result ≡ [] }
    {
        FewPairs {
            pairs: Vec::new(alloc),
        }
    }

    /// These pairs, in the memory in which they are given.
    pub(crate) fn from_vec(pairs: Vec<(Value, Value)>) -> FewPairs
        requires { AreFew (map pair_of pairs.items) }
        ensures { result ≡ map pair_of pairs.items }
    {
        FewPairs { pairs }
    }

    /// How many pairs there are.
    #[inline(always)]
    pub(crate) fn len(&self) -> usize
        ensures exact { result ≡ length self.now }
        ensures few { result ≤ FEW }
    {
        self.pairs.len()
    }

    /// Where the pair of a key stands.
    #[inline(always)]
    fn place(&self, key: &Value) -> Option<usize>
        ensures there { IfSome result (λ place. StandsAt (plain key.now) place self.now) }
        ensures none { result ≡ None → has_key (plain key.now) self.now ≡ false }
    {
        place_in(self.pairs.as_slice(), key)
    }

    /// Whether a key is there.
    pub(crate) fn has(&self, key: &Value) -> bool
        ensures { result ≡ has_key (plain key.now) self.now }
    {
        self.place(key).is_some()
    }

    /// The value of a key where it stands, where the key is there.
    #[inline(always)]
    pub(crate) fn peek(&self, key: &Value) -> Option<&Value>
        ensures there { IfSome result (λ value. has_key (plain key.now) self.now ≡ true) }
        ensures value { IfSome result (λ value. plain value.now ≡ value_at (plain key.now) self.now) }
        ensures none { result ≡ None → has_key (plain key.now) self.now ≡ false }
    {
        let place = self.place(key)?;
        Some(&self.pairs[place].1)
    }

    /// Whether a key has a place: it is there, or one more pair may stand here.
    #[inline(always)]
    pub(crate) fn has_place(&self, key: &Value) -> bool
        ensures exact { result ≡ has_place (plain key.now) self.now }
        ensures few { length self.now ≤ FEW }
    {
        if self.pairs.len() < FEW {
            return true;
        }
        self.has(key)
    }

    /// Gives a key a value. A key that is there keeps its place, another comes last.
    pub(crate) fn put(&mut self, key: Value, value: Value) -> Result<(), AllocError>
        requires { has_place (plain key) self.old ≡ true }
        ensures done { OnOk result (self.new ≡ with_pair (plain key) (plain value) self.old) }
        ensures kept { OnErr result (self.new ≡ self.old) }
        ensures there { has_key (plain key) self.old ≡ true → IsOk result }
    {
        match self.place(&key) {
            Some(place) => {
                self.pairs[place].1 = value;
                Ok(())
            }
            None => self.push(key, value),
        }
    }

    /// Adds the pair of a key that is not there. A full row gets twice its places, at the most `FEW`.
    fn push(&mut self, key: Value, value: Value) -> Result<(), AllocError>
        requires new { has_key (plain key) self.old ≡ false }
        requires room { length self.old < FEW }
        ensures done { OnOk result (self.new ≡ self.old ++ (plain key, plain value) ∷ []) }
        ensures kept { OnErr result (self.new ≡ self.old) }
    {
        let len = self.pairs.len();
        if self.pairs.capacity() <= len {
            self.pairs.reserve_exact(len.max(1).min(FEW - len))?;
        }
        self.pairs.push_reserved((key, value));
        Ok(())
    }

    /// Takes the pair of a key out. Answers its value, nil where it is not there.
    pub(crate) fn delete(&mut self, key: &Value) -> Value
        ensures value { plain result ≡ value_at (plain key.now) self.old }
        ensures gone { self.new ≡ without_key (plain key.now) self.old }
    {
        match self.place(key) {
            Some(place) => {
                let (_, value) = self.pairs.remove(place);
                value
            }
            None => Value::Nil,
        }
    }

    /// A copy of all pairs. No bytes are copied.
    pub(crate) fn copy(&self, alloc: Global) -> Result<Vec<(Value, Value)>, AllocError>
        ensures { IfOk result (λ pairs. map pair_of pairs.items ≡ self.now) }
    {
        let mut copies = Vec::with_capacity(alloc, self.pairs.len())?;
        'pairs: for pair in &self.pairs {
            copies.push((pair.0.share()?, pair.1.share()?))?;
        }
        Ok(copies)
    }

    /// The same pairs with an index. These stay as they are, so the keys and values are shared.
    pub(crate) fn indexed(&self, alloc: Global) -> Result<Box<IndexedPairs>, AllocError>
        ensures { IfOk result (λ indexed. indexed.value ≡ self.now) }
    {
        let mut indexed = Box::new(alloc, IndexedPairs::new(alloc)?)?;
        'pairs: for pair in &self.pairs {
            indexed.add(pair.0.share()?, pair.1.share()?)?;
        }
        Ok(indexed)
    }
}
