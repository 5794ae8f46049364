// Pairs in the order of their keys, few or indexed.

ghost use Rattle.std.specs.Prelude.{◌≡◌, ◌<◌, ◌≤◌, ◌^◌, ◌↔◌, [], length, map, true, false, None, IfSome, IfOk, IsOk, OnOk, OnErr, Err};
ghost use Rattle.rb_model.specs.Values.{is_text, plain};
ghost use Rattle.rb_model.specs.Things.{gathered, has_key, value_at, with_pair, without_key, may_put};
ghost use Rattle.ordered_pairs.specs.Order.{pair_of};
ghost use Rattle.ordered_pairs.specs.Forms.{form_pairs, HasPlace};

use crate::few::{FewPairs, are_few};
use crate::indexed::IndexedPairs;
use rb_model::Value;
use std::alloc::{AllocError, AllocFailed, Global};
use std::marker::Model;
use thiserror::Error;

/// How many pairs there are at the most.
pub const MAX_PAIRS: usize = 16_777_216;

/// Why a pair was not put.
#[derive(Clone, Copy, Debug, PartialEq, Eq, Error)]
pub enum PutFault {
    /// The key is not there, and there are as many pairs as there may be.
    #[error("too many pairs")]
    TooLong,
    /// Want of memory.
    #[error("out of memory")]
    Memory,
}

impl From<AllocFailed<(Value, Value)>> for PutFault {
    ghost use Rattle.std.specs.Prelude.{◌≡◌};
    ghost use Rattle.ordered_pairs.specs.declared.pairs.PutFault.TheVariants.{Memory};

    ghost from_gives = { λ _ fault. fault ≡ Memory };

    fn from(_: AllocFailed<(Value, Value)>) -> PutFault {
        PutFault::Memory
    }
}

impl From<AllocError> for PutFault {
    ghost use Rattle.std.specs.Prelude.{◌≡◌};
    ghost use Rattle.ordered_pairs.specs.declared.pairs.PutFault.TheVariants.{Memory};

    ghost from_gives = { λ _ fault. fault ≡ Memory };

    fn from(_: AllocError) -> PutFault {
        PutFault::Memory
    }
}

/// How a hash holds its pairs.
#[derive(Drop)]
pub enum Form {
    /// Few pairs in one row, which need no index.
    Few(FewPairs),
    /// Pairs that are found by the hash of their key. The index lies apart, so that a hash of few pairs is small.
    Indexed(Box<IndexedPairs>),
}

impl Form {
    /// Gives a new key a place: few pairs that are as many as there may be get an index. No pair changes.
    #[inline(always)]
    fn make_place(&mut self, alloc: Global, key: &Value) -> Result<(), AllocError>
        ensures place { OnOk result (HasPlace (plain key.now) self.new) }
        ensures kept { form_pairs self.new ≡ form_pairs self.old }
        ensures there { has_key (plain key.now) (form_pairs self.old) ≡ true → IsOk result }
        ensures few { OnErr result (length (form_pairs self.old) < MAX_PAIRS) }
    {
        let Form::Few(few) = self else {
            return Ok(());
        };
        if few.has_place(key) {
            return Ok(());
        }
        // The index is whole before the row is let go: where there is no memory for it, the row stays.
        let indexed = few.indexed(alloc)?;
        *self = Form::Indexed(indexed);
        Ok(())
    }
}

/// Pairs of a key and a value, in the order in which their keys came. Two keys are one where they are the same value. Contracts
/// see the list of pairs.
///
/// Few pairs stand in one row. The first key too many gives them an index, which stays until all pairs are taken out by `clear`.
#[derive(Drop)]
pub struct OrderedPairs {
    form: Form,
    alloc: Global,
}

/// A hash of few pairs has this size, beside their row.
const _: () = prove!(size_of::<OrderedPairs>() == 32);

impl Model for OrderedPairs {
    ghost use Rattle.std.specs.Prelude.{List};
    ghost use Rattle.rb_model.specs.Values.{Value as Val};
    ghost use Rattle.ordered_pairs.specs.Forms.{form_pairs};

    ghost Value = { List (Val × Val) };

    ghost view = { λ p. form_pairs p.form };
}

impl OrderedPairs {
    /// No pairs.
    pub fn new(alloc: Global) -> Result<OrderedPairs, AllocError>
        ensures { IfOk result (λ pairs. pairs ≡ []) }
    {
        Ok(OrderedPairs {
            form: Form::Few(FewPairs::new(alloc)),
            alloc,
        })
    }

    /// Pairs as they are given, from the left: a key that stands twice keeps its first place and has the last value. Few pairs of different
    /// keys stay in the memory in which they are given. That there are more than there may be is told as want of memory.
    pub fn from_vec(alloc: Global, given: Vec<(Value, Value)>) -> Result<OrderedPairs, AllocError>
        ensures pairs { IfOk result (λ pairs. pairs ≡ gathered (map pair_of given.items)) }
        ensures few { IfOk result (λ pairs. length pairs ≤ MAX_PAIRS) }
    {
        if are_few(given.as_slice()) {
            return Ok(OrderedPairs {
                form: Form::Few(FewPairs::from_vec(given)),
                alloc,
            });
        }
        OrderedPairs::one_by_one(alloc, given)
    }

    /// The same by one `put` for each pair.
    fn one_by_one(alloc: Global, given: Vec<(Value, Value)>) -> Result<OrderedPairs, AllocError>
        ensures pairs { IfOk result (λ pairs. pairs ≡ gathered (map pair_of given.items)) }
        ensures few { IfOk result (λ pairs. length pairs ≤ MAX_PAIRS) }
    {
        let mut pairs = OrderedPairs::new(alloc)?;
        'given: for (key, value) in given {
            pairs.add(key, value)?;
        }
        Ok(pairs)
    }

    /// How many pairs there are.
    pub fn len(&self) -> usize
        ensures exact { result ≡ length self.now }
        ensures fits { result < 2 ^ 63 }
    {
        match &self.form {
            Form::Few(few) => few.len(),
            Form::Indexed(indexed) => indexed.len(),
        }
    }

    /// Whether there are none.
    pub fn is_empty(&self) -> bool
        ensures { (result ≡ true) ↔ (self.now ≡ []) }
    {
        self.len() == 0
    }

    /// Whether a key is there.
    pub fn has(&self, key: &Value) -> bool
        ensures { result ≡ has_key (plain key.now) self.now }
    {
        match &self.form {
            Form::Few(few) => few.has(key),
            Form::Indexed(indexed) => indexed.has(key),
        }
    }

    /// The value of a key where it stands, where the key is there.
    #[inline(always)]
    pub fn peek(&self, key: &Value) -> Option<&Value>
        ensures there { IfSome result (λ value. has_key (plain key.now) self.now ≡ true) }
        ensures value { IfSome result (λ value. plain value.now ≡ value_at (plain key.now) self.now) }
        ensures none { result ≡ None → has_key (plain key.now) self.now ≡ false }
    {
        match &self.form {
            Form::Few(few) => few.peek(key),
            Form::Indexed(indexed) => indexed.peek(key),
        }
    }

    /// The value of a key, nil where it is not there. No bytes are copied. Where as many own a text as can be counted, that is want of
    /// memory.
    pub fn get(&self, key: &Value) -> Result<Value, AllocError>
        ensures value { IfOk result (λ value. plain value ≡ value_at (plain key.now) self.now) }
        ensures refused { OnErr result (is_text (value_at (plain key.now) self.now) ≡ true) }
    {
        match self.peek(key) {
            Some(value) => value.share(),
            None => Ok(Value::Nil),
        }
    }

    /// Gives a key a value. A key that is there keeps its place, another comes last.
    pub fn put(&mut self, key: Value, value: Value) -> Result<(), PutFault>
        ensures done { OnOk result (self.new ≡ with_pair (plain key) (plain value) self.old) }
        ensures too_long { (result ≡ Err PutFault.TooLong) ↔ (may_put (plain key) self.old ≡ false) }
        ensures kept { OnErr result (self.new ≡ self.old) }
        ensures there { has_key (plain key) self.old ≡ true → IsOk result }
    {
        self.form.make_place(self.alloc, &key)?;
        match &mut self.form {
            Form::Few(few) => {
                few.put(key, value)?;
                Ok(())
            }
            Form::Indexed(indexed) => indexed.put(key, value),
        }
    }

    /// The same while pairs are gathered. That there are too many is told as want of memory.
    fn add(&mut self, key: Value, value: Value) -> Result<(), AllocError>
        ensures done { OnOk result (self.new ≡ with_pair (plain key) (plain value) self.old) }
        ensures few { OnOk result (may_put (plain key) self.old ≡ true) }
    {
        match self.put(key, value) {
            Ok(()) => Ok(()),
            Err(_) => Err(AllocError),
        }
    }

    /// Takes the pair of a key out. Answers its value, nil where it is not there.
    pub fn delete(&mut self, key: &Value) -> Value
        ensures value { plain result ≡ value_at (plain key.now) self.old }
        ensures gone { self.new ≡ without_key (plain key.now) self.old }
    {
        match &mut self.form {
            Form::Few(few) => few.delete(key),
            Form::Indexed(indexed) => indexed.delete(key),
        }
    }

    /// Takes all pairs out.
    pub fn clear(&mut self)
        ensures { self.new ≡ [] }
    {
        self.form = Form::Few(FewPairs::new(self.alloc));
    }

    /// A copy of all pairs. No bytes are copied.
    pub fn copy(&self, alloc: Global) -> Result<Vec<(Value, Value)>, AllocError>
        ensures { IfOk result (λ pairs. map pair_of pairs.items ≡ self.now) }
    {
        match &self.form {
            Form::Few(few) => few.copy(alloc),
            Form::Indexed(indexed) => indexed.copy(alloc),
        }
    }
}
