// One object over a shape store.

ghost use Rattle.std.specs.Prelude.{◌≡◌, ◌<◌, ◌++◌, ◌∷◌, [], length, map, Some, None, IfSome, IfOk, OnOk, OnErr, true, false};
ghost use Rattle.rb_model.specs.Acts.{Done};
ghost use Rattle.rb_model.specs.Doing.{said};
ghost use Rattle.rb_model.specs.Values.{Int, Nil, plain};
ghost use Rattle.rb_model.specs.Things.{is_integer};
ghost use Rattle.shape_core.specs.Path.{MayFollow, find_on};
ghost use Rattle.shape_core.specs.Shape.{Gains, Has, child_of, path_at, shape_at};
ghost use Rattle.typed_location.specs.Word.{twos_complement};
ghost use Rattle.local_heap.specs.Memory.{is_kept, write_wants};
ghost use Rattle.local_heap.specs.Slots.{Puts, slot_at};
ghost use Rattle.local_heap.specs.Fields.{IsSumFound, wide_in};
ghost use Rattle.local_heap.specs.Cells.{IsObject, Written, Unwritten};

use crate::row::{Words, add_to_word, set_word, settle};
use crate::slot::{Slot, Whose, slot_for};
use rb_model::{Reply, Value};
use rb_tree::NameId;
use shape_core::{Edge, Kind, Place, ShapeId, ShapeStore};
use std::alloc::AllocError;
use typed_location::to_int_word;

/// A shape, and what stands at each place of it: a word, and the values that words have no room for.
#[derive(Drop)]
pub struct Object {
    pub shape: ShapeId,
    pub words: Words,
    /// By place; nil, or nothing, where the word says the value.
    pub whole: Vec<Value>,
}

impl Object {
    /// Does what a write to a field asks.
    #[inline(always)]
    pub fn set<S: ShapeStore>(
        &mut self,
        shapes: &mut S,
        name: NameId,
        value: Value,
        whose: Whose,
    ) -> Result<Reply, AllocError>
        requires { IsObject (S.shapes shapes.old) self.old }
        ensures done { IfOk result (λ reply. said reply ≡ Done) }
        ensures written { OnOk result (Written (S.shapes shapes.old) self.old name (plain value) whose (S.shapes shapes.new) self.new) }
        ensures err { OnErr result (Unwritten (S.shapes shapes.old) self.old (S.shapes shapes.new) self.new) }
        ensures refused { OnErr result (write_wants (wide_in (path_at (S.shapes shapes.old) self.old.shape) name) (plain value) ≡ true) }
    {
        self.write(shapes, name, value, whose)?;
        Ok(Reply::Done)
    }

    /// Adds an integer to a field, where its place holds integers alone and the sum is one. Else nothing is done. Answers the sum.
    #[inline(always)]
    pub fn add_to_field<S: ShapeStore>(&mut self, shapes: &S, name: NameId, n: i64) -> Option<i64>
        requires { IsObject (S.shapes shapes.now) self.old }
        ensures sum { IsSumFound (slot_at self.old) (find_on (path_at (S.shapes shapes.now) self.old.shape) name) n result }
        ensures written { IfSome result (λ sum. Written (S.shapes shapes.now) self.old name (Int sum) Whose.Others (S.shapes shapes.now) self.new) }
        ensures kept { result ≡ None → self.new ≡ self.old }
    {
        match shapes.find(self.shape, name) {
            Some((place, Kind::IntLoc)) => add_to_word(&mut self.words, place.0 as usize, n),
            _ => None,
        }
    }

    /// Gives a field a value.
    #[inline(always)]
    fn write<S: ShapeStore>(
        &mut self,
        shapes: &mut S,
        name: NameId,
        value: Value,
        whose: Whose,
    ) -> Result<(), AllocError>
        requires { IsObject (S.shapes shapes.old) self.old }
        ensures written { OnOk result (Written (S.shapes shapes.old) self.old name (plain value) whose (S.shapes shapes.new) self.new) }
        ensures err { OnErr result (Unwritten (S.shapes shapes.old) self.old (S.shapes shapes.new) self.new) }
        ensures refused { OnErr result (write_wants (wide_in (path_at (S.shapes shapes.old) self.old.shape) name) (plain value) ≡ true) }
    {
        match shapes.find(self.shape, name) {
            None => self.add(shapes, name, value, whose),
            Some((place, Kind::IntLoc)) => self.put_at_integer(shapes, place, name, value, whose),
            Some((place, Kind::AnyLoc)) => self.put_at_any(shapes, place, name, value, whose),
        }
    }

    /// Gives a field a value that the shape has no name for.
    #[inline(always)]
    fn add<S: ShapeStore>(
        &mut self,
        shapes: &mut S,
        name: NameId,
        value: Value,
        whose: Whose,
    ) -> Result<(), AllocError>
        requires object { IsObject (S.shapes shapes.old) self.old }
        requires absent { find_on (path_at (S.shapes shapes.old) self.old.shape) name ≡ None }
        ensures written { OnOk result (Written (S.shapes shapes.old) self.old name (plain value) whose (S.shapes shapes.new) self.new) }
        ensures err { OnErr result (Unwritten (S.shapes shapes.old) self.old (S.shapes shapes.new) self.new) }
    {
        if let Value::Int(n) = value {
            self.add_integer(shapes, name, n)?;
            return Ok(());
        }
        let slot = slot_for(value, whose);
        self.grow_by(shapes, Edge::Add(name, Kind::AnyLoc), slot)?;
        Ok(())
    }

    /// Gives a field a value whose place holds integers alone.
    #[inline(always)]
    fn put_at_integer<S: ShapeStore>(
        &mut self,
        shapes: &mut S,
        place: Place,
        name: NameId,
        value: Value,
        whose: Whose,
    ) -> Result<(), AllocError>
        requires object { IsObject (S.shapes shapes.old) self.old }
        requires found { find_on (path_at (S.shapes shapes.old) self.old.shape) name ≡ Some (place, Kind.IntLoc) }
        ensures written { OnOk result (Written (S.shapes shapes.old) self.old name (plain value) whose (S.shapes shapes.new) self.new) }
        ensures err { OnErr result (Unwritten (S.shapes shapes.old) self.old (S.shapes shapes.new) self.new) }
        ensures refused { OnErr result (is_integer (plain value) ≡ false) }
    {
        if let Value::Int(n) = value {
            set_word(&mut self.words, place.0 as usize, to_int_word(n));
            return Ok(());
        }
        let slot = slot_for(value, whose);
        self.grow_by(shapes, Edge::Widen(name), slot)?;
        Ok(())
    }

    /// Gives a field a value whose place holds any value.
    fn put_at_any<S: ShapeStore>(
        &mut self,
        shapes: &mut S,
        place: Place,
        name: NameId,
        value: Value,
        whose: Whose,
    ) -> Result<(), AllocError>
        requires object { IsObject (S.shapes shapes.old) self.old }
        requires found { find_on (path_at (S.shapes shapes.old) self.old.shape) name ≡ Some (place, Kind.AnyLoc) }
        ensures written { OnOk result (Written (S.shapes shapes.old) self.old name (plain value) whose (S.shapes shapes.new) self.new) }
        ensures err { OnErr result (Unwritten (S.shapes shapes.old) self.old (S.shapes shapes.new) self.new) }
        ensures refused { OnErr result (is_kept (plain value) ≡ true) }
    {
        let Slot { word, whole } = slot_for(value, whose);
        settle(&mut self.whole, place.0 as usize, whole)?;
        set_word(&mut self.words, place.0 as usize, word);
        Ok(())
    }

    /// The object with the next place, for integers alone, and an integer there.
    // It stands apart from the other edges, so that what is added lies in registers.
    #[inline(never)]
    fn add_integer<S: ShapeStore>(
        &mut self,
        shapes: &mut S,
        name: NameId,
        n: i64,
    ) -> Result<(), AllocError>
        requires object { IsObject (S.shapes shapes.old) self.old }
        requires allowed { MayFollow (path_at (S.shapes shapes.old) self.old.shape) (Edge.Add name Kind.IntLoc) }
        ensures shape { OnOk result (Has (S.shapes shapes.new) self.new.shape (child_of (shape_at (S.shapes shapes.old) self.old.shape) (Edge.Add name Kind.IntLoc))) }
        ensures gains { OnOk result (Gains (S.shapes shapes.old) (child_of (shape_at (S.shapes shapes.old) self.old.shape) (Edge.Add name Kind.IntLoc)) (S.shapes shapes.new)) }
        ensures words { OnOk result (self.new.words.items ≡ self.old.words.items ++ twos_complement 64 n ∷ []) }
        ensures whole { OnOk result (Puts (map plain self.old.whole.items) (length self.old.words.items) Nil (map plain self.new.whole.items)) }
        ensures err { OnErr result (Unwritten (S.shapes shapes.old) self.old (S.shapes shapes.new) self.new) }
    {
        self.grow(shapes, Edge::Add(name, Kind::IntLoc), integer_slot(n))
    }

    /// The object with the next place, which any edge gives.
    #[inline(never)]
    fn grow_by<S: ShapeStore>(
        &mut self,
        shapes: &mut S,
        edge: Edge,
        slot: Slot,
    ) -> Result<(), AllocError>
        requires object { IsObject (S.shapes shapes.old) self.old }
        requires allowed { MayFollow (path_at (S.shapes shapes.old) self.old.shape) edge }
        ensures shape { OnOk result (Has (S.shapes shapes.new) self.new.shape (child_of (shape_at (S.shapes shapes.old) self.old.shape) edge)) }
        ensures gains { OnOk result (Gains (S.shapes shapes.old) (child_of (shape_at (S.shapes shapes.old) self.old.shape) edge) (S.shapes shapes.new)) }
        ensures words { OnOk result (self.new.words.items ≡ self.old.words.items ++ slot.word ∷ []) }
        ensures whole { OnOk result (Puts (map plain self.old.whole.items) (length self.old.words.items) (plain slot.whole) (map plain self.new.whole.items)) }
        ensures err { OnErr result (Unwritten (S.shapes shapes.old) self.old (S.shapes shapes.new) self.new) }
    {
        self.grow(shapes, edge, slot)
    }

    /// The object with the next place, which an edge gives.
    #[inline(always)]
    fn grow<S: ShapeStore>(
        &mut self,
        shapes: &mut S,
        edge: Edge,
        slot: Slot,
    ) -> Result<(), AllocError>
        requires object { IsObject (S.shapes shapes.old) self.old }
        requires allowed { MayFollow (path_at (S.shapes shapes.old) self.old.shape) edge }
        ensures shape { OnOk result (Has (S.shapes shapes.new) self.new.shape (child_of (shape_at (S.shapes shapes.old) self.old.shape) edge)) }
        ensures gains { OnOk result (Gains (S.shapes shapes.old) (child_of (shape_at (S.shapes shapes.old) self.old.shape) edge) (S.shapes shapes.new)) }
        ensures words { OnOk result (self.new.words.items ≡ self.old.words.items ++ slot.word ∷ []) }
        ensures whole { OnOk result (Puts (map plain self.old.whole.items) (length self.old.words.items) (plain slot.whole) (map plain self.new.whole.items)) }
        ensures err { OnErr result (Unwritten (S.shapes shapes.old) self.old (S.shapes shapes.new) self.new) }
    {
        let Slot { word, whole } = slot;
        // Room comes first, so that nothing fails once the shape is there.
        self.words.reserve(1)?;
        settle(&mut self.whole, self.words.len(), whole)?;
        let shape = shapes.follow(self.shape, edge)?;
        self.words.push_reserved(word);
        self.shape = shape;
        Ok(())
    }
}

/// What stands for an integer at a place that holds integers alone.
fn integer_slot(n: i64) -> Slot
    ensures word { result.word ≡ twos_complement 64 n }
    ensures whole { plain result.whole ≡ Nil }
{
    Slot {
        word: to_int_word(n),
        whole: Value::Nil,
    }
}
