// Operands that are integers of objects, read where they stand, and operations over them.

ghost use Rattle.std.specs.Prelude.{false, List, IfSome};
ghost use Rattle.rb_model.specs.declared.value.Value.{Value as Held};
ghost use Rattle.rb_builtin.specs.Integers as integers;
ghost use Rattle.rb_walk.specs.Carries.{me_of};
ghost use Rattle.rb_walk.specs.Answers.{steps_of};
ghost use Rattle.rb_walk.specs.Readers.{Fetches, HasInteger, IsFetched};

use super::Walker;
use rb_builtin::{Builtin, IntegerAnswer, is_operation};
use rb_code::Code;
use rb_model::{Immediate, Ref, ThreadStore, Value};
use rb_tree::NameId;
use rb_walk::MAX_DEPTH;
use rb_walk::came::{Came, Cut};
use rb_walk::leaf::{computed, is_long, local_at, operation_by, steps_of};
use rb_walk::target::reader_of;

impl<'p, O: ThreadStore + Drop> Walker<'p, O> {
    ghost use Rattle.rb_interp.specs.Walks.{Walked, Walks, begun, node_fits};

    /// The integer that an instance variable of an object has. Nothing is done for it.
    #[inline(always)]
    fn integer_of(&self, object: Ref, field: NameId) -> Option<i64>
        ensures { IfSome result (λ n. HasInteger (O.private self.now.store) object field n) }
    {
        match self.store.immediate_field(object.id, field) {
            Immediate::Int(n) => Some(n),
            _ => None,
        }
    }

    /// The integer that an attribute of a local's object has. Nothing is done for it, and no step is counted.
    #[inline(always)]
    fn attribute_at(&self, code: &Code, room: &[Value]) -> Option<i64>
        ensures { IfSome result (λ n. Fetches self.now.context.script.now (me_of self.now.context.me) 3 code.now room.now (O.private self.now.store) n) }
    {
        let Code::Send(_, name, receiver, args, _) = code else {
            return None;
        };
        if !args.is_empty() {
            return None;
        }
        let reader = reader_of(self.context.script, local_at(receiver.get(), room)?, *name)?;
        let n = self.integer_of(reader.object, reader.field)?;
        Some(n)
    }

    /// The integer that an instance variable of `self` has. Nothing is done for it, and no step is counted.
    #[inline(always)]
    fn variable_at(&self, code: &Code) -> Option<i64>
        ensures { IfSome result (λ n. (room : List Held) → Fetches self.now.context.script.now (me_of self.now.context.me) 1 code.now room (O.private self.now.store) n) }
    {
        let Code::Field(name, _) = code else {
            return None;
        };
        let object = self.context.me?;
        let n = self.integer_of(object, *name)?;
        Some(n)
    }

    /// The integer of an operand of three steps, an attribute of a local's object or an operation over two leaves. Nothing is done for it, and
    /// no step is counted.
    #[inline(always)]
    fn far_operand(&self, code: &Code, room: &[Value]) -> Option<i64>
        ensures { IfSome result (λ n. Fetches self.now.context.script.now (me_of self.now.context.me) 3 code.now room.now (O.private self.now.store) n) }
    {
        if let Some(n) = self.attribute_at(code, room) {
            return Some(n);
        }
        let n = computed(code, true, room)?;
        Some(n)
    }

    /// The integer of an operand of one step, an instance variable of `self` or a leaf. Nothing is done for it, and no step is counted.
    #[inline(always)]
    fn near_operand(&self, code: &Code, room: &[Value]) -> Option<i64>
        ensures { IfSome result (λ n. Fetches self.now.context.script.now (me_of self.now.context.me) 1 code.now room.now (O.private self.now.store) n) }
    {
        if let Some(n) = self.variable_at(code) {
            return Some(n);
        }
        let n = computed(code, false, room)?;
        Some(n)
    }

    /// The integer of an operand, taken for one of three steps or for one of one.
    #[inline(always)]
    fn operand(&self, code: &Code, is_far: bool, room: &[Value]) -> Option<i64>
        ensures { IfSome result (λ n. Fetches self.now.context.script.now (me_of self.now.context.me) (steps_of is_far) code.now room.now (O.private self.now.store) n) }
    {
        if is_far {
            self.far_operand(code, room)
        } else {
            self.near_operand(code, room)
        }
    }

    /// What an operation gives over two operands, where they are integers and this is one. Nothing is done for it, and no step is counted.
    #[inline(always)]
    fn operation_at(
        &self,
        method: Option<Builtin>,
        left: &Code,
        is_far: bool,
        right: &Code,
        is_over: bool,
        room: &[Value],
    ) -> Option<IntegerAnswer>
        ensures { IfSome result (λ answer. IsFetched self.now.context.script.now (me_of self.now.context.me) method left.now right.now (steps_of is_far) (steps_of is_over) room.now (O.private self.now.store) (integers.answer_of answer)) }
    {
        // What is no operation on integers, as an index, is not read twice.
        if !is_operation(method?) {
            return None;
        }
        let m = self.operand(left, is_far, room)?;
        let n = self.operand(right, is_over, room)?;
        let answer = operation_by(method, m, n)?;
        Some(answer)
    }

    /// A call with one argument, of which an operand may be read from an object. Over integers it calls nothing of the walk.
    #[cycle(walk)]
    #[inline(never)]
    pub(super) fn begin_read_operate(
        &mut self,
        code: &'p Code,
        depth: u32,
        room: &mut [Value],
    ) -> Came
        ensures stays { Walked self.old self.new room.old room.new }
        ensures came { Walks (node_fits code.now) (begun code.now) self.old self.new room.old room.new depth result }
    {
        match code {
            Code::Operate(method, _, left, right, at) => {
                let left = left.get();
                let right = right.get();
                if self.left > 6 && depth < MAX_DEPTH - 1 {
                    let is_far = is_long(left);
                    let is_over = is_long(right);
                    if let Some(answer) = self.operation_at(
                        *method, left, is_far, right, is_over, room,
                    ) {
                        self.left -= steps_of(is_far) + steps_of(is_over);
                        return self.answer(answer, *at);
                    }
                }
                self.begin_slow_operate(code, depth, room)
            }
            _ => self.over(Cut::Memory),
        }
    }
}
