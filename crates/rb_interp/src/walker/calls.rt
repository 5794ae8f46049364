// Calls: their arguments, methods of receivers and of the script, blocks and prints.

ghost use Rattle.std.specs.Prelude.{◌≡◌, ◌≤◌, ◌<◌, ◌+◌, ◌+ℤ◌, pos, ℕ, false, [], ◌∷◌, length, map, slice_get, Some, None};
ghost use Rattle.rb_model.specs.Values.{Nil, Int};
ghost use Rattle.rb_machine.specs.Scopes.{text_of};
ghost use Rattle.rb_machine.specs.Control.{On, Turning, Passing, Joining, ReceiverOf, ReceiverToStore, Storing, Argument, OnReceiver, ByName, Counting};
ghost use Rattle.rb_machine.specs.Texts.{shown};
ghost use Rattle.rb_code.specs.Erase.{erase, erase_block, erase_piece};
ghost use Rattle.rb_code.specs.Resolved.{fits, block_fits, piece_fits, every};
ghost use Rattle.rb_walk.specs.Outcome.{is_left, value_of};
ghost use Rattle.rb_walk.specs.Carries.{both, numbered, called, printing, me_of};
ghost use Rattle.rb_walk.specs.Methods.{IsTarget, HasNone};

use super::Walker;
use rb_builtin::Builtin;
use rb_code::{Code, CodeBlock, CodePiece};
use rb_model::{Fault, Ref, SharedText, ThreadStore, Value};
use rb_render::{Form, MAX_BYTES};
use rb_tree::{NameId, Span};
use rb_walk::MAX_DEPTH;
use rb_walk::asked::style_by;
use rb_walk::bytes::{add_bytes, add_value};
use rb_walk::came::{Came, Cut, is_left};
use rb_walk::leaf::{local_at, small, written};
use rb_walk::ready::{is_nil_asked, nil_came};
use rb_walk::rounds::Iterations;
use rb_walk::slots::{last_of, passed, put, start_block};
use rb_walk::target::{Target, target_of};

impl<'p, O: ThreadStore + Drop> Walker<'p, O> {
    ghost use Rattle.rb_interp.specs.Calls.{Passes, StoresWith};
    ghost use Rattle.rb_interp.specs.Walks.{Kept, Walked, Walks, at_node_then, node_fits, nodes_fit};

    /// A call with one argument: the receiver first.
    #[cycle(walk)]
    #[inline(always)]
    pub(super) fn operate(
        &mut self,
        method: Option<Builtin>,
        name: NameId,
        left: &'p Code,
        right: &'p Code,
        at: Span,
        depth: u32,
        room: &mut [Value],
    ) -> Came
        ensures stays { Walked self.old self.new room.old room.new }
        ensures came { Walks (numbered method name (both (node_fits left.now) (node_fits right.now))) (at_node_then left.now (λ S. ReceiverOf (text_of S name) (erase right.now ∷ []) None at)) self.old self.new room.old room.new depth result }
    {
        let came = self.evaluate(left, depth, room);
        if is_left(came) {
            return came;
        }
        match came {
            Came::Int(m) => self.operate_integer(m, method, right, at, depth, room),
            _ => match self.collection_now(came) {
                Some(thing) => self.operate_collection(thing, method, name, right, at, depth, room),
                None => self.operate_value(came, method, name, right, at, depth, room),
            },
        }
    }

    /// The argument of a call whose receiver is an integer.
    #[cycle(walk)]
    #[inline(always)]
    pub(super) fn operate_integer(
        &mut self,
        m: i64,
        method: Option<Builtin>,
        right: &'p Code,
        at: Span,
        depth: u32,
        room: &mut [Value],
    ) -> Came
        ensures stays { Walked self.old self.new room.old room.new }
        ensures came { (name : NameId) → Walks (numbered method name (node_fits right.now)) (at_node_then right.now (λ S. Argument (OnReceiver (Int m) (text_of S name) None) [] [] at)) self.old self.new room.old room.new depth result }
    {
        let came = self.evaluate(right, depth, room);
        if is_left(came) {
            return came;
        }
        self.operated_by(method, m, came, at)
    }

    /// The argument of a call whose receiver is any value. An object whose class has the method is not taken out of the walker for it, nor is a
    /// value that is only compared with nil.
    #[cycle(walk)]
    #[inline(never)]
    pub(super) fn operate_value(
        &mut self,
        came: Came,
        method: Option<Builtin>,
        name: NameId,
        right: &'p Code,
        at: Span,
        depth: u32,
        room: &mut [Value],
    ) -> Came
        requires came { is_left came ≡ false }
        ensures stays { Walked self.old self.new room.old room.new }
        ensures came { Walks (numbered method name (node_fits right.now)) (at_node_then right.now (λ S. Argument (OnReceiver (value_of came self.old.value) (text_of S name) None) [] [] at)) self.old self.new room.old room.new depth result }
    {
        if self.left > 0 && depth < MAX_DEPTH {
            if let Some(target) = self.target_now(came, name) {
                return self.operate_target(target, name, right, at, depth, room);
            }
            if is_nil_asked(method, right) {
                self.left -= 1;
                let answer = nil_came(came, &self.value);
                return self.answer(answer, at);
            }
        }
        let receiver = self.take(came);
        let came = self.walk(right, depth, room);
        if is_left(came) {
            return came;
        }
        let arg = self.take(came);
        match target_of(self.context.script, &receiver, name) {
            Some(target) => self.enter_with(target, arg, at, depth, room),
            None => self.call_with(&receiver, method, arg, at, depth),
        }
    }

    /// The argument of a call of a method of the class of an object, which was found.
    #[cycle(walk)]
    #[inline(always)]
    pub(super) fn operate_target(
        &mut self,
        target: Target<'p>,
        name: NameId,
        right: &'p Code,
        at: Span,
        depth: u32,
        room: &mut [Value],
    ) -> Came
        requires target { IsTarget self.old.context.script.now (me_of (Some target.object)) name target.object target.method.now }
        ensures stays { Walked self.old self.new room.old room.new }
        ensures came { Walks (node_fits right.now) (at_node_then right.now (λ S. Argument (OnReceiver (me_of (Some target.entry.object)) (text_of S name) None) [] [] at)) self.old self.new room.old room.new depth result }
    {
        let came = self.evaluate(right, depth, room);
        if is_left(came) {
            return came;
        }
        if let Some(sum) = self.entered_adding(target, came, depth) {
            return Came::Int(sum);
        }
        if self.base >= room.len() {
            return self.over(Cut::Memory);
        }
        self.move_to(self.base, came, room);
        self.enter(target.method, Some(target.object), 1, at, depth, room)
    }

    /// The argument of a call of a method of an array or a hash.
    #[cycle(walk)]
    #[inline(always)]
    pub(super) fn operate_collection(
        &mut self,
        thing: Ref,
        method: Option<Builtin>,
        name: NameId,
        right: &'p Code,
        at: Span,
        depth: u32,
        room: &mut [Value],
    ) -> Came
        requires alone { HasNone self.old.context.script.now (me_of (Some thing)) name }
        ensures stays { Walked self.old self.new room.old room.new }
        ensures came { Walks (numbered method name (node_fits right.now)) (at_node_then right.now (λ S. Argument (OnReceiver (me_of (Some thing)) (text_of S name) None) [] [] at)) self.old self.new room.old room.new depth result }
    {
        let came = self.evaluate(right, depth, room);
        if is_left(came) {
            return came;
        }
        self.asked_with(thing, method, came, at, depth)
    }

    /// A call with a receiver, without a block. The method that the class of an object has is found while the object is what came.
    // Every caller of `send_target` tests the depth, so that the compiler can leave the test out of that function.
    #[cycle(walk)]
    #[inline(always)]
    pub(super) fn send(
        &mut self,
        method: Option<Builtin>,
        name: NameId,
        receiver: &'p Code,
        args: &'p [Code],
        at: Span,
        depth: u32,
        room: &mut [Value],
    ) -> Came
        ensures stays { Walked self.old self.new room.old room.new }
        ensures came { Walks (numbered method name (both (node_fits receiver.now) (nodes_fit args.now))) (at_node_then receiver.now (λ S. ReceiverOf (text_of S name) (map erase args.now) None at)) self.old self.new room.old room.new depth result }
    {
        let came = self.walk_here(receiver, depth, room);
        if is_left(came) {
            return came;
        }
        if depth < MAX_DEPTH {
            if let Some(target) = self.target_now(came, name) {
                if let Some(read) = self.entered_reader(target, args.len(), depth) {
                    return read;
                }
                return self.send_target(target, name, args, at, depth, room);
            }
        }
        if args.is_empty() {
            if let Some(thing) = self.collection_now(came) {
                return self.asked_alone(thing, method, at, depth);
            }
        }
        let receiver = self.take(came);
        let before = self.base;
        let came = self.arguments(args, depth, room);
        self.base = before;
        if is_left(came) {
            return came;
        }
        self.invoke(&receiver, method, name, args.len(), at, depth, room)
    }

    /// A call of a method of the class of an object, which was found, without a block.
    #[cycle(walk)]
    #[inline(always)]
    pub(super) fn send_target(
        &mut self,
        target: Target<'p>,
        name: NameId,
        args: &'p [Code],
        at: Span,
        depth: u32,
        room: &mut [Value],
    ) -> Came
        requires target { IsTarget self.old.context.script.now (me_of (Some target.object)) name target.object target.method.now }
        ensures stays { Walked self.old self.new room.old room.new }
        ensures came { Walks (nodes_fit args.now) (λ S k sc d n. On (Passing (OnReceiver (me_of (Some target.entry.object)) (text_of S name) None) [] (map erase args.now) at) k sc d n) self.old self.new room.old room.new depth result }
    {
        let before = self.base;
        let came = self.arguments(args, depth, room);
        self.base = before;
        if is_left(came) {
            return came;
        }
        self.enter(
            target.method,
            Some(target.object),
            args.len(),
            at,
            depth,
            room,
        )
    }

    /// An assignment by the call of a method of an array or a hash, with two arguments.
    #[cycle(walk)]
    #[inline(always)]
    pub(super) fn store_element(
        &mut self,
        thing: Ref,
        method: Option<Builtin>,
        name: NameId,
        index: &'p Code,
        value: &'p Code,
        at: Span,
        depth: u32,
        room: &mut [Value],
    ) -> Came
        requires alone { HasNone self.old.context.script.now (me_of (Some thing)) name }
        ensures stays { Walked self.old self.new room.old room.new }
        ensures came { Walks (numbered method name (both (node_fits index.now) (node_fits value.now))) (at_node_then index.now (λ S. Argument (Storing (me_of (Some thing)) (text_of S name)) [] (erase value.now ∷ []) at)) self.old self.new room.old room.new depth result }
    {
        let first = self.evaluate(index, depth, room);
        if is_left(first) {
            return first;
        }
        let index = self.take(first);
        let came = self.evaluate(value, depth, room);
        if is_left(came) {
            return came;
        }
        self.stored(thing, method, index, came, at, depth)
    }

    /// An assignment by the call of a method. An object whose class has it, an array or a hash is not taken out of the walker for it.
    // Every caller of `store_target` tests the depth, so that the compiler can leave the test out of that function.
    #[cycle(walk)]
    #[inline(never)]
    pub(super) fn store_by(
        &mut self,
        method: Option<Builtin>,
        receiver: &'p Code,
        name: NameId,
        args: &'p [Code],
        at: Span,
        depth: u32,
        room: &mut [Value],
    ) -> Came
        ensures stays { Walked self.old self.new room.old room.new }
        ensures came { Walks (numbered method name (both (node_fits receiver.now) (nodes_fit args.now))) (at_node_then receiver.now (λ S. ReceiverToStore (text_of S name) (map erase args.now) at)) self.old self.new room.old room.new depth result }
    {
        let came = self.walk(receiver, depth, room);
        if is_left(came) {
            return came;
        }
        if depth < MAX_DEPTH {
            if let [only] = args {
                if let Some(target) = self.target_now(came, name) {
                    return self.store_target(target, name, only, at, depth, room);
                }
            }
            if let [index, value] = args {
                if let Some(thing) = self.collection_now(came) {
                    return self.store_element(thing, method, name, index, value, at, depth, room);
                }
            }
        }
        let receiver = self.take(came);
        let before = self.base;
        let came = self.arguments(args, depth, room);
        self.base = before;
        if is_left(came) {
            return came;
        }
        match target_of(self.context.script, &receiver, name) {
            Some(target) => self.store_with(target, args.len(), at, depth, room),
            None => self.store_builtin(
                &receiver,
                method,
                passed(room, before, args.len()),
                at,
                depth,
            ),
        }
    }

    /// An assignment by a method of the class of an object, which was found, with one argument.
    #[cycle(walk)]
    #[inline(always)]
    pub(super) fn store_target(
        &mut self,
        target: Target<'p>,
        name: NameId,
        value: &'p Code,
        at: Span,
        depth: u32,
        room: &mut [Value],
    ) -> Came
        requires target { IsTarget self.old.context.script.now (me_of (Some target.object)) name target.object target.method.now }
        ensures stays { Walked self.old self.new room.old room.new }
        ensures came { Walks (node_fits value.now) (at_node_then value.now (λ S. Argument (Storing (me_of (Some target.entry.object)) (text_of S name)) [] [] at)) self.old self.new room.old room.new depth result }
    {
        let came = self.evaluate(value, depth, room);
        if is_left(came) {
            return came;
        }
        if let Some(done) = self.entered_writing(target, came, depth) {
            if is_left(done) {
                return done;
            }
            return came;
        }
        if let Some(done) = self.entered_giving(target, came, depth) {
            return done;
        }
        if self.base >= room.len() {
            return self.over(Cut::Memory);
        }
        self.move_to(self.base, came, room);
        self.store_with(target, 1, at, depth, room)
    }

    /// An assignment by a method that was found, with arguments of which there are so many behind the frame. Its value is the last of them.
    #[cycle(walk)]
    pub(super) fn store_with(
        &mut self,
        target: Target<'p>,
        count: usize,
        at: Span,
        depth: u32,
        room: &mut [Value],
    ) -> Came
        ensures stays { Walked self.old self.new room.old room.new }
        ensures kept { (i : ℕ) → i < self.old.base → slice_get room.new i ≡ slice_get room.old i }
        ensures came { StoresWith (me_of (Some target.entry.object)) target.entry.method.now count at self.old self.new room.old room.new depth result }
    {
        let Ok(last) = last_of(passed(room, self.base, count)) else {
            return self.over(Cut::Memory);
        };
        let came = self.enter_storing(target, count, at, depth, room);
        if is_left(came) {
            return came;
        }
        self.give(last)
    }

    /// A call with a receiver and a block.
    #[cycle(walk)]
    pub(super) fn send_block(
        &mut self,
        method: Option<Builtin>,
        name: NameId,
        receiver: &'p Code,
        args: &'p [Code],
        block: &'p CodeBlock,
        at: Span,
        depth: u32,
        room: &mut [Value],
    ) -> Came
        ensures stays { Walked self.old self.new room.old room.new }
        ensures came { Walks (numbered method name (both (node_fits receiver.now) (both (nodes_fit args.now) (λ S. block_fits S block.now)))) (at_node_then receiver.now (λ S. ReceiverOf (text_of S name) (map erase args.now) (Some (erase_block block.now)) at)) self.old self.new room.old room.new depth result }
    {
        let came = self.walk(receiver, depth, room);
        if is_left(came) {
            return came;
        }
        let receiver = self.take(came);
        let before = self.base;
        let came = self.arguments(args, depth, room);
        self.base = before;
        if is_left(came) {
            return came;
        }
        if let Some(_) = target_of(self.context.script, &receiver, name) {
            return self.raise(Fault::NoMethod, at);
        }
        let args = passed(room, before, args.len());
        match self.iterations(&receiver, method, args, block.params.len(), at) {
            Iterations::Counting(rounds) => {
                self.turns(rounds.first, rounds.last, rounds.answer, block, depth, room)
            }
            Iterations::Elements(array, pass) => {
                self.walk_elements(array, pass, block, at, depth, room)
            }
            Iterations::Pairs(hash) => self.walk_pairs(hash, block, at, depth, room),
            Iterations::Owned(mutex) => self.synchronize(mutex, block, at, depth, room),
            Iterations::Done(came) => came,
        }
    }

    /// The iterations of a block with the integers from the first up to the last, and then the answer.
    #[cycle(walk)]
    pub(super) fn turns(
        &mut self,
        first: i64,
        last: i64,
        answer: i64,
        block: &'p CodeBlock,
        depth: u32,
        room: &mut [Value],
    ) -> Came
        ensures stays { Walked self.old self.new room.old room.new }
        ensures came { Walks (λ S. block_fits S block.now) (λ S k sc d n. On (Turning (Counting first (last +ℤ pos 1) (Int answer)) (erase_block block.now)) k sc d n) self.old self.new room.old room.new depth result }
    {
        if first > last {
            return Came::Int(answer);
        }
        let from = block.from as usize;
        let count = block.count as usize;
        if room.len() < from || room.len() - from < count {
            return self.over(Cut::Memory);
        }
        let takes = !block.params.is_empty();
        let mut next = first;
        'turns: loop {
            if self.left == 0 {
                return self.over(Cut::Steps);
            }
            self.left -= 1;
            start_block(room, from, count, takes, next);
            let came = self.body(block.body.as_slice(), depth, room);
            if !self.goes_on(came) {
                return self.out_of_loop(came);
            }
            if next >= last {
                return Came::Int(answer);
            }
            next += 1;
        }
    }

    /// A call of a top-level method.
    #[cycle(walk)]
    pub(super) fn function(
        &mut self,
        number: u32,
        name: NameId,
        args: &'p [Code],
        at: Span,
        depth: u32,
        room: &mut [Value],
    ) -> Came
        requires alone { HasNone self.old.context.script.now (me_of self.old.context.me) name }
        ensures stays { Walked self.old self.new room.old room.new }
        ensures came { Walks (called number name (nodes_fit args.now)) (λ S k sc d n. On (Passing (ByName name) [] (map erase args.now) at) k sc d n) self.old self.new room.old room.new depth result }
    {
        let script = self.context.script.script();
        let Some(method) = script.functions.get(number as usize) else {
            return self.over(Cut::Memory);
        };
        let before = self.base;
        let came = self.arguments(args, depth, room);
        self.base = before;
        if is_left(came) {
            return came;
        }
        self.enter(method, None, args.len(), at, depth, room)
    }

    /// A call by the name of a method that prints: one of the class of `self` goes before it.
    #[cycle(walk)]
    pub(super) fn begin_print(
        &mut self,
        form: Form,
        name: NameId,
        args: &'p [Code],
        at: Span,
        depth: u32,
        room: &mut [Value],
    ) -> Came
        ensures stays { Walked self.old self.new room.old room.new }
        ensures came { Walks (printing form name (nodes_fit args.now)) (λ S k sc d n. On (Passing (ByName name) [] (map erase args.now) at) k sc d n) self.old self.new room.old room.new depth result }
    {
        match self.own_target(name) {
            Some(target) => self.own(target, name, args, at, depth, room),
            None => self.print(form, name, args, at, depth, room),
        }
    }

    /// A call of `puts`, `print` or `p`.
    #[cycle(walk)]
    pub(super) fn print(
        &mut self,
        form: Form,
        name: NameId,
        args: &'p [Code],
        at: Span,
        depth: u32,
        room: &mut [Value],
    ) -> Came
        requires alone { HasNone self.old.context.script.now (me_of self.old.context.me) name }
        ensures stays { Walked self.old self.new room.old room.new }
        ensures came { Walks (printing form name (nodes_fit args.now)) (λ S k sc d n. On (Passing (ByName name) [] (map erase args.now) at) k sc d n) self.old self.new room.old room.new depth result }
    {
        let before = self.base;
        let came = self.arguments(args, depth, room);
        self.base = before;
        if is_left(came) {
            return came;
        }
        if let Form::Inspect = form {
            return self.inspect_values(passed(room, before, args.len()), at, depth);
        }
        if let Some(style) = style_by(form, passed(room, before, args.len())) {
            return self.print_texts(style, args.len(), at, depth, room);
        }
        let shown = self.show(form, passed(room, before, args.len()), at);
        if is_left(shown) {
            return shown;
        }
        Came::Nil
    }

    /// The arguments, each behind the frame and in it from then on.
    #[cycle(walk)]
    #[inline(always)]
    pub(super) fn arguments(&mut self, args: &'p [Code], depth: u32, room: &mut [Value]) -> Came
        ensures base { is_left result ≡ false → self.new.base ≡ self.old.base + length args.now }
        ensures rises { self.old.base ≤ self.new.base }
        ensures fits { self.old.base ≤ length room.old → self.new.base ≤ length room.new }
        ensures context { self.new.context ≡ self.old.context }
        ensures room { length room.new ≡ length room.old }
        ensures less { self.new.left ≤ self.old.left }
        ensures kept { Kept (nodes_fit args.now) self.old room.old room.new }
        ensures came { Passes args.now self.old self.new room.old room.new depth result }
    {
        'each: for arg in args {
            if self.base < room.len() && self.left > 0 && depth < MAX_DEPTH {
                if let Some(n) = small(arg, room) {
                    put(room, self.base, n);
                    self.left -= 1;
                    self.base += 1;
                    continue 'each;
                }
                if let Some(value) = local_at(arg, room) {
                    if let Ok(copy) = value.share() {
                        room[self.base] = copy;
                        self.left -= 1;
                        self.base += 1;
                        continue 'each;
                    }
                }
            }
            let came = self.evaluate_call(arg, depth, room);
            if is_left(came) {
                return came;
            }
            if self.base >= room.len() {
                return self.over(Cut::Memory);
            }
            self.move_to(self.base, came, room);
            self.base += 1;
        }
        Came::Nil
    }

    /// A text. One that is written out as a whole is shared.
    #[cycle(walk)]
    #[inline(always)]
    pub(super) fn literal(
        &mut self,
        pieces: &'p [CodePiece],
        at: Span,
        depth: u32,
        room: &mut [Value],
    ) -> Came
        ensures stays { Walked self.old self.new room.old room.new }
        ensures came { Walks (λ S. every (map (piece_fits S) pieces.now)) (λ S k sc d n. On (Joining [] (map erase_piece pieces.now) at) k sc d n) self.old self.new room.old room.new depth result }
    {
        match written(pieces) {
            Some(text) => self.share_text(text),
            None => self.text(pieces, at, depth, room),
        }
    }

    /// A text, joined of its pieces.
    #[cycle(walk)]
    #[inline(never)]
    pub(super) fn text(
        &mut self,
        pieces: &'p [CodePiece],
        at: Span,
        depth: u32,
        room: &mut [Value],
    ) -> Came
        ensures stays { Walked self.old self.new room.old room.new }
        ensures came { Walks (λ S. every (map (piece_fits S) pieces.now)) (λ S k sc d n. On (Joining [] (map erase_piece pieces.now) at) k sc d n) self.old self.new room.old room.new depth result }
    {
        let mut bytes = Vec::new(self.context.alloc);
        'pieces: for piece in pieces {
            match piece {
                CodePiece::Text(text) => {
                    if let Err(_) = add_bytes(&mut bytes, text.as_slice()) {
                        return self.over(Cut::Memory);
                    }
                }
                CodePiece::Code(code) => {
                    let came = self.walk(code, depth, room);
                    if is_left(came) {
                        return came;
                    }
                    let told = self.told(came, at, depth, room);
                    if is_left(told) {
                        return told;
                    }
                    let value = self.take(told);
                    if let Err(_) = add_value(
                        self.context.alloc,
                        &mut bytes,
                        self.context.program,
                        value,
                    ) {
                        return self.over(Cut::Memory);
                    }
                }
            }
            if bytes.len() > MAX_BYTES {
                return self.raise(Fault::TextTooLong, at);
            }
        }
        match SharedText::from_vec(self.context.alloc, bytes) {
            Ok(text) => self.give(Value::Str(text)),
            Err(_) => self.over(Cut::Memory),
        }
    }
}
