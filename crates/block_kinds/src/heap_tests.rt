// Words are taken to the last one, and prints are made in turn.

ghost use Rattle.std.specs.Prelude.{◌≡◌, true, false, []};
ghost use Rattle.rb_model.specs.Log.{asked, is_print};
ghost use Rattle.rb_model.specs.Moving.{items_of};
ghost use Rattle.heap_core.specs.Heaps.{IsOf, SameHeap, holder};
ghost use Rattle.heap_core.specs.Turning.{IsBare};

use heap_core::{Act, Heap, HeapPass, Take};
use rb_edge::{MemorySink, Sink};
use rb_model::{Call, End, Moved, SharedText};
use rb_shared::Answer;
use std::alloc::{AllocError, Global};
use std::sync::Wait;
use std::test::Fail;

/// What two calls for words are answered in turn on a new heap of 4,096 words.
fn answers<R: Wait>(
    rt: &R,
    alloc: Global,
    first: u64,
    second: u64,
) -> Result<(Take, Take), AllocError> {
    let out = MemorySink::new(alloc, Vec::new(alloc), 0)?;
    let Ok((heap, mut pass)) = Heap::new(alloc, 4096, 1, out) else {
        return Err(AllocError);
    };
    let one = heap.take(rt, &mut pass, first, None);
    let two = heap.take(rt, &mut pass, second, None);
    Ok((one, two))
}

#[test]
fn words_are_taken_to_the_last_one(rt: HostRuntime) -> Result<(), Fail> {
    let alloc = rt.alloc();
    let rows = [
        (3968, 1, Take::Got(128), Take::Full(4096)),
        (3969, 3968, Take::Full(128), Take::Got(128)),
        (3967, 1, Take::Got(128), Take::Got(4095)),
        (0, 0, Take::Got(128), Take::Got(128)),
        (u64::MAX, 1, Take::Full(128), Take::Got(128)),
    ];
    for (first, second, one, two) in rows {
        let found = answers(&rt, alloc, first, second)?;
        assert_eq!(rt; found, (one, two));
    }
    Ok(())
}

/// Whether a print is done in a turn of its own.
fn is_printed<K: Sink, R: Wait>(rt: &R, heap: &Heap<K>, pass: &mut HeapPass, act: &Act) -> bool
    requires of { IsOf heap.now pass.old }
    requires print { is_print (asked act.now.call.now) ≡ true }
    requires moves_none { items_of act.now.moved.now ≡ [] }
    requires going { (holder pass.old).view.ended ≡ false }
    requires bare { IsBare (holder pass.old) }
    ensures of { SameHeap pass.old pass.new }
    ensures going { (holder pass.new).view.ended ≡ false }
    ensures thread { (holder pass.new).view.thread ≡ (holder pass.old).view.thread }
    ensures bare { IsBare (holder pass.new) }
{
    let turn = heap.turn_in(rt, pass);
    match heap.turn_print(pass, turn, act) {
        Answer::Done(_) => true,
        _ => false,
    }
}

/// Which of two prints are done on a new heap whose sink fails at this call. The turn is taken and given back before them, and the thread
/// ends behind them.
fn two_prints<R: Wait>(rt: &R, alloc: Global, failing: u64) -> Result<(bool, bool), AllocError> {
    let call = Call::Print(SharedText::from_slice(alloc, b"ab")?);
    let moved = Moved::new(alloc);
    let act = Act {
        step: 1,
        call: &call,
        moved: &moved,
        text: None,
    };
    let out = MemorySink::new(alloc, vec![in alloc; failing]?, 100)?;
    let Ok((heap, mut pass)) = Heap::new(alloc, 4096, 1, out) else {
        return Err(AllocError);
    };
    let turn = heap.turn_in(rt, &mut pass);
    heap.turn_out(&mut pass, turn);
    let one = is_printed(rt, &heap, &mut pass, &act);
    let two = is_printed(rt, &heap, &mut pass, &act);
    let end = Call::End(End::Steps);
    let act = Act { call: &end, ..act };
    let turn = heap.turn_in(rt, &mut pass);
    heap.turn_end(&mut pass, turn, 0, &act);
    Ok((one, two))
}

#[test]
fn a_sink_that_failed_takes_no_print(rt: HostRuntime) -> Result<(), Fail> {
    let alloc = rt.alloc();
    let rows = [(0, (true, true)), (1, (false, false)), (2, (true, false))];
    for (failing, done) in rows {
        let found = two_prints(&rt, alloc, failing)?;
        assert_eq!(rt; found, done);
    }
    Ok(())
}
