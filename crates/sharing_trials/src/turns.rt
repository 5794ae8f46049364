// The store, called by two threads that really run.

ghost use Rattle.std.specs.Prelude.{◌≡◌, ℕ, true, false, [], is_some, IfSome};
ghost use Rattle.rb_model.specs.Log.{asked};
ghost use Rattle.rb_shared.specs.Asking.{MayAsk};
ghost use Rattle.rb_shared.specs.Threads.{AllGathered};
ghost use Rattle.rb_shared.specs.View.{first_view, known_logs, to_globals};
ghost use Rattle.turn_store.specs.Calls.{started_in};
ghost use Rattle.sharing_trials.specs.Turns.{IsAsBefore, IsPlain, IsReady, Leaves};

use rb_edge::MemorySink;
use rb_model::{Act, Call, End, Id, Moved, Ref, Reply, SharedText, Sort, Value};
use rb_shared::{Answer, ClosingStore, Quick, SharedStore};
use rb_tree::NameId;
use std::alloc::{AllocError, Global};
use std::sync::Wait;
use std::test::Fail;
use std::thread::{Threads, join, yield_now};
use turn_store::TurnStore;

/// How far the threads count.
const LAST: i64 = 20;

/// The global variables.
fn globals() -> Ref
    ensures { result ≡ to_globals }
{
    Ref {
        sort: Sort::Object(u32::MAX),
        id: Id {
            thread: 0,
            serial: 0,
        },
        at: 0,
    }
}

/// Makes a call that moves nothing, as a thread does.
fn ask<S: SharedStore, R: Wait>(
    rt: &R,
    alloc: Global,
    store: &S,
    pass: &mut S::Pass,
    call: &Call,
) -> Answer
    requires of { S.of pass.old ≡ S.id store.now }
    requires going { (S.view pass.old).ended ≡ false }
    requires may { MayAsk (S.view pass.old) call.now [] }
    ensures of { S.of pass.new ≡ S.id store.now }
    ensures leaves { Leaves (S.view pass.old) call.now result (S.view pass.new) }
{
    store.poll(rt, pass);
    if let Quick::Done(reply) = store.quick(pass, 1, call) {
        return Answer::Done(reply);
    }
    let mut moved = Moved::new(alloc);
    store.call(rt, pass, 1, call, &mut moved)
}

/// The same, with what a thread that goes on needs.
fn ask_plain<S: SharedStore, R: Wait>(
    rt: &R,
    alloc: Global,
    store: &S,
    pass: &mut S::Pass,
    call: &Call,
) -> Answer
    requires of { S.of pass.old ≡ S.id store.now }
    requires ready { IsReady (S.view pass.old) }
    requires plain { IsPlain call.now }
    ensures of { S.of pass.new ≡ S.id store.now }
    ensures ready { IsReady (S.view pass.new) }
    ensures same { IsAsBefore (S.view pass.old) (S.view pass.new) }
{
    ask(rt, alloc, store, pass, call)
}

/// The number in a global variable, or 0 where it has none.
fn number<S: SharedStore, R: Wait>(rt: &R, alloc: Global, store: &S, pass: &mut S::Pass) -> i64
    requires of { S.of pass.old ≡ S.id store.now }
    requires ready { IsReady (S.view pass.old) }
    ensures of { S.of pass.new ≡ S.id store.now }
    ensures ready { IsReady (S.view pass.new) }
    ensures same { IsAsBefore (S.view pass.old) (S.view pass.new) }
{
    let call = Call::On(globals(), Act::GetField(NameId(7)));
    match ask_plain(rt, alloc, store, pass, &call) {
        Answer::Done(Reply::Value(Value::Int(n))) => n,
        _ => 0,
    }
}

/// Counts one further and prints a letter.
fn count<S: SharedStore, R: Wait>(
    rt: &R,
    alloc: Global,
    store: &S,
    pass: &mut S::Pass,
    next: i64,
    letter: &Call,
)
    requires of { S.of pass.old ≡ S.id store.now }
    requires ready { IsReady (S.view pass.old) }
    requires plain { IsPlain letter.now }
    ensures of { S.of pass.new ≡ S.id store.now }
    ensures ready { IsReady (S.view pass.new) }
    ensures same { IsAsBefore (S.view pass.old) (S.view pass.new) }
{
    let call = Call::On(globals(), Act::SetField(NameId(7), Value::Int(next)));
    ask_plain(rt, alloc, store, pass, letter);
    ask_plain(rt, alloc, store, pass, &call);
}

/// Counts each number that is the thread's to count, up to the last.
fn work<S: SharedStore, R: Wait>(
    rt: &R,
    alloc: Global,
    store: &S,
    mut pass: S::Pass,
    odd: i64,
    letter: &Call,
) -> S::Pass
    requires of { S.of pass ≡ S.id store.now }
    requires ready { IsReady (S.view pass) }
    requires plain { IsPlain letter.now }
    ensures of { S.of result ≡ S.id store.entry.now }
    ensures ready { IsReady (S.view result) }
    ensures same { IsAsBefore (S.view pass) (S.view result) }
{
    'turns: for _ in rt.forever() {
        let n = number(rt, alloc, store, &mut pass);
        if n >= LAST {
            break;
        }
        if n >= 0 && n % 2 == odd {
            count(rt, alloc, store, &mut pass, n + 1, letter);
        } else {
            yield_now();
        }
    }
    pass
}

/// The same, and the thread ends.
fn work_and_end<S: SharedStore, R: Wait>(
    rt: &R,
    alloc: Global,
    store: &S,
    pass: S::Pass,
    letter: &Call,
) -> S::Pass
    requires of { S.of pass ≡ S.id store.now }
    requires ready { IsReady (S.view pass) }
    requires plain { IsPlain letter.now }
    ensures of { S.of result ≡ S.id store.entry.now }
    ensures ended { (S.view result).ended ≡ true }
    ensures same { IsAsBefore (S.view pass) (S.view result) }
{
    let mut pass = work(rt, alloc, store, pass, 1, letter);
    ask(rt, alloc, store, &mut pass, &Call::End(End::Steps));
    pass
}

/// Whether a thread was started.
fn is_started(answer: &Answer) -> bool
    ensures { result ≡ is_some (started_in answer.now) }
{
    match answer {
        Answer::Done(Reply::Started(_, _)) => true,
        _ => false,
    }
}

/// The main thread starts another, both count in turns, and the main one takes the other's pass in and ends. How far they came.
fn count_in_turns<S: SharedStore, R: Threads + Wait + Sync>(
    rt: &R,
    alloc: Global,
    store: &S,
    mut pass: S::Pass,
    letter: &Call,
) -> Option<(i64, S::Pass)>
    requires of { S.of pass ≡ S.id store.now }
    requires first { (n : ℕ) × (S.view pass ≡ first_view n) }
    requires plain { IsPlain letter.now }
    ensures of { IfSome result (λ r. S.of r.1 ≡ S.id store.entry.now) }
    ensures ended { IfSome result (λ r. (S.view r.1).ended ≡ true) }
    ensures gathered { IfSome result (λ r. ((S.view r.1).thread ≡ 0) × AllGathered (known_logs (S.view r.1))) }
{
    let body = Id {
        thread: 0,
        serial: (1 << 63) + 1,
    };
    let start = Call::Start(body, 0, Vec::new(alloc));
    let answer = ask(rt, alloc, store, &mut pass, &start);
    if !is_started(&answer) {
        return None;
    }
    let child = store.split(&mut pass);
    let (mut mine, theirs) = join(
        rt,
        move || -> S::Pass
            requires { (S.of pass ≡ S.id store.now) × IsReady (S.view pass) × IsPlain letter.now }
            ensures { (S.of result ≡ S.id store.entry.now) × IsReady (S.view result) × IsAsBefore (S.view pass) (S.view result) }
        { work(rt, alloc, store, pass, 0, letter) },
        move || -> S::Pass
            requires { (S.of child ≡ S.id store.now) × IsReady (S.view child) × IsPlain letter.now }
            ensures { (S.of result ≡ S.id store.entry.now) × ((S.view result).ended ≡ true) × IsAsBefore (S.view child) (S.view result) }
        { work_and_end(rt, alloc, store, child, letter) },
    );
    store.join(&mut mine, theirs);
    let counted = number(rt, alloc, store, &mut mine);
    ask(rt, alloc, store, &mut mine, &Call::End(End::Steps));
    Some((counted, mine))
}

/// What two threads counted to, and how many of the letters that this call prints.
fn counted<R: Threads + Wait + Sync>(
    rt: &R,
    alloc: Global,
    letter: &Call,
) -> Result<(i64, usize), AllocError>
    requires { IsPlain letter.now }
{
    let out = MemorySink::new(alloc, Vec::new(alloc), 100)?;
    let Ok((store, pass)) = TurnStore::new(alloc, out, 2) else {
        return Err(AllocError);
    };
    let Some((counted, pass)) = count_in_turns(rt, alloc, &store, pass, letter) else {
        return Err(AllocError);
    };
    let closed = store.close(pass);
    Ok((counted, closed.out.bytes().len()))
}

/// The same of the letter a.
fn two_threads<R: Threads + Wait + Sync>(
    rt: &R,
    alloc: Global,
) -> Result<(i64, usize), AllocError> {
    let letter = Call::Print(SharedText::from_slice(alloc, b"a")?);
    counted(rt, alloc, &letter)
}

#[test]
fn two_threads_count_and_print_in_turns(rt: HostRuntime) -> Result<(), Fail> {
    let (counted, letters) = two_threads(&rt, rt.alloc())?;
    assert_eq!(rt; counted, LAST);
    assert_eq!(rt; letters, LAST as usize);
    Ok(())
}
