// What a thread is told, and what it tells the threads that it starts.

ghost use Rattle.std.specs.Prelude.{◌≡◌, ◌≤◌, ◌<◌, ◌++◌, [], length, vec_len, vec_capacity};
ghost use Rattle.std.specs.Option.{option_to_list};
ghost use Rattle.rb_model.specs.Moving.{refs_in, refs_in_all};
ghost use Rattle.publish_barrier.specs.Known.{NotesOf};
ghost use Rattle.publish_barrier.specs.Sorts.{all_noted_same};
ghost use Rattle.rb_thread.specs.Handing.{refs_told, served_as};

use publish_barrier::Known;
use rb_model::{Ref, Served, Value};
use rb_shared::Answer;

/// Notes what an answer tells, where there is memory for it, and hands it on.
pub(crate) fn take_in(known: &mut Known, answer: Answer) -> Served
    ensures served { result ≡ served_as answer }
    ensures noted { NotesOf known.old.refs (refs_told answer) known.new.refs }
{
    match answer {
        Answer::Done(reply) => {
            // What is not noted for want of memory cannot be asked anything later, which is want of memory then.
            let _ = known.note_reply(&reply);
            Served::Done(reply)
        }
        Answer::Full { used, asked } => Served::Full { used, asked },
        // Never, as the sink's failure comes of prints alone.
        Answer::SinkFailed => Served::Memory,
        Answer::Memory => Served::Memory,
    }
}

/// One more, where there is one. There is room for it.
fn add(refs: &mut Vec<Ref>, found: Option<Ref>)
    requires room { vec_len refs.old < vec_capacity refs.old }
    ensures added { refs.new.items ≡ refs.old.items ++ option_to_list found }
    ensures room { vec_capacity refs.old ≤ vec_capacity refs.new }
{
    let Some(thing) = found else {
        return;
    };
    match refs.push(thing) {
        Ok(()) => {}
        // Never, as there is room.
        Err(_) => {}
    }
}

/// The noted reference to what a value mentions, where there is one.
fn find_into(known: &Known, value: &Value, refs: &mut Vec<Ref>)
    requires room { vec_len refs.old < vec_capacity refs.old }
    ensures found { refs.new.items ≡ refs.old.items ++ all_noted_same known.now.refs (refs_in value.now) }
    ensures room { vec_capacity refs.old ≤ vec_capacity refs.new }
{
    match value {
        Value::Ref(thing) => add(refs, known.find_same(*thing)),
        _ => {}
    }
}

/// The noted references to what values mention. Takes no memory, as there is room for as many as there are values.
pub(crate) fn found_in(known: &Known, values: &[Value], room: Vec<Ref>) -> Vec<Ref>
    requires empty { room.items ≡ [] }
    requires room { length values.now ≤ vec_capacity room }
    ensures { result.items ≡ all_noted_same known.now.refs (refs_in_all values.now) }
{
    let mut refs = room;
    let mut at = 0;
    'values: while at < values.len() {
        find_into(known, &values[at], &mut refs);
        at += 1;
    }
    refs
}
