// What a thread is to do.

use rb_model::{Ref, Value};

/// What a thread that is started is to do: its number, the body that it runs, the values that this is given, and the references to shared
/// things that it knows by that.
#[derive(Drop)]
pub struct Job {
    pub number: u64,
    pub body: u32,
    pub values: Vec<Value>,
    pub refs: Vec<Ref>,
}
