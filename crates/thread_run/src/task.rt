// What a thread is to do.

ghost use Rattle.std.specs.Prelude.{◌≡◌};
ghost use Rattle.rb_thread.specs.Family.{number_of};
ghost use Rattle.thread_run.specs.Tasks.{job_in, refs_in};

use rb_model::Ref;
use rb_thread::Job;

/// What a thread is to do: the main one the top level of the script, another its job.
#[derive(Drop)]
pub enum Task {
    Main,
    Body(Job),
}

impl Task {
    /// The number of the thread.
    pub fn number(&self) -> u64
        ensures { result ≡ number_of (job_in self.now) }
    {
        match self {
            Task::Main => 0,
            Task::Body(job) => job.number,
        }
    }

    /// The references to shared things that it knows by its job.
    pub fn refs(&self) -> &[Ref]
        ensures { result.now ≡ refs_in self.now }
    {
        match self {
            Task::Main => &[],
            Task::Body(job) => job.refs.as_slice(),
        }
    }
}
