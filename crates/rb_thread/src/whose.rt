// Whose a thread's store is.

use std::marker::Brand;

/// Whose a thread's store is. It stays so whatever is done with the store, since it is part of its type.
pub trait Whose {
    ghost use Rattle.std.specs.Prelude.{ℕ};
    ghost use Rattle.atomic_table.specs.Seated.{TableId};
    ghost use Rattle.rb_machine.specs.Scopes.{Script};
    ghost use Rattle.rb_thread.specs.Family.{Job};

    /// Which shared store it belongs to.
    ghost id: { TableId };

    /// The script, and how many steps each thread may make.
    ghost script: { Script };

    ghost steps: { ℕ };

    /// What the thread is to do.
    ghost job: { Job };
}

impl Whose for Brand {
    ghost use Rattle.rb_thread.specs.Whose.{no_table, no_script};
    ghost use Rattle.rb_thread.specs.Family.{Main};

    ghost id = { no_table };

    ghost script = { no_script };

    ghost steps = { 0 };

    ghost job = { Main };
}
