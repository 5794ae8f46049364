// What threads share of a script.

ghost use Rattle.std.specs.Prelude.{◌≡◌};

use rb_code::CodeScript;
use rb_tree::Program;
use shared_script::Shared;

/// A script that threads share: a program, and what it is resolved to.
pub trait Scripted {
    ghost use Rattle.rb_code.specs.declared.scripted.CodeScript.{CodeScript as Resolved};
    ghost use Rattle.rb_tree.specs.declared.node.Program.{Program as Tree};

    ghost tree: { Self → Tree };

    ghost resolved: { Self → Resolved };

    /// The program.
    fn program(&self) -> &Program
        ensures { result.now ≡ tree self.now };

    /// The resolved script.
    fn code(&self) -> &CodeScript
        ensures { result.now ≡ resolved self.now };
}

impl Scripted for Shared<'_> {
    ghost tree = { λ s. s.program.now };

    ghost resolved = { λ s. s.code.now };

    fn program(&self) -> &Program {
        self.program
    }

    fn code(&self) -> &CodeScript {
        self.code
    }
}
