// The locals of a text, and sets of them.

ghost use Rattle.std.specs.Prelude.{◌≡◌, ◌||◌, OnOk};
ghost use Rattle.rb_checker.specs.Locals as spec;
ghost use Rattle.rb_checker.specs.Walked.{is_known};
ghost use Rattle.rb_checker.specs.declared.locals.Local.{Local as Named};

use std::alloc::AllocError;
use std::collections::HashSet;

/// A local: the number of its name, and the place of the block whose scope it belongs to; none for the scope of a method or of the
/// top level.
#[derive(Clone, Copy, Debug, PartialEq, Eq, Hash)]
pub struct Local {
    pub name: u32,
    pub scope: Option<u32>,
}

/// How a local is used.
#[derive(Clone, Copy, Debug, PartialEq, Eq)]
pub enum Usage {
    Assigned,
    Param,
    Read,
}

/// A local, and how it is used.
#[derive(Clone, Copy, Debug, PartialEq, Eq)]
pub(crate) struct Used {
    pub usage: Usage,
    pub local: Local,
}

impl Usage {
    /// Whether a value is given to the local.
    pub(crate) fn assigns(self) -> bool
        ensures { result ≡ spec.assigns self }
    {
        match self {
            Usage::Read => false,
            Usage::Assigned | Usage::Param => true,
        }
    }
}

/// Whether a local is in a set.
pub(crate) fn has_local(set: &HashSet<Local>, local: Local) -> bool
    ensures { result ≡ is_known set.now local }
{
    set.contains(&local)
}

/// Adds a local, where it is not there.
#[tactic(auto, using(crate::proofs::Knowing::same_local_swapped))]
pub(crate) fn add_local(set: &mut HashSet<Local>, local: Local) -> Result<(), AllocError>
    ensures { OnOk result ((other : Named) → is_known set.new other ≡ (spec.same_local other local || is_known set.old other)) }
{
    if let Err(_) = set.insert(local) {
        return Err(AllocError);
    }
    Ok(())
}
