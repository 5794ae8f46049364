// The first faults of texts.

ghost use Rattle.std.specs.Prelude.{◌≡◌};
ghost use Rattle.rb_checker.specs.Findings.{Faults, no_faults, joined, firsts};

use crate::fault::CheckFault;
use crate::first::first_of_two;

/// The first faults that were found, by rule: what is misplaced, parameters that stand twice, unsettled captures, and instance
/// variables that are too many.
#[derive(Clone, Copy, Debug, PartialEq, Eq)]
pub(crate) struct Found {
    pub misplaced: Option<CheckFault>,
    pub params: Option<CheckFault>,
    pub unsettled: Option<CheckFault>,
    pub fields: Option<CheckFault>,
}

impl Found {
    /// Where nothing is looked at yet.
    pub(crate) fn none() -> Found
        ensures { result ≡ firsts no_faults }
    {
        Found {
            misplaced: None,
            params: None,
            unsettled: None,
            fields: None,
        }
    }

    /// With what was found in texts behind.
    pub(crate) fn and(self, later: Found) -> Found
        ensures { (a b : Faults) → self ≡ firsts a → later ≡ firsts b → result ≡ firsts (joined a b) }
    {
        Found {
            misplaced: first_of_two(self.misplaced, later.misplaced),
            params: first_of_two(self.params, later.params),
            unsettled: first_of_two(self.unsettled, later.unsettled),
            fields: first_of_two(self.fields, later.fields),
        }
    }

    /// With the first instance variable that is one too many.
    pub(crate) fn with_fields(self, fields: Option<CheckFault>) -> Found
        ensures misplaced { result.misplaced ≡ self.misplaced }
        ensures params { result.params ≡ self.params }
        ensures unsettled { result.unsettled ≡ self.unsettled }
        ensures fields { result.fields ≡ fields }
    {
        Found { fields, ..self }
    }
}
