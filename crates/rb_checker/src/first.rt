// The fault that counts.

ghost use Rattle.std.specs.Prelude.{◌≡◌};
ghost use Rattle.rb_checker.specs.Fault as spec;

use crate::fault::CheckFault;

/// Where a fault stands, and its number among the refusals of a script.
fn rank(fault: CheckFault) -> (u32, u8)
    ensures place { result.0 ≡ spec.place_of fault }
    ensures number { result.1 ≡ spec.number_of fault }
{
    match fault {
        CheckFault::UnknownName(at) => (at.from, 9),
        CheckFault::UnknownClass(at) => (at.from, 10),
        CheckFault::TwiceDefined(at) => (at.from, 11),
        CheckFault::UnsettledCapture(at) => (at.from, 12),
        CheckFault::TooManyFields(at) => (at.from, 13),
        CheckFault::TooManyClasses(at) => (at.from, 14),
        CheckFault::BreakOutside(at) => (at.from, 15),
        CheckFault::SelfOutside(at) => (at.from, 16),
    }
}

/// Of two faults the one that counts: the first in the text, at one place that of the lower number.
pub(crate) fn first_of_two(one: Option<CheckFault>, other: Option<CheckFault>) -> Option<CheckFault>
    ensures { result ≡ spec.first_of_two one other }
{
    match (one, other) {
        (None, found) => found,
        (Some(first), None) => Some(first),
        (Some(first), Some(second)) => {
            let (place, number) = rank(first);
            let (other_place, other_number) = rank(second);
            if other_place < place || other_place == place && other_number < number {
                Some(second)
            } else {
                Some(first)
            }
        }
    }
}
