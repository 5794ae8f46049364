//! The place that an index names.

ghost use Rattle.std.specs.Prelude.{◌≡◌};
ghost use Rattle.array_strategy.specs.Elements.{place_of};

/// The place that an index names in an array of this length; a negative one counts from the end.
#[inline(always)]
pub(crate) fn place_at(index: i64, len: usize) -> Option<usize>
    ensures { result ≡ place_of index len }
{
    match usize::try_from(index) {
        Ok(place) => Some(place),
        Err(_) => len.checked_sub(index.unsigned_abs() as usize),
    }
}
