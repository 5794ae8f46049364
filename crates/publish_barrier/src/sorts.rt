// What references say that their things are.

ghost use Rattle.std.specs.Prelude.{◌≡◌, true};
ghost use Rattle.rb_model.specs.Moving.{sort_of_thing};
ghost use Rattle.publish_barrier.specs.Sorts.{same_sort};

use rb_model::{Sort, Thing};

/// Whether two sorts are the same.
pub(crate) fn is_same_sort(a: Sort, b: Sort) -> bool
    ensures exact { result ≡ same_sort a b }
    ensures same { result ≡ true → a ≡ b }
{
    match a {
        Sort::Object(m) => match b {
            Sort::Object(n) => m == n,
            _ => false,
        },
        Sort::List => matches!(b, Sort::List),
        Sort::Pairs => matches!(b, Sort::Pairs),
        Sort::Mutex => matches!(b, Sort::Mutex),
        Sort::Thread => matches!(b, Sort::Thread),
    }
}

/// What a reference to a thing says that it is.
pub(crate) fn sort_of(thing: &Thing) -> Sort
    ensures { result ≡ sort_of_thing thing.now }
{
    match thing {
        Thing::Object(class, _) => Sort::Object(*class),
        Thing::Elements(_) => Sort::List,
        Thing::Pairs(_) => Sort::Pairs,
        Thing::Mutex(_) => Sort::Mutex,
        Thing::Thread(_) => Sort::Thread,
    }
}
