// What leaves a private store.

ghost use Rattle.std.specs.Prelude.{◌≡◌, ◌++◌, List, Some};
ghost use Rattle.rb_model.specs.Acts.{Act};
ghost use Rattle.rb_model.specs.Moving.{items_of};
ghost use Rattle.rb_model.specs.Private.{Item, Leaves, Private, acted, entered, held};
ghost use Rattle.rb_model.specs.Things.{Thing};
ghost use Rattle.rb_model.specs.Values.{Value};
ghost use Rattle.rb_model.specs.declared.moved.MovedItem.{MovedItem};
ghost use Rattle.rb_model.specs.declared.value.Id.{Id};
ghost use Rattle.rb_shared.specs.Lists.{Each};
ghost use Rattle.publish_barrier.specs.Absent.{AreFirst, HasLeft, StayLeft};
ghost use Rattle.publish_barrier.specs.Leaving.{AllOut, ArePrivate, EndsIn, IsEnd, ItemsOut, SomeLeave, without};
ghost use Rattle.publish_barrier.specs.Reach.{Reaches, item_ids};

/// Laws, which run nothing. What leaves with values is one list, and what is left is one store: the store without these things. Each
/// of them was private in its turn, and they are what the values reach. Something always leaves. Behind that, nothing that left and
/// nothing that was handed over mentions what is private: each mentions what was not private before, or what left with it.
pub fn laws_of_leaving()
    ensures one { (h k l : Private) (vs : List Value) (ms ns : List Item) → Leaves h vs ms k → Leaves h vs ns l → (ms ≡ ns) × (k ≡ l) }
    ensures rest { (h k : Private) (vs : List Value) (ms : List Item) → Leaves h vs ms k → k ≡ without h ms }
    ensures private { (h k : Private) (vs : List Value) (ms : List Item) → Leaves h vs ms k → ArePrivate h ms }
    ensures reach { (h k : Private) (vs : List Value) (ms : List Item) → Leaves h vs ms k → Reaches h vs (item_ids ms) }
    ensures total { (h : Private) (vs : List Value) → SomeLeave h vs }
    ensures out { (h k : Private) (vs : List Value) (ms : List Item) → Leaves h vs ms k → AllOut k vs × ItemsOut k ms }
    ensures ends { (h k : Private) (vs : List Value) (ms : List Item) → Leaves h vs ms k → Each (IsEnd h ms) vs × Each (EndsIn h ms) ms }
{}

/// Laws, which run nothing. What has left does not come back: not behind other things that leave, not by a new thing, and not by an act.
/// So nothing moves that has left.
pub fn laws_of_absence()
    ensures left { (h k : Private) (vs : List Value) (ms : List Item) → Leaves h vs ms k → Each (λ (m : Item). HasLeft k m.id) ms }
    ensures behind { (h k : Private) (vs : List Value) (ms : List Item) → Leaves h vs ms k → StayLeft h k }
    ensures entered { (h : Private) (thing : Thing) → StayLeft h (entered h thing) }
    ensures acted { (h : Private) (id : Id) (act : Act) (thing : Thing) → held h id ≡ Some thing → StayLeft h (acted h id act thing) }
    ensures first { (h k : Private) (vs : List Value) (ms : List MovedItem) → Leaves h vs (items_of ms) k → AreFirst h ms }
{}
