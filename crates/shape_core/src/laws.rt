// The laws of shapes.

ghost use Rattle.shape_core.specs.Laws as law;

/// Each place is given once, and the next one is always beyond those that were given.
pub fn places_given_once()
    ensures next { law.GivesNextPlace }
    ensures below { law.StandsBelowNext }
    ensures once { law.GivesOnce }
{}

/// Two names do not stand at one place.
pub fn names_apart()
    ensures { law.StandsApart }
{}

/// A name stands at a place exactly where its path adds it.
pub fn found_where_added()
    ensures { law.StandsWhereAdded }
{}

/// A name is added once, and widened at most once.
pub fn edges_once()
    ensures adds { law.AddsOnce }
    ensures widens { law.WidensOnce }
{}

/// A place that a widening left is never again the place of a name, however the path goes on.
pub fn retired_for_good()
    ensures { law.RetiresForGood }
{}

/// However a path goes on, only its own widening moves a name.
pub fn stays()
    ensures { law.Stays }
{}

/// Two shapes of a store are one exactly where their numbers are.
pub fn ids_are_shapes()
    ensures { law.IdsAreShapes }
{}

/// Two shapes are the same, edge by edge, exactly where they are one.
pub fn same_are_one()
    ensures { law.SameAreOne }
{}

/// A list that gains a shape is the list with it: as it was where it had the shape, and else with it behind.
pub fn gains_is_with()
    ensures { law.GainsIsWith }
{}
