// The laws of parents and of places. These functions do nothing: each carries a law in its contract.
ghost use Rattle.survey.specs.Laws.{ParentsAreTheTrees, PlacesAreTheTrees};

pub fn parents_are_the_trees()
    ensures { ParentsAreTheTrees }
{}

pub fn places_are_the_trees()
    ensures { PlacesAreTheTrees }
{}
