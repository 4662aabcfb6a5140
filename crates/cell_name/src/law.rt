//! The laws of cells, for whoever wants to rest on them.

ghost use Rattle.cell_name.specs.Laws.{OneCellHolds, TestIsHolding, ParentHolds, ParentHoldsPlaces, AncestorHolds, ChildrenTile, ParentOfChild, TouchesIsMeeting, TouchesIsReflexive, TouchesIsSymmetric, ParentTouches, ParentsTouch, AncestorTouches, OffsetIsSmall, CentresDifferBySides, PairIsTwoOrThreeApart, PlacesAreASideApart, OffsetIsLarge};

/// Cells, their places, parents and children.
pub fn cells_tile_the_grid()
    ensures one { OneCellHolds }
    ensures test { TestIsHolding }
    ensures parent { ParentHolds }
    ensures places_of_parent { ParentHoldsPlaces }
    ensures ancestor { AncestorHolds }
    ensures children { ChildrenTile }
    ensures parent_of_child { ParentOfChild }
    ensures offset { OffsetIsSmall }
{}

/// What touching is, and how it passes to parents.
pub fn touching_passes_to_parents()
    ensures meeting { TouchesIsMeeting }
    ensures reflexive { TouchesIsReflexive }
    ensures symmetric { TouchesIsSymmetric }
    ensures parent { ParentTouches }
    ensures parents { ParentsTouch }
    ensures ancestor { AncestorTouches }
{}

/// How far cells that don't touch are apart.
pub fn cells_that_do_not_touch_are_apart()
    ensures centres { CentresDifferBySides }
    ensures two_or_three { PairIsTwoOrThreeApart }
    ensures places { PlacesAreASideApart }
    ensures offset { OffsetIsLarge }
{}
