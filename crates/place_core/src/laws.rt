ghost use Rattle.place_core.specs.place.JoinLaws.{BelowIsOrder, HasGrows, JoinHas, JoinIsAbove, JoinIsLeast, JoinKeepsValid};
ghost use Rattle.place_core.specs.place.JoinLaws.{JoinSame, JoinSwapped, Conflict};

/// Two places that are below a third one join, and what they join to is below it. A theorem; the call does nothing at run time.
pub fn join_is_least()
    ensures { JoinIsLeast }
{}

/// Both places are below what they join to. A theorem; the call does nothing at run time.
pub fn join_is_above()
    ensures { JoinIsAbove }
{}

/// A place joins itself, and stays as it is. A theorem; the call does nothing at run time.
pub fn join_same()
    ensures { JoinSame }
{}

/// Two places join to the same in both orders. A theorem; the call does nothing at run time.
pub fn join_swapped()
    ensures { JoinSwapped }
{}

/// Each place is below itself, what is below a place is below each one above that, and two places that are below one another are
/// the same. A theorem; the call does nothing at run time.
pub fn below_is_order()
    ensures { BelowIsOrder }
{}

/// The join of two valid places is valid. A theorem; the call does nothing at run time.
pub fn join_keeps_valid()
    ensures { JoinKeepsValid }
{}

/// What two places join to has the members of both, and no others. A theorem; the call does nothing at run time.
pub fn join_has()
    ensures { JoinHas }
{}

/// What is above a place has its members. A theorem; the call does nothing at run time.
pub fn has_grows()
    ensures { HasGrows }
{}

/// Two valid places that do not join have two members that show it: no two valid places below them that have these members join.
/// Where names of attributes of two kinds clash, these are the places in or after the names. A theorem; the call does nothing at run time.
pub fn conflict()
    ensures { Conflict }
{}
