ghost use Rattle.place_laws.specs.ShownErrors.{EveryConflictIsShown, JoinsAreShown, RefusalsAreShown};

/// Where something that is derived from the roots of a set is in conflict, there is a showing of an
/// error of one of these roots which is none of an end. A theorem; the call does nothing at run time.
pub fn every_conflict_is_shown()
    ensures { EveryConflictIsShown }
{}

/// Where an edge is refused on a path of a root, on two that meet before it or on two that met
/// apart, there is a showing of an error of that root which is none of an end. A theorem; the call
/// does nothing at run time.
pub fn refusals_are_shown()
    ensures { RefusalsAreShown }
{}

/// Where two paths of a root come together in places that do not join, at the head of a range or
/// after the parts of a control, there is a showing of that error. A theorem; the call does nothing
/// at run time.
pub fn joins_are_shown()
    ensures { JoinsAreShown }
{}
