ghost use Rattle.html_step.specs.HoleLaws.{AcceptsHole, CoversHole, FromHole, GrowsEscape, GrowsHole, OneHole, EscapeEvidence, HoleEvidence, ValidHole};

/// From the place of one path a step over a hole is the path's own: it leads to the path's place after the hole, or the hole is
/// refused on the path. A theorem; the call does nothing at run time.
pub fn hole_of_one_path()
    ensures { OneHole }
{}

/// Each path that a place stands for comes to one for which the place after the hole stands, and has the same chain there. A theorem; the
/// call does nothing at run time.
pub fn hole_covers_paths()
    ensures { CoversHole }
{}

/// Each member of the place after a hole comes from one member of the place before it, on every path that bears that one. A theorem; the
/// call does nothing at run time.
pub fn hole_members_come_from_one()
    ensures { FromHole }
{}

/// Where a hole is refused there is a member so that it is refused on every path that bears it; or there are two so that it is refused
/// on any two paths that bear them. A theorem; the call does nothing at run time.
pub fn refused_hole_has_evidence()
    ensures { HoleEvidence }
{}

/// Where a hole is accepted it is refused on no path that the place stands for, and on no two of them. A theorem; the call does nothing at
/// run time.
pub fn accepts_hole_on_all_paths()
    ensures { AcceptsHole }
{}

/// A valid place below another one accepts a hole where that one does, with the same chain, and comes to a place below. A theorem; the call
/// does nothing at run time.
pub fn hole_keeps_order()
    ensures { GrowsHole }
{}

/// A valid place comes to a valid one after a hole. A theorem; the call does nothing at run time.
pub fn hole_keeps_valid()
    ensures { ValidHole }
{}

/// An escaper that may be named at a place may be named at every valid place below it. A theorem; the call does nothing at run time.
pub fn escapers_keep_order()
    ensures { GrowsEscape }
{}

/// Where an escaper may not be named there is a member so that it may not at any valid place below that has the member, and so on no
/// path that bears it. A theorem; the call does nothing at run time.
pub fn refused_escaper_has_evidence()
    ensures { EscapeEvidence }
{}
