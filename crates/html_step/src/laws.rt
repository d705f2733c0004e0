ghost use Rattle.html_step.specs.Apart.{ApartLaws};
ghost use Rattle.html_step.specs.Laws.{AcceptsText, CoversText, FromText, GrowsText, OneBefore, OneText, TextEvidence, ValidText};

/// From the place of one path a step over a text is the path's own: it is taken exactly where the path is not refused in the text, and
/// leads to the path's place after it; else it tells by which code the path is refused, at which byte, and its place before that. A
/// theorem; the call does nothing at run time.
pub fn one_path()
    ensures { OneText }
{}

/// From the place of one path the place that is shown before a byte is the path's own, up to the byte that is refused. A theorem; the call
/// does nothing at run time.
pub fn one_path_before()
    ensures { OneBefore }
{}

/// Each path that a place stands for comes to one for which the place after the text stands. A theorem; the call does nothing at run time.
pub fn covers_paths()
    ensures { CoversText }
{}

/// Each member of the place after a text comes from one member of the place before it, on every path that bears that one. A theorem; the
/// call does nothing at run time.
pub fn members_come_from_one()
    ensures { FromText }
{}

/// Where a text is refused there is a member so that every path that bears it is refused, by that code at that byte; or there are two
/// so that any two paths that bear them are refused together. A theorem; the call does nothing at run time.
pub fn refusal_has_evidence()
    ensures { TextEvidence }
{}

/// Where a text is accepted no path that the place stands for is refused, and no two are refused together. A theorem; the call does nothing
/// at run time.
pub fn accepts_all_paths()
    ensures { AcceptsText }
{}

/// A valid place below another one accepts what that one accepts, and comes to a place below. A theorem; the call does nothing at run time.
pub fn keeps_order()
    ensures { GrowsText }
{}

/// A valid place comes to a valid one. A theorem; the call does nothing at run time.
pub fn keeps_valid()
    ensures { ValidText }
{}

/// What says of a place that two of its paths met apart in the beginning of a URL is kept by texts and joins, ends at a hole, and comes
/// from where they met, or came apart within a text. A theorem; the call does nothing at run time.
pub fn paths_that_met_apart()
    ensures { ApartLaws }
{}
