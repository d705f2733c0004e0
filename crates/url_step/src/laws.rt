ghost use Rattle.url_step.specs.PartLaws.{CoversParts, CoversUrls, IsExactOnOnePart};
ghost use Rattle.url_step.specs.PartLaws.{PartsAgree, PartsGrow, PartsStayValid};
ghost use Rattle.url_step.specs.PartOrigins.{ColonIsShown, HoleIsShown, PartsComeFrom};
ghost use Rattle.url_step.specs.PartOrigins.{PartsComeFromHole};
ghost use Rattle.url_step.specs.TextLaws.{IsExactOnOneText, TextsComeFrom, TextsCover};
ghost use Rattle.url_step.specs.TextLaws.{TextsGrow, TextsStayValid};

/// On the set of one path, what a byte of text and a hole make of it and what is refused is the path's own. A theorem; the call does
/// nothing at run time.
pub fn is_exact_on_one_part()
    ensures { IsExactOnOnePart }
{}

/// Where a set refuses nothing, no part in it is refused, and each comes to a part in the next set. A theorem; the call does
/// nothing at run time.
pub fn covers_parts()
    ensures { CoversParts }
{}

/// Where a set refuses nothing, no two parts in it are refused together. A theorem; the call does nothing at run time.
pub fn parts_agree()
    ensures { PartsAgree }
{}

/// A set below one that is accepted is accepted, and comes to one below. A theorem; the call does nothing at run time.
pub fn parts_grow()
    ensures { PartsGrow }
{}

/// Each part behind a byte comes from a part before, on whatever path of the set is there. A theorem; the call does nothing at run
/// time.
pub fn parts_come_from()
    ensures { PartsComeFrom }
{}

/// Each part behind a hole comes from a part before, on whatever path is there. A theorem; the call does nothing at run time.
pub fn parts_come_from_hole()
    ensures { PartsComeFromHole }
{}

/// A `:` that is refused is refused on each path behind a hole, or the set says that prefixes differ. A theorem; the call does
/// nothing at run time.
pub fn colon_is_shown()
    ensures { ColonIsShown }
{}

/// A hole that is refused is refused on each path in one part of the set, or on any two in two parts of it. A theorem; the call
/// does nothing at run time.
pub fn hole_is_shown()
    ensures { HoleIsShown }
{}

/// The same of a whole path, whose part is in the set, at a byte, at a hole and at the end of a node. A theorem; the call does
/// nothing at run time.
pub fn covers_urls()
    ensures { CoversUrls }
{}

/// A set that has a part comes to sets that have one, and no more of a word is spelled than it has. A theorem; the call does nothing at run time.
pub fn parts_stay_valid()
    ensures { PartsStayValid }
{}

/// Where a set accepts the characters of a text, a set below it accepts them, and comes to one below. A theorem; the call does nothing
/// at run time.
pub fn texts_grow()
    ensures { TextsGrow }
{}

/// On the set of one path, whose text begins in no percent triple, what characters come to is the path's own, and so is what is
/// refused of them, where, and the part before it. A theorem; the call does nothing at run time.
pub fn is_exact_on_one_text()
    ensures { IsExactOnOneText }
{}

/// Where a set accepts the characters of a text, each path in it whose text begins in no percent triple is refused neither in them nor
/// at their end, and its part behind them is in the set there. A theorem; the call does nothing at run time.
pub fn texts_cover()
    ensures { TextsCover }
{}

/// Each part behind the characters of a text that are accepted comes from a part before, on whatever path of the set is there. A
/// theorem; the call does nothing at run time.
pub fn texts_come_from()
    ensures { TextsComeFrom }
{}

/// The characters of a text bring a valid set to valid ones, and the parts that are shown with a refusal are valid. A theorem; the
/// call does nothing at run time.
pub fn texts_stay_valid()
    ensures { TextsStayValid }
{}
