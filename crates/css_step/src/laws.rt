ghost use Rattle.css_step.specs.StyleCharacterLaws.{IsExactOnOneStyleText};
ghost use Rattle.css_step.specs.StyleCharacterLaws.{StyleCharactersComeFrom, StyleTextsCover};
ghost use Rattle.css_step.specs.StyleCharacterLaws.{StyleTextsGrow, StyleTextsStayValid};
ghost use Rattle.css_step.specs.StyleOrigins.{StyleRefusalIsShown, StylesComeFrom};
ghost use Rattle.css_step.specs.StyleOrigins.{StylesComeFromHole};
ghost use Rattle.css_step.specs.StyleScanLaws.{IsExactOnOneStyle};
ghost use Rattle.css_step.specs.StyleSetLaws.{CoversStyles, EmptyTextsKeepStyles, StylesGrow};
ghost use Rattle.css_step.specs.StyleTexts.{StyleTextsComeFrom};
ghost use Rattle.css_step.specs.StyleValidity.{StylesAgree, StylesStayValid};

/// From the place of one path, what a byte of text, the end of a node and a hole make of it and what is refused is the path's own; and
/// where a text may begin and the path has a place, one at that place begins in its scan state. A theorem; the call does nothing at run time.
pub fn is_exact_on_one_style()
    ensures { IsExactOnOneStyle }
{}

/// Where nothing is refused, no path at the place is refused, and each comes to the place behind the byte, the end of the node and the
/// hole. A theorem; the call does nothing at run time.
pub fn covers_styles()
    ensures { CoversStyles }
{}

/// A text of no bytes keeps the place, and its end is not refused; and where `is_start` is true, and nowhere else, a text begins with that
/// scan state, at its place. A theorem; the call does nothing at run time.
pub fn empty_texts_keep_styles()
    ensures { EmptyTextsKeepStyles }
{}

/// What a place accepts, each place below it accepts, and the places behind are one below the other. A theorem; the call does nothing at
/// run time.
pub fn styles_grow()
    ensures { StylesGrow }
{}

/// Two paths in one URL have spelled the same at a `:` that is accepted, and are in one part of it at a hole that is. A theorem; the call
/// does nothing at run time.
pub fn styles_agree()
    ensures { StylesAgree }
{}

/// Sets of parts of a URL come to such sets. A theorem; the call does nothing at run time.
pub fn styles_stay_valid()
    ensures { StylesStayValid }
{}

/// Each member behind a byte comes from one before, on whatever path bears that one, and each path from one. A theorem; the call does
/// nothing at run time.
pub fn styles_come_from()
    ensures { StylesComeFrom }
{}

/// Likewise at the end of a node and at a hole. A theorem; the call does nothing at run time.
pub fn styles_come_from_hole()
    ensures { StylesComeFromHole }
{}

/// What is refused is refused on each path that bears some member of the place, or on any two that bear two, or the place says that the
/// prefixes of a URL differ. A theorem; the call does nothing at run time.
pub fn style_refusal_is_shown()
    ensures { StyleRefusalIsShown }
{}

/// The same of a whole text: each member behind it comes from one of the place where it begins, and what is refused behind it is refused
/// on paths at that place. A theorem; the call does nothing at run time.
pub fn style_texts_come_from()
    ensures { StyleTextsComeFrom }
{}

/// From the place of one path, where a text begins as on the path, what characters come to is the path's own place, and so is what is
/// refused of them, where, and the place before it. A theorem; the call does nothing at run time.
pub fn is_exact_on_one_style_text()
    ensures { IsExactOnOneStyleText }
{}

/// Where a place accepts the characters of a text, a place below it accepts them, and comes to one below. A theorem; the call does
/// nothing at run time.
pub fn style_texts_grow()
    ensures { StyleTextsGrow }
{}

/// Where a place accepts the characters of a text, no path at it is refused in them or at their end, and each comes to a place below the
/// one behind them. A theorem; the call does nothing at run time.
pub fn style_texts_cover()
    ensures { StyleTextsCover }
{}

/// The characters of a text bring a valid place to valid ones, and the place that is shown with a refusal is valid. A theorem; the call
/// does nothing at run time.
pub fn style_texts_stay_valid()
    ensures { StyleTextsStayValid }
{}

/// Each member of the place behind characters that end with the node comes from a member before, on whatever path at the place bears
/// it. A theorem; the call does nothing at run time.
pub fn style_characters_come_from()
    ensures { StyleCharactersComeFrom }
{}
