ghost use Rattle.place_core.specs.page.Tags.{ValueState, languages};
ghost use Rattle.text_norm.specs.FilledReadings.{FilledPathsAreReadings, ReadingsAreFilledPaths};
ghost use Rattle.text_norm.specs.FillingLaws.{PagesFillPaths};
ghost use Rattle.text_norm.specs.HoleLaws.{KeepsHole};
ghost use Rattle.text_norm.specs.Laws.{KeepsShape, WrittenOnPaths};
ghost use Rattle.text_norm.specs.StandsLaws.{PagesReadAsPaths, StandsAtStart, StandsSomewhere, StandsWhereNothingIsPending, EmitsTheSame};
ghost use Rattle.text_norm.specs.ValueLaws.{ValueLanguageLaws};

/// The language of the values that are read so far has the laws of one: where a page's state of it is alike to the path's, it emits the
/// same of each byte that the path does not refuse, of the end of the value and before a hole, and stays alike. A theorem; the call does
/// nothing at run time.
pub fn value_language_has_laws()
    ensures { ValueLanguageLaws ValueState languages }
{}

/// For a text that is accepted at a place the same is written on every path that the place contains. A theorem; the call does nothing
/// at run time.
pub fn written_on_paths()
    ensures { WrittenOnPaths }
{}

/// What is written of a text keeps the shape: where a page's reading corresponds to a path before the text, it corresponds to it after
/// what is written, having emitted the same. A theorem; the call does nothing at run time.
pub fn keeps_shape()
    ensures { KeepsShape }
{}

/// The bytes that its chain gives for a hole are plain in their place, and keep the shape: where a page's reading corresponds to a
/// path before the hole, it corresponds to it after these bytes, having emitted the same, with the hole's mark in the place of what they
/// emit. A theorem; the call does nothing at run time.
pub fn keeps_shape_at_holes()
    ensures { KeepsHole }
{}

/// Where a path and its page begin, in text and with nothing emitted, the page's reading corresponds to the path. A theorem; the call
/// does nothing at run time.
pub fn stands_at_start()
    ensures { StandsAtStart }
{}

/// Pieces are read one after another: texts, and holes with what their chains promise, each accepted in its place. Where a page's
/// reading corresponds to a path before them, what is written for them leads it to a state that corresponds to the path after them, and
/// each of their holes is plain. So on every such path from its start the page's reading is somewhere. A theorem; the call does nothing at
/// run time.
pub fn stands_somewhere()
    ensures { StandsSomewhere }
{}

/// Where a page's reading corresponds to a path that is at a place, as it is after each text and each hole, it has emitted what the path
/// has. A theorem; the call does nothing at run time.
pub fn emits_the_same()
    ensures { EmitsTheSame }
{}

/// Where a page's reading corresponds to a path that is in no URL and no style, and nothing is pending, it is in the path's very state, and
/// has emitted the same. So it is at the place text, where pages end. A theorem; the call does nothing at run time.
pub fn stands_where_nothing_is_pending()
    ensures { StandsWhereNothingIsPending }
{}

/// A page of pieces that are accepted from text to text reads as their path, each hole as a mark: it comes to where the path comes, which
/// is in text, and to nothing else. So its shape is the path's own. A theorem; the call does nothing at run time.
pub fn pages_read_as_paths()
    ensures { PagesReadAsPaths }
{}

/// A page of pieces that are accepted from text to text, read as bytes alone, without knowing where values begin and end, ends in text and
/// emits what its path emits, but in the place of each mark the events of its value, and of a URL whose scheme data may choose none,
/// `http`, `https` or `mailto`. A theorem; the call does nothing at run time.
pub fn pages_fill_paths()
    ensures { PagesFillPaths }
{}

/// A page that fills its path with texts reads, as bytes alone, as the path does with these texts in its holes, where none of them is in a
/// data block, a URL, a style or a script. A theorem; the call does nothing at run time.
pub fn filled_paths_are_readings()
    ensures { FilledPathsAreReadings }
{}

/// A page that reads, as bytes alone, as its path does with texts in its holes fills the path with these texts, where the text determines
/// what fills each mark. A theorem; the call does nothing at run time.
pub fn readings_are_filled_paths()
    ensures { ReadingsAreFilledPaths }
{}
