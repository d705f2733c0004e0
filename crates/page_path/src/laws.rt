ghost use Rattle.page_path.specs.Laws.{PagesAreSound, PagesGoByTheChart, PagesOfOnePathHaveOneShape};
ghost use Rattle.page_path.specs.Laws.{SoundPagesHaveTheShapeOfTheirPath, SoundPagesReadWithTheirTexts};

use css_lexer::{strings_read_back, values_read_back_in_code, values_stay_in_urls};
use js_lexer::{data_are_plain, texts_read_back};

/// The page of a root of a set that has a chart is sound, whatever the datum, whose written texts are UTF-8, where the execution comes to
/// its end: it has the shape of the path whose choices the execution took, each value is plain in its place and reads back there, and the
/// page as bytes alone reads as that path, with each mark filled by its value. A theorem; the call does nothing at run time.
pub fn pages_are_sound()
    ensures { PagesAreSound }
{
    values_read_back_in_code();
    strings_read_back();
    values_stay_in_urls();
    data_are_plain();
    texts_read_back();
}

/// A sound page has the shape of the path that its execution takes, however it is read with a mark in the place of each value. A theorem;
/// the call does nothing at run time.
pub fn sound_pages_have_the_shape_of_their_path()
    ensures { SoundPagesHaveTheShapeOfTheirPath }
{}

/// A sound page reads, as bytes alone, as its path does with the text of each value in its hole, where no hole of the path is in a data
/// block, a URL, a style or a script. A theorem; the call does nothing at run time.
pub fn sound_pages_read_with_their_texts()
    ensures { SoundPagesReadWithTheirTexts }
{}

/// A writer that goes by the chart may be given every event of an execution, and writes what the page has for it: of a text what is written
/// at the chart's place before it, and of a value what the sanitizer of that place gives. A theorem; the call does nothing at run time.
pub fn pages_go_by_the_chart()
    ensures { PagesGoByTheChart }
{}

/// Two data, whose written texts are UTF-8, with which the executions of a root come to their end and make the same choices have pages of one
/// shape: no value of theirs changes it. A theorem; the call does nothing at run time.
pub fn pages_of_one_path_have_one_shape()
    ensures { PagesOfOnePathHaveOneShape }
{
    pages_are_sound();
}
