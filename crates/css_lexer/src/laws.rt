ghost use Rattle.css_lexer.specs.Laws.{StyleLaws};
ghost use Rattle.css_lexer.specs.ReadBack.{StringsReadBack, ValuesReadBackInCode};
ghost use Rattle.css_lexer.specs.StaysInUrl.{ValuesStayInUrls};
ghost use Rattle.css_lexer.specs.Urls.{urls};
ghost use Rattle.css_lexer.specs.WrittenLaws.{StyleWrittenLaws};
ghost use Rattle.url_lexer.specs.Events.{UrlEvent};
ghost use Rattle.url_lexer.specs.States.{Url};

use url_lexer::url_language_has_laws;

/// Styles have the laws of a language of values: where a page's state is alike to the path's, it tells the same of
/// each byte that the path does not refuse, of the end of the value and before a hole, and stays alike: over such
/// bytes, over the end of a node that is not refused, and over a hole whose bytes are plain. A theorem; the call does
/// nothing at run time.
pub fn style_language_has_laws()
    ensures { StyleLaws Url UrlEvent urls }
{
    url_language_has_laws();
}

/// In the element `style`, what is written of a text keeps the page beside the path: where it stands so before a byte
/// that is not refused, the end of a node that is not refused or the end of the element, it stands so behind what is
/// written, and tells the same; so a comment of the template is one blank for both. A theorem; the call does nothing
/// at run time.
pub fn what_is_written_reads_alike()
    ensures { StyleWrittenLaws Url UrlEvent urls }
{
    url_language_has_laws();
}

/// What is written of a value between tokens, in words and plain text, and behind a `/`, is plain there, whatever the
/// text; it is the text with its escapes undone, or the failsafe. A theorem; the call does nothing at run time.
pub fn values_read_back_in_code()
    ensures { ValuesReadBackInCode urls }
{}

/// What is written of a value in a string is plain there, whatever the text, and stands for the text behind its escapes,
/// with U+FFFD for NUL. A theorem; the call does nothing at run time.
pub fn strings_read_back()
    ensures { StringsReadBack urls }
{}

/// What is written of a value in any part of a URL stays in its url token, with quotes and without, whatever the text.
/// A theorem; the call does nothing at run time.
pub fn values_stay_in_urls()
    ensures { ValuesStayInUrls urls }
{}
