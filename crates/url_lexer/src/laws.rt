ghost use Rattle.url_lexer.specs.ClashesAreJoined.{ClashesAreJoined};
ghost use Rattle.url_lexer.specs.CodeSchemes.{CodeIsBad};
ghost use Rattle.url_lexer.specs.Laws.{UrlLanguageLaws};
ghost use Rattle.url_lexer.specs.Pages.{PagesHaveSchemes};
ghost use Rattle.url_lexer.specs.QueryIsRead.{QueryIsRead};
ghost use Rattle.url_lexer.specs.SchemeOf.{SchemeIsRead};
ghost use Rattle.url_lexer.specs.SpotsAlike.{SpotsAlike};
ghost use Rattle.url_lexer.specs.TriplesAreWhole.{TriplesAreWhole};
ghost use Rattle.url_lexer.specs.Written.{WrittenIsPlain, WrittenReadsBack};
ghost use Rattle.url_lexer.specs.WrittenPages.{WrittenPagesHaveSchemes};

/// Where a page's state of a URL is alike to the path's, it emits the same of each byte that the path does not refuse, of the
/// URL's end and before a hole, and stays alike: over such bytes, over the end of a node that is not refused, and over a hole
/// whose bytes are plain. A theorem; the call does nothing at run time.
pub fn url_language_has_laws()
    ensures { UrlLanguageLaws }
{}

/// Reading byte by byte finds the scheme of the bytes: what stands before the first `:` that no `/`, `?` or `#` precedes. A
/// theorem; the call does nothing at run time.
pub fn scheme_is_read()
    ensures { SchemeIsRead }
{}

/// Where a path refuses nothing and the values are plain, the scheme of the whole page is the one that the texts of the path
/// have; or, where a hole is the first of the URL, it is none, `http`, `https` or `mailto`. A theorem; the call does nothing at
/// run time.
pub fn pages_have_schemes()
    ensures { PagesHaveSchemes }
{}

/// A text without holes is in the part that no hole may follow exactly where its scheme is `javascript`, `vbscript` or `data`. A
/// theorem; the call does nothing at run time.
pub fn code_is_bad()
    ensures { CodeIsBad }
{}

/// What the sanitizers of a part write for a value is plain there, for any bytes and in any state of a page that is alike to the
/// path's. A theorem; the call does nothing at run time.
pub fn written_is_plain()
    ensures { WrittenIsPlain }
{}

/// What the sanitizers of a part write for a value reads back, for any bytes: with percent triples undone it is the value with
/// its own undone; in the query it is the value; and where a hole is the first of a URL it is the failsafe exactly where the
/// filter says. A theorem; the call does nothing at run time.
pub fn written_reads_back()
    ensures { WrittenReadsBack }
{}

/// Where a path refuses nothing, and the bytes of each hole are what the sanitizers of its part write for some value, the scheme
/// of the whole page is the one that the texts of the path have; or, where a hole is the first of the URL, it is none, `http`,
/// `https` or `mailto`. A theorem; the call does nothing at run time.
pub fn written_pages_have_schemes()
    ensures { WrittenPagesHaveSchemes }
{}

/// A text without holes whose scheme is no code is in the query exactly where one of its bytes is `?` or `#`. A theorem; the call
/// does nothing at run time.
pub fn query_is_read()
    ensures { QueryIsRead }
{}

/// Where a page's state of a URL is alike to the path's, its place is that of the path. A theorem; the call does nothing at run
/// time.
pub fn spots_are_alike()
    ensures { SpotsAlike }
{}

/// Where a path refuses nothing and the values are plain, no percent triple of the page lies over the edge of a hole or the end of
/// a node: undoing all triples of the page is undoing those of each piece. A theorem; the call does nothing at run time.
pub fn triples_are_whole()
    ensures { TriplesAreWhole }
{}

/// Where two paths go one common way, the part that stands for both, moved by each byte and joined with what they are then, has a
/// prefix that says that they differ exactly where a `:` would clash. A theorem; the call does nothing at run time.
pub fn clashes_are_joined()
    ensures { ClashesAreJoined }
{}
