ghost use Rattle.std.specs.Prelude.{◌≡◌};
ghost use Rattle.measure.specs.Limits.{most_of};

use page_datum::MAX_LENGTH;
use tpl_token::MAX_TEXT;

/// What is done with an input.
#[derive(Clone, Copy, Debug, PartialEq, Eq)]
pub enum Measured {
    /// Its tokens are read.
    Tokens,
    /// It is parsed, as a template file.
    Parse,
    /// It is parsed and its templates are gathered.
    Gather,
    /// The same, and then the chart of its templates is inferred.
    Infer,
    /// It is sanitized for text.
    Html,
    /// It is sanitized for an unquoted value.
    AttrNospace,
    /// It is sanitized for a URL in which no scheme can end any more.
    UrlNorm,
    /// Its characters are read with references undone, as the value of an attribute.
    Characters,
    /// It is stepped, from text to the place after it.
    Steps,
    /// It is written as a page gets it, from text.
    Written,
    /// It is read as data, which are printed.
    Data,
    /// A template with a hole for each item of it is executed.
    Turns,
    /// A template that calls itself is executed.
    Calls,
    /// A template that looks up each key of it is executed.
    Keys,
    /// A set of pages is made of it, as its only file, and its page is made once.
    Page,
    /// The same, but the page is made 101 times.
    Pages,
    /// The page of a template with it as data: each item of it has a comment that the whole of it would be in.
    Dropped,
    /// The same, with a tag that the whole of it would name an attribute of.
    Names,
    /// The same, with a condition on all of it but one item.
    Slices,
    /// It is read as requests, one after another, and each is answered by the number of a set.
    Requests,
    /// It is the bytes of a link, on which requests for a small page are answered.
    Link,
    /// Viewers look at a desk that publishes sets, each as often as the input may have bytes.
    Looks,
    /// The same, but the set is behind a lock.
    Locks,
}

/// What an input is made of.
#[derive(Clone, Copy, Debug, PartialEq, Eq)]
pub enum Input {
    /// Text without actions.
    Text,
    /// `{{` and nothing else, which is refused, from 4 bytes on at the third one.
    Open,
    /// One action with one long string.
    String,
    /// The action `{{.}}`, again and again.
    Actions,
    /// Definitions, each with a name of its own.
    Definitions,
    /// Characters that a sanitizer writes as references, again and again.
    Markup,
    /// References, again and again.
    References,
    /// Tags with an attribute, again and again.
    Tags,
    /// A list of numbers.
    Numbers,
    /// A list with one long string.
    Texts,
    /// A list of empty lists.
    Lists,
    /// An object, whose keys differ.
    Objects,
    /// Sections of a page, each with a hole in a value and with a choice.
    Sections,
    /// The same, and then a tag whose name would end in a value, which is refused.
    RefusedSections,
    /// Sections of a page of two kinds in turn, one with a hole, one with a list.
    PageSections,
    /// Tags with a URL as the value of an attribute, which has a reference and a percent triple, again and again.
    Urls,
    /// Links, each with a value as its path and one in its query, again and again.
    Links,
    /// Tags with declarations of CSS, of which two properties have a value of data, again and again.
    Styles,
    /// Elements `style`, of which one property has a value of data, again and again.
    StyleElements,
    /// Tags with a script as the value of an attribute, which has a value of data in its code, one in a string and one in a regular
    /// expression, again and again.
    Scripts,
    /// Elements `script`, each with a value of data in its code, one in a string and one in a regular expression, again and again.
    ScriptElements,
    /// Variables; after each one the one with half its number is used.
    Variables,
    /// Templates, each of which calls the next one in eight places.
    Chain,
    /// Templates, each of which calls the next one where it stands, and of which the first one is called in eight places.
    Pairs,
    /// Ranges in ranges, each with a tag of its own.
    Nests,
    /// Ranges in ranges in a value without quotes, so that each has one place before its first turn and another one after it.
    Values,
    /// Requests of 8 fields without a body, again and again.
    Heads,
    /// A request with a body that takes almost all bytes.
    Body,
    /// Requests for a small page, again and again.
    PageRequests,
    /// Small pages, each with one hole.
    SmallPages,
    /// Nothing; one thread looks.
    One,
    /// Nothing; four threads look.
    Four,
}

/// What the words ask for.
#[derive(Clone, Copy, Debug, PartialEq, Eq)]
pub struct Measurement {
    pub call: Measured,
    pub input: Input,
    /// The most bytes that the input may have, or how often each thread looks.
    pub size: usize,
}

/// What a word asks for: a call, and an input.
pub fn words_named(word: &str) -> Option<(Measured, Input)> {
    match word {
        "tokens-text" => Some((Measured::Tokens, Input::Text)),
        "tokens-open" => Some((Measured::Tokens, Input::Open)),
        "tokens-string" => Some((Measured::Tokens, Input::String)),
        "tokens-actions" => Some((Measured::Tokens, Input::Actions)),
        "parse-text" => Some((Measured::Parse, Input::Text)),
        "parse-actions" => Some((Measured::Parse, Input::Actions)),
        "parse-definitions" => Some((Measured::Parse, Input::Definitions)),
        "gather-sections" => Some((Measured::Gather, Input::Sections)),
        "gather-chain" => Some((Measured::Gather, Input::Chain)),
        "gather-pairs" => Some((Measured::Gather, Input::Pairs)),
        "gather-nested" => Some((Measured::Gather, Input::Nests)),
        "gather-values" => Some((Measured::Gather, Input::Values)),
        "infer-sections" => Some((Measured::Infer, Input::Sections)),
        "infer-refused" => Some((Measured::Infer, Input::RefusedSections)),
        "infer-chain" => Some((Measured::Infer, Input::Chain)),
        "infer-pairs" => Some((Measured::Infer, Input::Pairs)),
        "infer-nested" => Some((Measured::Infer, Input::Nests)),
        "infer-values" => Some((Measured::Infer, Input::Values)),
        "html-text" => Some((Measured::Html, Input::Text)),
        "html-markup" => Some((Measured::Html, Input::Markup)),
        "nospace-text" => Some((Measured::AttrNospace, Input::Text)),
        "nospace-markup" => Some((Measured::AttrNospace, Input::Markup)),
        "norm-text" => Some((Measured::UrlNorm, Input::Text)),
        "norm-markup" => Some((Measured::UrlNorm, Input::Markup)),
        "characters-text" => Some((Measured::Characters, Input::Text)),
        "characters-references" => Some((Measured::Characters, Input::References)),
        "steps-text" => Some((Measured::Steps, Input::Text)),
        "steps-tags" => Some((Measured::Steps, Input::Tags)),
        "steps-urls" => Some((Measured::Steps, Input::Urls)),
        "written-text" => Some((Measured::Written, Input::Text)),
        "written-tags" => Some((Measured::Written, Input::Tags)),
        "written-urls" => Some((Measured::Written, Input::Urls)),
        "data-numbers" => Some((Measured::Data, Input::Numbers)),
        "data-text" => Some((Measured::Data, Input::Texts)),
        "data-lists" => Some((Measured::Data, Input::Lists)),
        "data-objects" => Some((Measured::Data, Input::Objects)),
        "execute-turns" => Some((Measured::Turns, Input::Numbers)),
        "execute-calls" => Some((Measured::Calls, Input::Numbers)),
        "execute-keys" => Some((Measured::Keys, Input::Objects)),
        "page-sections" => Some((Measured::Page, Input::PageSections)),
        "page-links" => Some((Measured::Page, Input::Links)),
        "page-styles" => Some((Measured::Page, Input::Styles)),
        "page-style-elements" => Some((Measured::Page, Input::StyleElements)),
        "page-scripts" => Some((Measured::Page, Input::Scripts)),
        "page-script-elements" => Some((Measured::Page, Input::ScriptElements)),
        "page-text" => Some((Measured::Page, Input::Text)),
        "page-variables" => Some((Measured::Page, Input::Variables)),
        "page-dropped" => Some((Measured::Dropped, Input::Numbers)),
        "page-names" => Some((Measured::Names, Input::Numbers)),
        "page-slices" => Some((Measured::Slices, Input::Numbers)),
        "pages-sections" => Some((Measured::Pages, Input::PageSections)),
        "pages-links" => Some((Measured::Pages, Input::Links)),
        "pages-styles" => Some((Measured::Pages, Input::Styles)),
        "pages-style-elements" => Some((Measured::Pages, Input::StyleElements)),
        "pages-scripts" => Some((Measured::Pages, Input::Scripts)),
        "pages-script-elements" => Some((Measured::Pages, Input::ScriptElements)),
        "pages-text" => Some((Measured::Pages, Input::Text)),
        "requests-heads" => Some((Measured::Requests, Input::Heads)),
        "requests-body" => Some((Measured::Requests, Input::Body)),
        "link-pages" => Some((Measured::Link, Input::PageRequests)),
        "page-small" => Some((Measured::Page, Input::SmallPages)),
        "pages-small" => Some((Measured::Pages, Input::SmallPages)),
        "looks-1" => Some((Measured::Looks, Input::One)),
        "looks-4" => Some((Measured::Looks, Input::Four)),
        "locks-1" => Some((Measured::Locks, Input::One)),
        "locks-4" => Some((Measured::Locks, Input::Four)),
        _ => None,
    }
}

/// The most bytes that an input of a call may have.
pub fn most(call: Measured) -> usize
    ensures { result ≡ most_of call }
{
    match call {
        Measured::Data
        | Measured::Turns
        | Measured::Calls
        | Measured::Keys
        | Measured::Dropped
        | Measured::Names
        | Measured::Slices
        | Measured::Requests
        | Measured::Link
        | Measured::Looks
        | Measured::Locks => MAX_LENGTH,
        Measured::Tokens
        | Measured::Parse
        | Measured::Gather
        | Measured::Infer
        | Measured::Html
        | Measured::AttrNospace
        | Measured::UrlNorm
        | Measured::Characters
        | Measured::Steps
        | Measured::Written
        | Measured::Page
        | Measured::Pages => MAX_TEXT,
    }
}

/// The size that a word asks for: decimal digits.
pub fn size_named(word: &str) -> Option<usize> {
    if !word.bytes().all(|byte| byte.is_ascii_digit()) {
        return None;
    }
    match word.parse::<usize>() {
        Ok(size) => Some(size),
        Err(_) => None,
    }
}
