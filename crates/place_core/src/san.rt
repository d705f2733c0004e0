ghost use Rattle.std.specs.Prelude.{◌≡◌};
ghost use Rattle.place_core.specs.Names as spec;

/// What is done to a value of data before it is written. (The escapers of Go's `html/template`.)
#[derive(Clone, Copy, Debug, Drop, PartialEq, Eq)]
pub enum San {
    /// Written as text.
    Html,
    /// Written in an attribute's value with quotes.
    Attr,
    /// Written in an attribute's value without quotes.
    AttrNospace,
    /// Written as an attribute's name.
    AttrName,
    /// Written as a value in a script.
    JsValue,
    /// Written in a string of a script.
    JsString,
    /// Written in a regular expression.
    JsRegexp,
    /// Written as a value in a style.
    CssValue,
    /// Written in a string of a style.
    CssString,
    /// A URL, with no scheme that runs code.
    UrlFilter,
    /// Written in the beginning of a URL.
    UrlOpen,
    /// Written in a URL, so that it stays a URL.
    UrlNorm,
    /// Written in the query of a URL.
    UrlQuery,
    /// Left out.
    Drop,
}

impl San {
    /// The name under which `explain` prints it.
    pub fn name(self) -> &'static str
        ensures { result.now ≡ spec.sanitizer_name self }
    {
        match self {
            San::Html => "html",
            San::Attr => "attr",
            San::AttrNospace => "attr_nospace",
            San::AttrName => "attr_name",
            San::JsValue => "js_value",
            San::JsString => "js_string",
            San::JsRegexp => "js_regexp",
            San::CssValue => "css_value",
            San::CssString => "css_string",
            San::UrlFilter => "url_filter",
            San::UrlOpen => "url_open",
            San::UrlNorm => "url_norm",
            San::UrlQuery => "url_query",
            San::Drop => "drop",
        }
    }
}
