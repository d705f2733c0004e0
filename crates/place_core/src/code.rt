/// Why a template is refused.
#[derive(Clone, Copy, Debug, Drop, PartialEq, Eq)]
pub enum Code {
    /// A character or a value of data would mean different things on different paths, as the `:` in `<a href="{{.}}:">`.
    AmbigContext,
    /// HTML that browsers mend in ways that are hard to foresee, as `<a b"c>`.
    BadHTML,
    /// The paths through an `if`, `with` or `range` end in places that do not join.
    BranchEnd,
    /// The page ends in another place than text, as in a comment that is not closed.
    EndContext,
    /// A template that is called has no definition.
    NoSuchTemplate,
    /// A text ends inside the `[` of a regular expression.
    PartialCharset,
    /// A text ends inside an escape, as `\u00`.
    PartialEscape,
    /// The turns of a `range` begin in places that do not join.
    RangeLoopReentry,
    /// It cannot be told whether a slash begins a regular expression.
    SlashAmbig,
    /// An escaper is named that may not stand there.
    PredefinedEscaper,
    /// A text ends inside a template literal of a script.
    JSTemplate,
    /// A text ends inside a token that what follows would change, as `</scr` in a script.
    SplitToken,
    /// A string ends with its line.
    BadString,
    /// A script has `<!--`, `-->` or the like, which browsers read as HTML.
    HtmlInScript,
}
