use crate::css::Css;
use crate::js::Js;
use crate::parts::Parts;

/// What an attribute's value is read as, and how far it has come.
#[derive(Clone, Copy, Debug, Drop, PartialEq, Eq)]
pub enum Body {
    /// Text, as after `<b title="`.
    Plain,
    /// Text in which no value of data may stand, as after `<iframe srcdoc="`.
    NoHole,
    /// A URL, as after `<a href="`.
    Url(Parts),
    /// A script, as after `<b onclick="`.
    Js(Js),
    /// Declarations of a style, as after `<b style="`.
    Css(Css),
}
