use crate::css_tails::CssTails;
use crate::parts::Parts;

/// A place in a style sheet or in declarations, as after `<style>` or after `<b style="`.
#[derive(Clone, Copy, Debug, Drop, PartialEq, Eq)]
pub enum Css {
    /// Outside strings, URLs and comments, as after `color: `.
    Code(CssTails),
    /// In a string with double quotes, as after `content: "`.
    Dq,
    /// In a string with single quotes, as after `content: '`.
    Sq,
    /// After `url(` and blanks, before the URL or its quote.
    UrlFresh,
    /// In a URL without quotes, as after `url(/a`.
    Url(Parts),
    /// In a URL with double quotes, as after `url("/a`.
    UrlDq(Parts),
    /// In a URL with single quotes, as after `url('/a`.
    UrlSq(Parts),
    /// After a URL and before its `)`, as after `url("/a" `.
    UrlEnd,
    /// In a comment, as after `/* a`; true where a piece of text may have ended in `*`.
    Comment(bool),
}
