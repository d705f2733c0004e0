use crate::prefix::Prefix;

/// The part of a URL: a set, since several paths may lead to one point of a template.
#[derive(Clone, Copy, Debug, Drop, PartialEq, Eq)]
pub struct Parts {
    /// Before its first character, as after `<a href="`.
    pub start: bool,
    /// In its beginning, where a scheme may still end, as after `<a href="java`; with what that beginning spells.
    pub opened: Option<Prefix>,
    /// In its beginning, after a value of data, as after `<a href="{{.}}`.
    pub openhole: bool,
    /// Where no scheme can end any more, as after `<a href="/list`.
    pub prequery: bool,
    /// After `?` or `#`, as after `<a href="/list?page=`.
    pub query: bool,
    /// After a scheme that runs code, as after `<a href="javascript:`.
    pub bad: bool,
}
