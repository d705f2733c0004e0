/// Where in a tag, outside the values of its attributes: a set, since several paths may lead to one point of a template.
#[derive(Clone, Copy, Debug, Drop, PartialEq, Eq)]
pub struct Spots {
    /// In the tag's name, as after `<b`.
    pub name: bool,
    /// Before an attribute, as after `<b ` and after `<b x=1 `.
    pub before: bool,
    /// In an attribute's name, as after `<b x`.
    pub inside: bool,
    /// After an attribute's name and a blank, as after `<b x `.
    pub after: bool,
}
