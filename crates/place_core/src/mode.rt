/// Where the characters of one language stand: what ends it.
#[derive(Clone, Copy, Debug, Drop, PartialEq, Eq)]
pub enum Mode {
    /// In an element, a script or a style, which its end tag ends.
    Element,
    /// In a value in which the node ends.
    Open,
    /// In a value that ends with the characters.
    Whole,
}
