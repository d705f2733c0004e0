/// How far a value without quotes has come: a set, since several paths may lead to one point of a template.
#[derive(Clone, Copy, Debug, Drop, PartialEq, Eq)]
pub struct Bare {
    /// It has begun, as after `<b x=1`.
    pub uq: bool,
    /// It has not begun, and may yet begin with a quote, as after `<b x=`.
    pub unbegun: bool,
}
