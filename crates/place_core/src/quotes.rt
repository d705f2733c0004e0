use crate::bare::Bare;

/// The quotes around an attribute's value.
#[derive(Clone, Copy, Debug, Drop, PartialEq, Eq)]
pub enum Quotes {
    /// Double quotes, as after `<b x="`.
    Dq,
    /// Single quotes, as after `<b x='`.
    Sq,
    /// None, or none yet, as after `<b x=`.
    Bare(Bare),
}
