/// How the value of an attribute is written: between quotation marks, between apostrophes, or without. (HTML Standard, section
/// 13.1.2.3.)
#[derive(Clone, Copy)]
pub enum Quoting {
    Double,
    Single,
    Unquoted,
}
