/// A predefined escaper: a function of the template language that is written to say how a hole is to be escaped.
#[derive(Clone, Copy, Debug)]
pub enum Predefined {
    /// `html`, as in `{{.a | html}}`.
    Html,
    /// `urlquery`, as in `{{urlquery .a}}`.
    Urlquery,
}
