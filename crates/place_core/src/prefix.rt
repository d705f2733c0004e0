/// How far the beginning of a URL spells the name of a scheme that runs code, in any case, with tabs and ends of lines left out.
/// The numbers count the letters that are spelled: at least one, and at most all letters of the word.
#[derive(Clone, Copy, Debug, Drop, PartialEq, Eq)]
pub enum Prefix {
    /// It spells none, as in `index`.
    Off,
    /// The first letters of `javascript`, as in `java`.
    Javascript(u8),
    /// The first letters of `vbscript`, as in `vb`.
    Vbscript(u8),
    /// The first letters of `data`, as in `dat`.
    DataScheme(u8),
    /// Two paths spell different ones.
    Differs,
}
