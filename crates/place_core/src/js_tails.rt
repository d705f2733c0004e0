/// What a piece of script ended in that the next one may go on with: a set, which may be empty.
#[derive(Clone, Copy, Debug, Drop, PartialEq, Eq)]
pub struct JsTails {
    /// A word, as `var`.
    pub word: bool,
    /// A number, as `12`.
    pub num: bool,
    /// `<`, which may go on as `</script`.
    pub lt: bool,
    /// `/`, which may go on as `//`.
    pub slash: bool,
    /// `+`, which may go on as `++`.
    pub plus: bool,
    /// `-`, which may go on as `-->`.
    pub minus: bool,
    /// `#`, which may go on as `#!`.
    pub hash: bool,
}
