/// Where a path stands in a template.
#[derive(Clone, Copy, Debug)]
pub enum Point {
    /// Before a node, which is given by its number; of a range, before its first turn.
    Before(u32),
    /// At a range, where a turn has ended.
    Again(u32),
    /// At the head of a range, before a turn, the first one or a further one.
    Head(u32),
    /// After the parts of an `if`, a `with` or a range.
    Past(u32),
    /// At the end of the template.
    Finish,
}
