/// What a look finds: that there is nothing new, or what is new.
#[derive(Drop)]
pub enum Looked<T: Drop> {
    /// The list is as long as what was seen of it.
    Same,
    /// The list is longer.
    New(T),
}
