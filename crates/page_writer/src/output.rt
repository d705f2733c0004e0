use page_io::Text;
use place_core::Chain;

/// What a page gets at a node of a pair.
#[derive(Debug, Drop)]
pub enum Output {
    /// Nothing: the node is a choice, or no path comes there.
    Nothing,
    /// A text, as it is written there.
    Text(Text),
    /// A value, by this chain.
    Value(Chain),
    /// What another pair gives, by its number.
    Call(u32),
}
