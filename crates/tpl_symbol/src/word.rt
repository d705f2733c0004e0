/// A word of the template language that is no function. Those that begin an action mean this at its head alone.
#[derive(Clone, Copy, Debug, PartialEq, Eq)]
pub enum Word {
    If,
    With,
    Range,
    Else,
    End,
    Break,
    Continue,
    Template,
    Define,
    Block,
    True,
    False,
    Nil,
}
