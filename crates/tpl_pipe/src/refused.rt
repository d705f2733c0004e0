/// Why the tokens of a template file are no templates. Each names the first token at which none goes on.
#[derive(Clone, Copy, Debug, PartialEq, Eq)]
pub enum ParseRefused {
    /// A token that may not stand where it does, for none of the causes below.
    UnexpectedToken,
    /// An `end` where nothing is open, or an `else` where no control is open in the same body.
    UnexpectedEnd,
    /// The file ends, and a control, a `define` or a `block` is open.
    UnclosedBlock,
    /// A second `else` of a control.
    ElseTwice,
    /// A variable that is not declared where it stands.
    UndefinedVariable,
    /// A name where a function is called, which is neither a function's nor a word of the language.
    UnknownFunction,
    /// A `break` or `continue` outside the first part of a `range` of the same body.
    BreakOutside,
    /// A `define` that is not at the top level of the file.
    DefineNested,
    /// A second definition of a name, of which two are not blank.
    MultipleDefinition,
    /// The end of a pipe where its first command should stand.
    EmptyPipeline,
    /// More than 100 controls and parentheses are open.
    TooNested,
}
