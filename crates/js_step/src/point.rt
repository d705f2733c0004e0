use crate::scan::{ScriptAt, ScriptLiterals};

/// Where the reading of tokens stands.
#[derive(Clone, Copy)]
pub struct ScriptPoint {
    pub literals: ScriptLiterals,
    pub at: ScriptAt,
}
