ghost use Rattle.std.specs.Prelude.{◌≡◌};
ghost use Rattle.tpl_symbol.specs.Names.{function_name, name_kind};
ghost use Rattle.tpl_symbol.specs.declared.symbol.SymbolKind.TheVariants as symbol;

/// A function of the template language.
#[derive(Clone, Copy, Debug, PartialEq, Eq)]
pub enum Func {
    And,
    Or,
    Not,
    Eq,
    Ne,
    Lt,
    Le,
    Gt,
    Ge,
    Index,
    Slice,
    Len,
    Print,
    Println,
    Printf,
    Html,
    Urlquery,
}

impl Func {
    /// The name of the function, which reads as this function.
    #[tactic(auto, using(crate::proofs::FunctionNames::reads_back))]
    pub fn name(self) -> &'static str
        ensures name { result.now ≡ function_name self }
        ensures reads { name_kind result.now ≡ symbol.Function self }
    {
        spelled(self)
    }
}

fn spelled(function: Func) -> &'static str
    ensures { result.now ≡ function_name function }
{
    match function {
        Func::And => "and",
        Func::Or => "or",
        Func::Not => "not",
        Func::Eq => "eq",
        Func::Ne => "ne",
        Func::Lt => "lt",
        Func::Le => "le",
        Func::Gt => "gt",
        Func::Ge => "ge",
        Func::Index => "index",
        Func::Slice => "slice",
        Func::Len => "len",
        Func::Print => "print",
        Func::Println => "println",
        Func::Printf => "printf",
        Func::Html => "html",
        Func::Urlquery => "urlquery",
    }
}
