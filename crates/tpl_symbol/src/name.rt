ghost use Rattle.std.specs.Prelude.{◌≡◌};
ghost use Rattle.tpl_symbol.specs.Names as spec;

use crate::func::Func;
use crate::symbol::SymbolKind;
use crate::word::Word;

/// What a name is: a word of the language, a function, or neither.
pub fn name_kind(name: &str) -> SymbolKind
    ensures { result ≡ spec.name_kind name.now }
{
    if let Some(word) = word_of(name) {
        return SymbolKind::Word(word);
    }
    match function_of(name) {
        Some(function) => SymbolKind::Function(function),
        None => SymbolKind::Unknown,
    }
}

// The word with this name.
fn word_of(name: &str) -> Option<Word>
    ensures { result ≡ spec.word_of name.now }
{
    match name {
        "if" => Some(Word::If),
        "with" => Some(Word::With),
        "range" => Some(Word::Range),
        "else" => Some(Word::Else),
        "end" => Some(Word::End),
        "break" => Some(Word::Break),
        "continue" => Some(Word::Continue),
        "template" => Some(Word::Template),
        "define" => Some(Word::Define),
        "block" => Some(Word::Block),
        "true" => Some(Word::True),
        "false" => Some(Word::False),
        "nil" => Some(Word::Nil),
        _ => None,
    }
}

// The function with this name.
fn function_of(name: &str) -> Option<Func>
    ensures { result ≡ spec.function_of name.now }
{
    match name {
        "and" => Some(Func::And),
        "or" => Some(Func::Or),
        "not" => Some(Func::Not),
        "eq" => Some(Func::Eq),
        "ne" => Some(Func::Ne),
        "lt" => Some(Func::Lt),
        "le" => Some(Func::Le),
        "gt" => Some(Func::Gt),
        "ge" => Some(Func::Ge),
        "index" => Some(Func::Index),
        "slice" => Some(Func::Slice),
        "len" => Some(Func::Len),
        "print" => Some(Func::Print),
        "println" => Some(Func::Println),
        "printf" => Some(Func::Printf),
        "html" => Some(Func::Html),
        "urlquery" => Some(Func::Urlquery),
        _ => None,
    }
}
