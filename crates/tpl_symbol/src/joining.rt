ghost use Rattle.std.specs.Prelude.{◌≡◌, ◌++◌, OnOk};
ghost use Rattle.std.specs.List.{All};
ghost use Rattle.tpl_symbol.specs.Joins.{joined_symbols, put_apart, symbol_at};
ghost use Rattle.tpl_symbol.specs.Symbols.{IsFineSymbol};
ghost use Rattle.tpl_symbol.specs.Joins as spec;

use crate::symbol::{Seam, Symbol, SymbolKind};
use page_io::Memory;

/// Puts a symbol of this kind, where there is one, after the others. A text goes on the text before it.
#[inline(always)]
pub fn put_kind(
    symbols: &mut Vec<Symbol>,
    kind: Option<SymbolKind>,
    line: u32,
    touches: bool,
) -> Result<(), Memory>
    requires { All IsFineSymbol symbols.old.items }
    ensures { OnOk result (symbols.new.items ≡ spec.put_kind symbols.old.items kind line touches) }
{
    match kind {
        Some(kind) => put_new(symbols, kind, line, touches),
        None => Ok(()),
    }
}

// Puts a symbol after the others. Only a text has to look at the one before it.
#[inline(always)]
fn put_new(
    symbols: &mut Vec<Symbol>,
    kind: SymbolKind,
    line: u32,
    touches: bool,
) -> Result<(), Memory>
    requires { All IsFineSymbol symbols.old.items }
    ensures { let new = symbol_at kind line touches in
        OnOk result (symbols.new.items ≡ spec.put_symbol symbols.old.items new) }
{
    match kind {
        SymbolKind::Text(bytes, seams) => put(
            symbols,
            Symbol {
                kind: SymbolKind::Text(bytes, seams),
                line,
                touches,
            },
        ),
        kind => put_one(symbols, kind, line, touches),
    }
}

// Puts a symbol after the others, whatever it is.
#[inline(never)]
fn put(symbols: &mut Vec<Symbol>, symbol: Symbol) -> Result<(), Memory>
    requires { All IsFineSymbol symbols.old.items }
    ensures { OnOk result (symbols.new.items ≡ spec.put_symbol symbols.old.items symbol) }
{
    match symbols.pop() {
        Some(last) => put_joined(symbols, last, symbol),
        None => {
            symbols.push(symbol)?;
            Ok(())
        }
    }
}

// Puts two symbols after the others, or one where both are texts.
fn put_joined(symbols: &mut Vec<Symbol>, last: Symbol, symbol: Symbol) -> Result<(), Memory>
    requires { IsFineSymbol last }
    ensures { OnOk result (symbols.new.items ≡ symbols.old.items ++ joined_symbols last symbol) }
{
    let (kind, line, touches) = (last.kind, last.line, last.touches);
    let (other, other_line, other_touches) = (symbol.kind, symbol.line, symbol.touches);
    match kind {
        SymbolKind::Text(mut bytes, mut seams) => match other {
            SymbolKind::Text(more, _) => {
                let at = bytes.as_str().len() as u32;
                seams.push(Seam {
                    at,
                    line: other_line,
                })?;
                bytes.push_str(more.as_str())?;
                put_one(symbols, SymbolKind::Text(bytes, seams), line, touches)
            }
            other => {
                put_one(symbols, SymbolKind::Text(bytes, seams), line, touches)?;
                put_one(symbols, other, other_line, other_touches)
            }
        },
        kind => {
            put_one(symbols, kind, line, touches)?;
            put_one(symbols, other, other_line, other_touches)
        }
    }
}

// Puts a symbol after the others as it is.
#[inline(always)]
fn put_one(
    symbols: &mut Vec<Symbol>,
    kind: SymbolKind,
    line: u32,
    touches: bool,
) -> Result<(), Memory>
    ensures { OnOk result (symbols.new.items ≡ put_apart symbols.old.items kind line touches) }
{
    symbols.push(Symbol {
        kind,
        line,
        touches,
    })?;
    Ok(())
}
