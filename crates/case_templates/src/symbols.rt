ghost use Rattle.std.specs.Prelude.{◌≤◌, length};
ghost use Rattle.tpl_token.specs.Answers.{max_template_text};

use case_table::{CaseOutput, CaseRow, CaseStop};
use tpl_symbol::{Seam, Symbol, SymbolKind, line_of, symbols, text_end};
use tpl_token::{TokenRefused, fits, tokens};

/// Writes what a call of `tpl_symbol` gives: `symbols` of a text, `line_of` of a place in it, `text_end` of it.
pub fn put_symbols(out: &mut CaseOutput, call: &str, row: &CaseRow) -> Result<(), CaseStop> {
    let text = row.text(0)?;
    if !fits(text) {
        out.put("too long");
        return Ok(());
    }
    match call {
        "symbols" => put_text(out, text),
        "line_of" => put_line(out, text, row.place(1)?)?,
        "text_end" => put_end(out, text),
        _ => return Err(CaseStop::Form),
    }
    Ok(())
}

// Writes the symbols of a text that has tokens.
fn put_text(out: &mut CaseOutput, text: &str)
    requires { length text.now ≤ max_template_text }
{
    match tokens(out.alloc(), text) {
        Ok(tokens) => match symbols(out.alloc(), text, tokens.as_slice()) {
            Ok(symbols) => put_all(out, symbols.as_slice()),
            Err(_) => out.lose(),
        },
        Err(TokenRefused::Memory) => out.lose(),
        Err(_) => out.put("refused"),
    }
}

// Writes symbols, each with its line, and after `+` where it touches the token before it.
fn put_all(out: &mut CaseOutput, symbols: &[Symbol]) {
    for symbol in symbols {
        out.put_between(", ");
        out.put(if symbol.touches { "+" } else { "" });
        put_kind(out, &symbol.kind);
        let line = symbol.line;
        out.put_made(format!(in out.alloc(); "@{line}"));
    }
}

// Writes what a symbol is, with its value or its places where it has them.
fn put_kind(out: &mut CaseOutput, kind: &SymbolKind) {
    match kind {
        SymbolKind::Text(text, seams) => {
            put_value(out, "Text(", text.as_str());
            put_seams(out, seams.as_slice());
        }
        SymbolKind::Open { start, before } => {
            out.put_made(format!(in out.alloc(); "Open({start} {before})"));
        }
        SymbolKind::Close { end } => out.put_made(format!(in out.alloc(); "Close({end})")),
        SymbolKind::Field(name) => put_value(out, "Field(", name.as_str()),
        SymbolKind::Variable(name) => put_value(out, "Variable(", name.as_str()),
        SymbolKind::Str(value) => put_value(out, "Str(", value.as_str()),
        kind => out.put_made(format!(in out.alloc(); "{kind:?}")),
    }
}

// Writes a text that a symbol has, after a word for what it is.
fn put_value(out: &mut CaseOutput, word: &str, value: &str) {
    out.put(word);
    out.put(value);
    out.put(")");
}

// Writes the place and the line of each seam.
fn put_seams(out: &mut CaseOutput, seams: &[Seam]) {
    for seam in seams {
        let (at, line) = (seam.at, seam.line);
        out.put_made(format!(in out.alloc(); "[{at} {line}]"));
    }
}

// Writes the line of a place that the text has.
fn put_line(out: &mut CaseOutput, text: &str, place: u32) -> Result<(), CaseStop>
    requires { length text.now ≤ max_template_text }
{
    if text.len() < place as usize {
        return Err(CaseStop::Form);
    }
    let line = line_of(text, place);
    out.put_made(format!(in out.alloc(); "{line}"));
    Ok(())
}

// Writes the place at which a text ends, the line of its last byte and the line after this.
fn put_end(out: &mut CaseOutput, text: &str)
    requires { length text.now ≤ max_template_text }
{
    let end = text_end(text);
    let (at, before, line) = (end.at, end.before, end.line);
    out.put_made(format!(in out.alloc(); "{at} {before} {line}"));
}
