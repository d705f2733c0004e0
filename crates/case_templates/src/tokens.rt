use case_table::{CaseOutput, CaseRow, CaseStop};
use tpl_token::{Token, TokenKind, TokenRefused, fits, tokens};

/// Writes what a call of `tpl_token` gives: `tokens` of a text, which are those of the text, or why it has none, with the
/// place.
pub fn put_tokens(out: &mut CaseOutput, call: &str, row: &CaseRow) -> Result<(), CaseStop> {
    let text = row.text(0)?;
    if call != "tokens" {
        return Err(CaseStop::Form);
    }
    if !fits(text) {
        out.put("too long");
        return Ok(());
    }
    match tokens(out.alloc(), text) {
        Ok(tokens) => put_all(out, tokens.as_slice()),
        Err(refused) => put_refusal(out, refused),
    }
    Ok(())
}

// Writes tokens: what each is, with its value where it has one, and its place.
fn put_all(out: &mut CaseOutput, tokens: &[Token]) {
    for token in tokens {
        out.put_between(", ");
        put_kind(out, &token.kind);
        let (start, end) = (token.start, token.end);
        out.put_made(format!(in out.alloc(); " {start}-{end}"));
    }
}

fn put_kind(out: &mut CaseOutput, kind: &TokenKind) {
    match kind {
        TokenKind::Str(value) => {
            out.put("Str(");
            out.put(value.as_str());
            out.put(")");
        }
        kind => out.put_made(format!(in out.alloc(); "{kind:?}")),
    }
}

fn put_refusal(out: &mut CaseOutput, refused: TokenRefused) {
    out.put(refused.name());
    match refused {
        TokenRefused::UnclosedAction(place)
        | TokenRefused::BadCharacter(place)
        | TokenRefused::UnclosedString(place)
        | TokenRefused::UnclosedComment(place)
        | TokenRefused::BadNumber(place)
        | TokenRefused::BadDelimiter(place)
        | TokenRefused::BadEscape(place) => out.put_made(format!(in out.alloc(); " {place}")),
        TokenRefused::Memory => out.lose(),
    }
}
