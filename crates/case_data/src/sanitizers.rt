use case_table::{CaseOutput, CaseRow, CaseStop};
use esc_table::{replace, table};
use san_css::{css_string, css_value};
use san_html::{attr, attr_name, attr_nospace, html};
use san_js::{js_regexp, js_string, js_value};
use san_url::{url_filter, url_norm, url_open, url_query};

/// Writes what a call of `san_html` gives: what it writes for a text.
pub fn put_sanitized(out: &mut CaseOutput, call: &str, row: &CaseRow) -> Result<(), CaseStop> {
    let text = row.text(0)?;
    match call {
        "html" => out.put_text(html(out.alloc(), text)),
        "attr" => out.put_text(attr(out.alloc(), text)),
        "attr_nospace" => out.put_text(attr_nospace(out.alloc(), text)),
        "attr_name" => out.put_text(attr_name(out.alloc(), text)),
        _ => return Err(CaseStop::Form),
    }
    Ok(())
}

/// Writes what a call of `san_url` gives: what it writes for a text.
pub fn put_in_url(out: &mut CaseOutput, call: &str, row: &CaseRow) -> Result<(), CaseStop> {
    let text = row.text(0)?;
    match call {
        "url_filter" => out.put(url_filter(text)),
        "url_norm" => out.put_text(url_norm(out.alloc(), text)),
        "url_open" => out.put_text(url_open(out.alloc(), text)),
        "url_query" => out.put_text(url_query(out.alloc(), text)),
        _ => return Err(CaseStop::Form),
    }
    Ok(())
}

/// Writes what a call of `san_css` gives: what it writes for a text.
pub fn put_in_style(out: &mut CaseOutput, call: &str, row: &CaseRow) -> Result<(), CaseStop> {
    let text = row.text(0)?;
    match call {
        "css_string" => out.put_text(css_string(out.alloc(), text)),
        "css_value" => out.put_text(css_value(out.alloc(), text)),
        _ => return Err(CaseStop::Form),
    }
    Ok(())
}

/// Writes what a call of `san_js` gives: what it writes for a text, or for a datum.
pub fn put_in_script(out: &mut CaseOutput, call: &str, row: &CaseRow) -> Result<(), CaseStop> {
    match call {
        "js_string" => out.put_text(js_string(out.alloc(), row.text(0)?)),
        "js_regexp" => out.put_text(js_regexp(out.alloc(), row.text(0)?)),
        "js_value" => {
            let datum = row.datum(out.alloc(), 0)?;
            out.put_text(js_value(out.alloc(), datum.as_ref()));
        }
        _ => return Err(CaseStop::Form),
    }
    Ok(())
}

/// Writes what a call of `esc_table` gives: a text whose characters a table replaces that has rows for characters of one to
/// four bytes, or one without rows.
pub fn put_replaced(out: &mut CaseOutput, call: &str, row: &CaseRow) -> Result<(), CaseStop> {
    let text = row.text(0)?;
    match call {
        "replace" => put_rows(out, text),
        "replace by no rows" => out.put_text(replace(out.alloc(), &table! {}, text)),
        _ => return Err(CaseStop::Form),
    }
    Ok(())
}

fn put_rows(out: &mut CaseOutput, text: &str) {
    let page = table! {
        '<' => "&lt;",
        '&' => "&amp;",
        '>' => "&gt;",
        'é' => "&eacute;",
        '\u{2028}' => "",
        '\u{1D11E}' => "<clef>",
    };
    out.put_text(replace(out.alloc(), &page, text));
}
