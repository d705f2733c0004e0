use case_table::CaseOutput;
use page_datum::{Datum, print_datum};
use tpl_exec::Kept;

/// Writes an event: `t0`, `h0=5`, `c0` or a point, and a blank.
pub fn put_event(out: &mut CaseOutput, event: &Kept) {
    match event {
        Kept::Text(node) => put_node(out, "t", *node),
        Kept::Hole(node, value) => {
            put_node(out, "h", *node);
            put_value(out, value);
        }
        Kept::Call(node) => put_node(out, "c", *node),
        Kept::Leave => out.put("."),
    }
    out.put(" ");
}

fn put_node(out: &mut CaseOutput, mark: &str, node: u32) {
    out.put(mark);
    out.put_number(Some(node));
}

// Writes a value, a text in quotes.
fn put_value(out: &mut CaseOutput, value: &Datum) {
    let quote = match value {
        Datum::Text(_) => "'",
        _ => "",
    };
    out.put("=");
    out.put(quote);
    out.put_text(print_datum(out.alloc(), value.as_ref()));
    out.put(quote);
}
