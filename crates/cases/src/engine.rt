use case_data::{
    is_of_system, put_acts, put_data, put_devices, put_formats, put_in_script, put_in_style,
    put_in_url, put_replaced, put_sanitized, put_system, put_text, put_values, put_words,
};
use case_http::put_http;
use case_pages::{put_commands, put_pages};
use case_places::{
    put_charts, put_explained, put_places, put_script_parts, put_style_parts, put_url_parts,
    put_written,
};
use case_table::{CaseOutput, CaseRow, CaseStop, Subject};
use case_templates::{put_executions, put_files, put_printed, put_symbols, put_tokens, put_trees};

/// The libraries of the engine, whose public calls a table has, on a system.
#[derive(Drop)]
pub struct Engine<'r> {
    rt: &'r HostRuntime,
}

impl<'r> Engine<'r> {
    /// The engine on this system.
    pub fn new(rt: &'r HostRuntime) -> Engine<'r> {
        Engine { rt }
    }
}

impl<'r> Subject for Engine<'r> {
    fn answer(&self, out: &mut CaseOutput, call: &str, row: &CaseRow) -> Result<(), CaseStop> {
        let Some((library, call)) = call.split_once('/') else {
            return Err(CaseStop::Form);
        };
        if library == "page_io" && is_of_system(call) {
            return put_system(self.rt, out, call, row);
        }
        if library.starts_with("tpl_") {
            return put_of_templates(out, library, call, row);
        }
        if library.starts_with("page_") {
            return put_of_pages(out, library, call, row);
        }
        put_of_html(out, library, call, row)
    }
}

// Writes what a call of a library of templates gives.
fn put_of_templates(
    out: &mut CaseOutput,
    library: &str,
    call: &str,
    row: &CaseRow,
) -> Result<(), CaseStop> {
    match library {
        "tpl_value" => put_values(out, call, row),
        "tpl_format" => put_formats(out, call, row),
        "tpl_exec" => put_executions(out, call, row),
        "tpl_parse" => put_files(out, call, row),
        "tpl_token" => put_tokens(out, call, row),
        "tpl_symbol" => put_symbols(out, call, row),
        "tpl_tree" => put_trees(out, call, row),
        "tpl_print" => put_printed(out, call, row),
        _ => Err(CaseStop::Form),
    }
}

// Writes what a call of a library of data, devices and pages gives.
fn put_of_pages(
    out: &mut CaseOutput,
    library: &str,
    call: &str,
    row: &CaseRow,
) -> Result<(), CaseStop> {
    match library {
        "page_io" => put_devices(out, call, row),
        "page_datum" => put_data(out, call, row),
        "page_set" => put_pages(out, call, row),
        "page_tool" => put_commands(out, call, row),
        "page_http" => put_http(out, call, row),
        _ => Err(CaseStop::Form),
    }
}

// Writes what a call of a library of HTML, of places or of published sets gives.
fn put_of_html(
    out: &mut CaseOutput,
    library: &str,
    call: &str,
    row: &CaseRow,
) -> Result<(), CaseStop> {
    match library {
        "place_core" => put_text(out, call, row),
        "html_words" => put_words(out, call, row),
        "html_step" => put_places(out, call, row),
        "url_step" => put_url_parts(out, call, row),
        "css_step" => put_style_parts(out, call, row),
        "js_step" => put_script_parts(out, call, row),
        "place_infer" => put_charts(out, call, row),
        "place_explain" => put_explained(out, call, row),
        "text_norm" => put_written(out, call, row),
        "san_html" => put_sanitized(out, call, row),
        "san_url" => put_in_url(out, call, row),
        "san_css" => put_in_style(out, call, row),
        "san_js" => put_in_script(out, call, row),
        "esc_table" => put_replaced(out, call, row),
        "set_core" => put_acts(out, call, row),
        _ => Err(CaseStop::Form),
    }
}
