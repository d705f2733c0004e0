// Calls the engine on one large input, so that the time that the call takes can be seen from outside. A word says which
// call and which input, and a number how many bytes the input has at most. What is printed are counts alone.
#![tactic(auto)]

ghost use Rattle.std.specs.Prelude.{◌≤◌, IfOk, IfSome, length};
ghost use Rattle.tpl_token.specs.Answers.{max_template_text};
ghost use Rattle.measure.specs.Limits.{most_of};

mod byte_counter;
mod counter;
mod forest;
mod inference;
mod input;
mod link;
mod locks;
mod looks;
mod nests;
mod request;
mod requests;
mod template_sets;
mod units;
mod whole_page;

use crate::counter::executed_counted;
use crate::inference::{pairs_counted, templates_counted};
use crate::input::input_of;
use crate::link::link_counted;
use crate::locks::{four_lock, one_locks};
use crate::looks::{four_look, one_looks};
use crate::request::{Input, Measured, Measurement, most, size_named, words_named};
use crate::requests::requests_counted;
use crate::whole_page::{data_of, page_counted};
use html_step::{after_text, print_place};
use html_words::RefChars;
use page_datum::{DataRefused, print_datum, read_datum};
use page_io::{Memory, Text};
use place_core::{Chars, TEXT};
use san_html::{attr_nospace, html};
use san_url::url_norm;
use std::alloc::{AllocError, Global};
use std::env;
use std::io::ErrorKind;
use std::process::ExitCode;
use std::sync::Wait;
use std::thread::Threads;
use text_norm::write_text;
use tpl_parse::{FileRefused, parse_file};
use tpl_token::{TokenRefused, tokens};

fn main(rt: HostRuntime) -> ExitCode {
    let request = match requested(&rt) {
        Ok(Some(request)) => request,
        Ok(None) => {
            let _ = eprintln!(&rt; "usage: measure WORD BYTES");
            let _ = eprintln!(&rt; "WORD: tokens-text tokens-open tokens-string tokens-actions");
            let _ = eprintln!(&rt; "      parse-text parse-actions parse-definitions");
            let _ = eprintln!(&rt; "      gather-sections gather-chain gather-pairs gather-nested");
            let _ = eprintln!(&rt; "      gather-values");
            let _ = eprintln!(&rt; "      infer-sections infer-chain infer-pairs infer-nested");
            let _ = eprintln!(&rt; "      infer-values infer-refused");
            let _ = eprintln!(&rt;
                "      html-text html-markup nospace-text nospace-markup norm-text norm-markup"
            );
            let _ = eprintln!(&rt; "      characters-text characters-references");
            let _ = eprintln!(&rt;
                "      steps-text steps-tags steps-urls written-text written-tags written-urls"
            );
            let _ = eprintln!(&rt; "      data-numbers data-text data-lists data-objects");
            let _ = eprintln!(&rt; "      execute-turns execute-calls execute-keys");
            let _ = eprintln!(&rt;
                "      page-sections page-links page-styles page-text pages-sections pages-links"
            );
            let _ = eprintln!(&rt;
                "      page-style-elements pages-styles pages-style-elements pages-text"
            );
            let _ = eprintln!(&rt;
                "      page-scripts page-script-elements pages-scripts pages-script-elements"
            );
            let _ = eprintln!(&rt; "      page-variables page-dropped page-names page-slices");
            let _ = eprintln!(&rt;
                "      requests-heads requests-body link-pages page-small pages-small"
            );
            let _ = eprintln!(&rt; "      looks-1 looks-4 locks-1 locks-4");
            return ExitCode::from(2);
        }
        Err(_) => return ExitCode::from(11),
    };
    match counted(&rt, rt.alloc(), request.call, request.input, request.size) {
        Ok(line) => match println!(&rt; "{line}") {
            Ok(()) => ExitCode::SUCCESS,
            Err(_) => ExitCode::from(6),
        },
        Err(_) => ExitCode::from(11),
    }
}

// What the words ask for, or nothing where they are others.
fn requested<R: env::Env + AllocGlobal>(rt: &R) -> Result<Option<Measurement>, AllocError>
    ensures { IfOk result (λ request. IfSome request (λ words. words.size ≤ most_of words.call)) }
{
    let mut args = match env::args(rt) {
        Ok(args) => args.skip(1),
        Err(error) if error.kind() == ErrorKind::OutOfMemory => return Err(AllocError),
        Err(_) => return Ok(None),
    };
    let (word, size) = match (args.next(), args.next(), args.next()) {
        (Some(word), Some(size), None) => (word, size),
        _ => return Ok(None),
    };
    match (words_named(word.as_str()), size_named(size.as_str())) {
        (Some((call, input)), Some(size)) if size <= most(call) => {
            Ok(Some(Measurement { call, input, size }))
        }
        _ => Ok(None),
    }
}

// The counts of a call on an input.
fn counted<R: Threads + Wait + Sync>(
    rt: &R,
    alloc: Global,
    call: Measured,
    input: Input,
    size: usize,
) -> Result<String, AllocError>
    requires { size ≤ most_of call }
{
    let text = input_of(alloc, input, size)?;
    match call {
        Measured::Tokens => tokens_counted(alloc, text.as_str()),
        Measured::Parse => definitions_counted(alloc, text.as_str()),
        Measured::Gather => templates_counted(alloc, text.as_str()),
        Measured::Infer => pairs_counted(alloc, text.as_str()),
        Measured::Html => written_counted(alloc, text.as_str(), html(alloc, text.as_str())),
        Measured::AttrNospace => written_counted(
            alloc,
            text.as_str(),
            attr_nospace(alloc, text.as_str()),
        ),
        Measured::UrlNorm => written_counted(alloc, text.as_str(), url_norm(alloc, text.as_str())),
        Measured::Characters => characters_counted(alloc, text.as_str()),
        Measured::Steps => place_told(alloc, text.as_str()),
        Measured::Written => written_counted(
            alloc,
            text.as_str(),
            write_text(alloc, TEXT, text.as_str()),
        ),
        Measured::Data => printed_counted(alloc, text.as_str()),
        Measured::Turns => executed_counted(alloc, "{{range .}}{{.}}{{end}}", text.as_str()),
        Measured::Calls => executed_counted(
            alloc,
            "{{define \"t\"}}{{template \"t\"}}{{end}}{{template \"t\"}}",
            text.as_str(),
        ),
        Measured::Keys => executed_counted(
            alloc,
            "{{range $key, $value := .}}{{index $ $key}}{{end}}",
            text.as_str(),
        ),
        Measured::Page => page_counted(alloc, text.as_str(), data_of(input), 1),
        Measured::Pages => page_counted(alloc, text.as_str(), data_of(input), 101),
        Measured::Dropped => page_counted(
            alloc,
            "{{range .}}<!-- {{$}} -->{{end}}",
            text.as_str(),
            1,
        ),
        Measured::Names => page_counted(alloc, "{{range .}}<p {{$}}>{{end}}", text.as_str(), 1),
        Measured::Slices => page_counted(
            alloc,
            "{{range .}}{{if slice $ 1}}a{{end}}{{end}}",
            text.as_str(),
            1,
        ),
        Measured::Requests => requests_counted(alloc, text.as_str()),
        Measured::Link => link_counted(rt, alloc, text.as_str()),
        Measured::Looks if input == Input::One => one_looks(rt, alloc, size),
        Measured::Looks => four_look(rt, alloc, size),
        Measured::Locks if input == Input::One => one_locks(rt, alloc, size),
        Measured::Locks => four_lock(rt, alloc, size),
    }
}

fn tokens_counted(alloc: Global, text: &str) -> Result<String, AllocError>
    requires { length text.now ≤ max_template_text }
{
    let bytes = text.len();
    match tokens(alloc, text) {
        Ok(tokens) => {
            let count = tokens.as_slice().len();
            format!(in alloc; "{bytes} bytes, {count} tokens")
        }
        Err(TokenRefused::Memory) => Err(AllocError),
        Err(_) => format!(in alloc; "{bytes} bytes, refused"),
    }
}

fn definitions_counted(alloc: Global, text: &str) -> Result<String, AllocError>
    requires { length text.now ≤ max_template_text }
{
    let bytes = text.len();
    match parse_file(alloc, "file", text) {
        Ok(file) => {
            let count = file.defs.as_slice().len();
            format!(in alloc; "{bytes} bytes, {count} definitions")
        }
        Err(FileRefused::Memory) => Err(AllocError),
        Err(_) => format!(in alloc; "{bytes} bytes, refused"),
    }
}

// What was made of a text.
fn written_counted(
    alloc: Global,
    text: &str,
    written: Result<Text, Memory>,
) -> Result<String, AllocError> {
    let bytes = text.len();
    match written {
        Ok(written) => {
            let count = written.as_str().len();
            format!(in alloc; "{bytes} bytes, {count} bytes written")
        }
        Err(Memory) => Err(AllocError),
    }
}

fn characters_counted(alloc: Global, text: &str) -> Result<String, AllocError>
    requires { length text.now ≤ max_template_text }
{
    let bytes = text.len();
    let mut characters = RefChars::new(text, 0, false);
    for count in 0..bytes {
        if characters.next().is_none() {
            return format!(in alloc; "{bytes} bytes, {count} characters");
        }
    }
    format!(in alloc; "{bytes} bytes, {bytes} characters")
}

// The place after a text, from text.
fn place_told(alloc: Global, text: &str) -> Result<String, AllocError>
    requires { length text.now ≤ max_template_text }
{
    let bytes = text.len();
    match after_text(TEXT, text) {
        Ok(place) => match print_place(alloc, place) {
            Ok(place) => {
                let place = place.as_str();
                format!(in alloc; "{bytes} bytes, {place}")
            }
            Err(Memory) => Err(AllocError),
        },
        Err(_) => format!(in alloc; "{bytes} bytes, refused"),
    }
}

// What is printed of data.
fn printed_counted(alloc: Global, text: &str) -> Result<String, AllocError> {
    let bytes = text.len();
    match read_datum(alloc, text.as_bytes()) {
        Ok(datum) => match print_datum(alloc, datum.as_ref()) {
            Ok(printed) => {
                let count = printed.as_str().len();
                format!(in alloc; "{bytes} bytes, {count} bytes printed")
            }
            Err(Memory) => Err(AllocError),
        },
        Err(DataRefused::Memory) => Err(AllocError),
        Err(_) => format!(in alloc; "{bytes} bytes, refused"),
    }
}
