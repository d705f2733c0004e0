ghost use Rattle.std.specs.Prelude.{◌≡◌, ◌≤◌, IfErr, IfOk, MatchOption, OnOk};
ghost use Rattle.std.specs.Prelude.{length, map, string_bytes};
ghost use Rattle.page_datum.specs.View.{ref_view};
ghost use Rattle.page_path.specs.Pages.{max_page};
ghost use Rattle.page_path.specs.Textual.{IsTextBy};
ghost use Rattle.page_writer.specs.Writing.{IsAppended, IsOrderedChain, IsTooLong, IsUnfit};
ghost use Rattle.page_writer.specs.Writing.{value_written};
ghost use Rattle.page_writer.specs.declared.output.Output.TheVariants.{Nothing};
ghost use Rattle.page_writer.specs.Writing as spec;

use crate::output::Output;
use crate::values::{ChainBuffer, push_chain};
use page_datum::DatumRef;
use page_io::{Memory, Stack};
use place_core::Chain;
use std::alloc::Global;
use tpl_events::{HoleSink, HoleStop};

// The most bytes that a page may have.
const MAX_PAGE: usize = 16_777_216;

/// A page that is written from the outputs of the pairs of a chart, as an execution gives its events.
#[derive(Drop)]
pub struct PageWriter<'o> {
    outputs: &'o [Vec<Output>],
    // the pairs that are open, the innermost on top
    pairs: Stack<u32>,
    page: String,
    // what chains keep of the value that is written
    buffer: ChainBuffer,
}

impl<'o> PageWriter<'o> {
    ghost use Rattle.page_writer.specs.Writing.{IsPageBegun};

    /// A page without bytes, where the pair of a root is open. Fails only if allocation fails.
    pub fn new(
        alloc: Global,
        outputs: &'o [Vec<Output>],
        root: u32,
    ) -> Result<PageWriter<'o>, Memory>
        ensures { IfOk result (λ writer. IsPageBegun outputs.now root writer) }
    {
        let mut pairs = Stack::new(alloc);
        pairs.push(root)?;
        Ok(PageWriter {
            outputs,
            pairs,
            page: String::new(alloc),
            buffer: ChainBuffer::new(alloc),
        })
    }

    /// The page. Does not allocate.
    pub fn into_page(self) -> String
        ensures { result ≡ self.entry.page }
    {
        self.page
    }
}

impl<'o> HoleSink for PageWriter<'o> {
    ghost use Rattle.page_writer.specs.Writing.{WriterDeclines, WriterMay, Takes};

    ghost may = { WriterMay };

    ghost takes = { Takes };

    ghost refuses = { WriterDeclines };

    fn text(&mut self, node: u32) -> Result<(), HoleStop> {
        match open_output(self.outputs, &self.pairs, node) {
            Some(Output::Text(text)) => push_text(&mut self.page, text.as_str()),
            _ => unreachable!(),
        }
    }

    fn hole(&mut self, node: u32, datum: DatumRef<'_>) -> Result<(), HoleStop> {
        match open_output(self.outputs, &self.pairs, node) {
            Some(Output::Value(chain)) => {
                push_value(&mut self.page, &mut self.buffer, *chain, datum)
            }
            _ => unreachable!(),
        }
    }

    fn call(&mut self, node: u32) -> Result<(), HoleStop> {
        match open_output(self.outputs, &self.pairs, node) {
            Some(Output::Call(pair)) => match self.pairs.push(*pair) {
                Ok(()) => Ok(()),
                Err(Memory) => Err(HoleStop::Memory),
            },
            _ => unreachable!(),
        }
    }

    fn leave(&mut self) {
        self.pairs.pop();
    }
}

// The output of a node of the pair that was opened last and is not left, where there is one.
fn open_output<'o>(outputs: &'o [Vec<Output>], pairs: &Stack<u32>, node: u32) -> Option<&'o Output>
    ensures { let output = spec.open_output (map (λ row. row.items) outputs.now) pairs.now node in
        MatchOption result (output ≡ Nothing) (λ found. output ≡ found.now) }
{
    match pairs.top() {
        Some(pair) => match outputs.get(*pair as usize) {
            Some(row) => row.get(node as usize),
            None => None,
        },
        None => None,
    }
}

// Refuses a page that is longer than it may be.
fn fits(page: &String) -> Result<(), HoleStop>
    ensures ok { OnOk result (length (string_bytes page.now) ≤ max_page) }
    ensures err { IfErr result (λ why. IsTooLong page.now why) }
{
    if page.len() > MAX_PAGE {
        return Err(HoleStop::TooLong);
    }
    Ok(())
}

// Appends a text to a page.
fn push_text(page: &mut String, text: &str) -> Result<(), HoleStop>
    ensures ok { OnOk result (IsAppended page.old text.now page.new) }
    ensures err { IfErr result (λ why. IsUnfit page.old text.now why) }
{
    match page.push_str(text) {
        Ok(()) => fits(page),
        Err(_) => Err(HoleStop::Memory),
    }
}

// Appends a value to a page, by a chain.
fn push_value(
    page: &mut String,
    buffer: &mut ChainBuffer,
    chain: Chain,
    datum: DatumRef<'_>,
) -> Result<(), HoleStop>
    requires { IsOrderedChain chain }
    ensures ok { let bytes = value_written chain (ref_view datum.entry) in
        OnOk result (IsAppended page.old bytes page.new) }
    ensures err { let bytes = value_written chain (ref_view datum.entry) in
        IfErr result (λ why. IsUnfit page.old bytes why) }
    ensures textual { OnOk result (IsTextBy chain (ref_view datum.entry)) }
{
    match push_chain(page, buffer, chain, datum) {
        Ok(()) => fits(page),
        Err(Memory) => Err(HoleStop::Memory),
    }
}
