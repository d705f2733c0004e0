ghost use Rattle.std.specs.Prelude.{◌≡◌, ◌++◌, ◌<◌, ◌^◌, length, IfOk, OnOk};
ghost use Rattle.page_serve.specs.SummaryLines.{summary_lines, worker_line};

use page_io::{Memory, Text};
use page_worker::{Ended, WorkEnd};
use std::alloc::Global;

/// What the workers did, a line for each, in order. They are counted from 1.
pub fn summary_text<D>(alloc: Global, ends: &[Ended<D>]) -> Result<Text, Memory>
    requires { length ends.now < 2 ^ 32 }
    ensures { IfOk result (λ text. text ≡ summary_lines 1 ends.now) }
{
    let mut text = Text::new(alloc);
    let mut before = 0u32;
    for ended in ends {
        before += 1;
        push_line(&mut text, before, &ended.end)?;
    }
    Ok(text)
}

// Appends the line of the worker with this number.
fn push_line(text: &mut Text, number: u32, end: &WorkEnd) -> Result<(), Memory>
    ensures { OnOk result (text.new ≡ text.old ++ worker_line number end.now) }
{
    let WorkEnd {
        links,
        requests,
        last,
        ..
    } = *end;
    let alloc = text.allocator();
    let line = format!(in alloc;
        "worker {number}: links {links} requests {requests} set {last}\n"
    )?;
    text.push_str(line.as_str())
}
