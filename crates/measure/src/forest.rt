ghost use Rattle.std.specs.Prelude.{◌≤◌, IfOk, length};
ghost use Rattle.place_infer.specs.BreaksInRanges.{HasBreaksInRanges};
ghost use Rattle.tpl_token.specs.Answers.{max_template_text};

use page_io::{List, Memory};
use std::alloc::{AllocError, Global};
use tpl_parse::{gather, parse_file};
use tpl_tree::Forest;

/// The name of the file of a forest.
pub const NAME: &str = "file";

/// The templates of one file, which is well formed.
#[tactic(auto, using(crate::proofs::ParsedFiles::breaks_stand))]
pub fn forest_of(alloc: Global, template: &str) -> Result<Forest, AllocError>
    requires { length template.now ≤ max_template_text }
    ensures { IfOk result HasBreaksInRanges }
{
    let file = match parse_file(alloc, NAME, template) {
        Ok(file) => file,
        Err(_) => return Err(AllocError),
    };
    let mut files = List::new(alloc);
    match files.push(file) {
        Ok(()) => {}
        Err(Memory) => return Err(AllocError),
    }
    match gather(alloc, files) {
        Ok(forest) => Ok(forest),
        Err(Memory) => Err(AllocError),
    }
}
