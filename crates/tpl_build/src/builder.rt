ghost use Rattle.std.specs.Prelude.{◌≡◌, ◌<◌, ◌≤◌, ◌+◌, ◌^◌, OnOk, All, length, false};
ghost use Rattle.std.specs.List.{list_all};
ghost use Rattle.tpl_build.specs.Building as spec;
ghost use Rattle.tpl_token.specs.Characters as characters;
ghost use Rattle.tpl_tree.specs.Trees.{is_text_node};

use crate::definition::FoundDefinition;
use crate::frame::OpenForm;
use page_io::{List, Memory, Stack, Text};
use std::alloc::Global;
use tpl_pipe::Variables;
use tpl_symbol::Seam;
use tpl_tree::{NodeKind, TreeBuilder};

/// What was read of a file, outside actions.
#[derive(Drop)]
pub struct Builder {
    /// What is open, the innermost last.
    pub frames: Stack<OpenForm>,
    /// The nodes of the innermost part so far.
    pub body: TreeBuilder,
    /// The variables that are declared.
    pub variables: Variables,
    /// Whether the innermost part is in the first part of a `range` of the same body.
    pub in_range: bool,
    /// How many more controls and parentheses may be opened.
    pub room: u32,
    /// Whether the innermost body is blank so far.
    pub blank: bool,
    /// The definitions, also those that are open.
    pub found: List<FoundDefinition>,
}

/// Nothing of a file, in which so many controls and parentheses may be opened.
pub fn empty_builder(alloc: Global, room: u32) -> Builder
    ensures { result ≡ spec.empty_builder room }
{
    Builder {
        frames: Stack::new(alloc),
        body: TreeBuilder::new(alloc),
        variables: Variables::new(alloc),
        in_range: false,
        room,
        blank: true,
        found: List::new(alloc),
    }
}

/// Adds a text.
pub fn add_text(
    builder: &mut Builder,
    text: Text,
    line: u32,
    seams: List<Seam>,
) -> Result<(), Memory>
    requires some { 0 < length text }
    requires bound { length text ≤ 2 ^ 20 }
    requires line { line + length text < 2 ^ 32 }
    requires seams { All (λ s. s.line + length text < 2 ^ 32) seams }
    ensures { OnOk result (builder.new ≡ spec.with_text text line seams builder.old) }
{
    builder.blank = builder.blank && is_white(text.as_str());
    builder.body.push_text(text, line, seams)?;
    Ok(())
}

// Whether a text is white space alone.
fn is_white(text: &str) -> bool
    ensures { result ≡ list_all characters.is_white text.now }
{
    text.bytes()
        .all(|byte| matches!(byte, b' ' | b'\t' | b'\r' | b'\n'))
}

/// Adds a node that has no parts.
#[inline(always)]
pub fn add_node(builder: &mut Builder, kind: NodeKind, line: u32) -> Result<(), Memory>
    requires { is_text_node kind ≡ false }
    ensures { OnOk result (builder.new ≡ spec.with_node kind line builder.old) }
{
    builder.body.push_alone(kind, line)?;
    builder.blank = false;
    Ok(())
}
