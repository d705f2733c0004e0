ghost use Rattle.std.specs.Prelude.{◌≡◌, IfOk};
ghost use Rattle.place_infer.specs.Inferring as spec;

use page_io::{Memory, Names};
use std::alloc::Global;
use tpl_tree::Forest;

/// The numbers of the roots that are templates of the forest. Fails only if allocation fails.
pub fn root_numbers(alloc: Global, forest: &Forest, roots: &Names) -> Result<Vec<u32>, Memory>
    ensures { IfOk result (λ numbers. numbers.items ≡ spec.root_numbers forest.now roots.now) }
{
    let mut numbers = Vec::new(alloc);
    for name in roots.as_slice() {
        if let Some(number) = forest.find(name.as_str()) {
            numbers.push(number)?;
        }
    }
    Ok(numbers)
}
