ghost use Rattle.std.specs.Prelude.{◌≡◌, ◌<◌, ◌≤◌, OnOk, OnErr, slice_get, vec_len};
ghost use Rattle.place_chart.specs.Numbers.{AreSameNumbers, HasOneMore};
ghost use Rattle.place_chart.specs.Numbers as spec;

use page_io::Memory;

// The numbers of a template's summaries.
pub(crate) fn numbers_of(numbers: &[Vec<u32>], template: u32) -> &[u32]
    ensures { result.now ≡ spec.numbers_of (slice_get numbers.now template) }
{
    match numbers.get(template as usize) {
        Some(numbers) => numbers.as_slice(),
        None => &[],
    }
}

// Adds a summary's number to those of its template. Fails only if allocation fails.
pub(crate) fn add_number(
    numbers: &mut Vec<Vec<u32>>,
    template: u32,
    number: u32,
) -> Result<(), Memory>
    ensures ok { OnOk result (HasOneMore numbers.old.items numbers.new.items template number) }
    ensures err { OnErr result (AreSameNumbers numbers.old.items numbers.new.items) }
{
    reach(numbers, template as usize)?;
    numbers[template as usize].push(number)?;
    Ok(())
}

// Makes room for the numbers of a template. Fails only if allocation fails.
fn reach(numbers: &mut Vec<Vec<u32>>, template: usize) -> Result<(), Memory>
    ensures same { AreSameNumbers numbers.old.items numbers.new.items }
    ensures room { OnOk result (template < vec_len numbers.new) }
{
    while numbers.len() <= template {
        let none = Vec::new(*numbers.allocator());
        numbers.push(none)?;
    }
    Ok(())
}
