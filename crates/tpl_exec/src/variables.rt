ghost use Rattle.std.specs.Prelude.{◌≡◌, OnOk};
ghost use Rattle.page_datum.specs.View.{ref_view};
ghost use Rattle.tpl_eval.specs.Values.{value_view};
ghost use Rattle.tpl_exec.specs.Meaning.{scope_declared};

use page_datum::DatumRef;
use page_io::{Memory, Text};
use tpl_eval::{Value, VariableStack};

/// One variable more, where a control declares it.
pub(crate) fn declare<'d>(
    variables: &mut VariableStack<'d>,
    name: &'d Option<Text>,
    value: &Value<'d>,
) -> Result<(), Memory>
    ensures { OnOk result (variables.new
        ≡ scope_declared name.now (value_view value.now) variables.old) }
{
    match name {
        Some(name) => variables.push(name.as_str(), value.copy()?),
        None => Ok(()),
    }
}

/// The same of a value that is lent.
pub(crate) fn declare_lent<'d>(
    variables: &mut VariableStack<'d>,
    name: &'d Option<Text>,
    value: DatumRef<'d>,
) -> Result<(), Memory>
    ensures { OnOk result (variables.new
        ≡ scope_declared name.now (ref_view value.entry) variables.old) }
{
    match name {
        Some(name) => variables.push(name.as_str(), Value::Lent(value)),
        None => Ok(()),
    }
}
