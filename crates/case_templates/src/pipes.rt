use case_table::CaseOutput;
use page_io::Text;
use tpl_tree::{Base, Command, Commands, Operand, Operands, Pipe};

/// Writes a pipe.
#[cycle(pipes)]
pub fn put_pipe(out: &mut CaseOutput, pipe: &Pipe) {
    put_commands(out, &pipe.commands);
}

#[cycle(pipes)]
fn put_commands(out: &mut CaseOutput, commands: &Commands) {
    let mut is_first = true;
    for command in commands.as_slice() {
        out.put(if is_first { "" } else { " | " });
        put_command(out, command);
        is_first = false;
    }
}

#[cycle(pipes)]
fn put_command(out: &mut CaseOutput, command: &Command) {
    match command {
        Command::Single(operand) => put_operand(out, operand),
        Command::Call(func, operands) => {
            out.put(func.name());
            put_operands(out, operands);
        }
    }
}

#[cycle(pipes)]
fn put_operands(out: &mut CaseOutput, operands: &Operands) {
    for operand in operands.as_slice() {
        out.put(" ");
        put_operand(out, operand);
    }
}

// A dot alone is written, and not one before a field, which has its own.
#[cycle(pipes)]
fn put_operand(out: &mut CaseOutput, operand: &Operand) {
    let fields = operand.fields.as_slice();
    match (&operand.base, fields.is_empty()) {
        (Base::Dot, true) => out.put("."),
        (Base::Dot, false) => {}
        (Base::Paren(pipe), _) => {
            out.put("(");
            put_pipe(out, pipe);
            out.put(")");
        }
        (base, _) => put_base(out, base),
    }
    put_fields(out, fields);
}

fn put_base(out: &mut CaseOutput, base: &Base) {
    match base {
        Base::Str(value) => put_quoted(out, value),
        Base::Number(number) => out.put_made(format!(in out.alloc(); "{number}")),
        Base::Bool(true) => out.put("true"),
        Base::Bool(false) => out.put("false"),
        Base::Nil => out.put("nil"),
        Base::Variable(name) => put_variable(out, name),
        _ => {}
    }
}

fn put_fields(out: &mut CaseOutput, fields: &[Text]) {
    for field in fields {
        out.put(".");
        out.put(field.as_str());
    }
}

/// Writes a variable.
pub fn put_variable(out: &mut CaseOutput, name: &Text) {
    out.put("$");
    out.put(name.as_str());
}

/// Writes a text in quotes.
pub fn put_quoted(out: &mut CaseOutput, text: &Text) {
    out.put("\"");
    for char in text.as_str().chars() {
        match char {
            '\n' => out.put("\\n"),
            '\r' => out.put("\\r"),
            '\t' => out.put("\\t"),
            '"' => out.put("\\\""),
            '\\' => out.put("\\\\"),
            char => out.put_made(format!(in out.alloc(); "{char}")),
        }
    }
    out.put("\"");
}
