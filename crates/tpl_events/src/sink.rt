ghost use Rattle.std.specs.Prelude.{OnOk, IfErr};
ghost use Rattle.tpl_events.specs.Events.{ExecEvent, enters, fills, gives_text, leaves};
ghost use Rattle.tpl_events.specs.declared.sink.HoleStop.{HoleStop};

use page_datum::DatumRef;

/// Why a sink refused an event.
#[derive(Clone, Copy, Debug, PartialEq, Eq)]
pub enum HoleStop {
    /// The sink failed.
    SinkStop,
    /// The page would be too long.
    TooLong,
    /// Out of memory.
    Memory,
}

/// What an execution gives its events to. Nodes are numbered in the tree of the template that was entered last and is
/// not left; where an execution stops, open calls are not left. The states of a sink, for contracts, are the values of
/// the sink itself.
///
/// With `a.html` as `{{template "t" .}}!` and `t` as `{{.}}` a sink is given `call(0)`, `hole(0, ..)`, `leave()` and
/// `text(1)`: the 0 of the hole is a node of `t`, which that call entered, and 1 is a node of `a.html` again. A sink
/// that wants to know the open template keeps the numbers of the open ones, the root first; `tree` is that of the last:
///
/// ```text
/// fn call(&mut self, node: u32) -> Result<(), HoleStop> {
///     if let NodeKind::Template(name, _) = self.tree().kind(node) {
///         self.open.push(self.forest.find(name.get().as_str()))?;
///     }
///     Ok(())
/// }
///
/// fn leave(&mut self) {
///     self.open.pop();
/// }
/// ```
pub trait HoleSink {
    // Which events may be given in a state.
    ghost may: { Self → ExecEvent → Type 0 };

    // To which states an event may lead from a state where it is taken.
    ghost takes: { Self → ExecEvent → Self → Type 0 };

    // To which states it may lead where it is refused so.
    ghost refuses: { Self → ExecEvent → HoleStop → Self → Type 0 };

    /// A text, by its node.
    fn text(&mut self, node: u32) -> Result<(), HoleStop>
        requires { may self.old (gives_text node) }
        ensures ok { OnOk result (takes self.old (gives_text node) self.new) }
        ensures err { IfErr result (λ why. refuses self.old (gives_text node) why self.new) };

    /// A hole, by its node and its value.
    fn hole(&mut self, node: u32, datum: DatumRef<'_>) -> Result<(), HoleStop>
        requires { may self.old (fills node datum) }
        ensures ok { OnOk result (takes self.old (fills node datum.entry) self.new) }
        ensures err { IfErr result (λ why.
            refuses self.old (fills node datum.entry) why self.new) };

    /// A call of a template, by its node, whose events follow.
    fn call(&mut self, node: u32) -> Result<(), HoleStop>
        requires { may self.old (enters node) }
        ensures ok { OnOk result (takes self.old (enters node) self.new) }
        ensures err { IfErr result (λ why. refuses self.old (enters node) why self.new) };

    /// The end of the innermost call.
    fn leave(&mut self)
        requires { may self.old leaves }
        ensures { takes self.old leaves self.new };
}
