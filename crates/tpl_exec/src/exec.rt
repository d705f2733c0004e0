ghost use Rattle.std.specs.Prelude.{◌≡◌, ◌<◌, length, OnOk, IfErr, IfOk};
ghost use Rattle.page_datum.specs.View.{view};
ghost use Rattle.tpl_events.specs.Sinks.{Allows};
ghost use Rattle.tpl_exec.specs.Executing.{ExecuteAnswers, run_of};
ghost use Rattle.tpl_exec.specs.MachineView.{event_view, next_progress, emission_view};
ghost use Rattle.tpl_exec.specs.Steps.{MachineStepAnswers, EmitAnswers, MayEmit, RefusedAnswers};

use crate::machine::Machine;
use crate::progress::{Emission, ExecEvent, Progress};
use crate::stop::ExecStop;
use page_datum::{Datum, ExecFault, FaultKind};
use page_io::{Memory, Text};
use std::alloc::Global;
use tpl_events::{HoleSink, HoleStop};
use tpl_tree::Forest;

/// Executes a template of a forest, by its number, with a datum, and answers the steps. Its events are given to the sink
/// in their order, up to the first that it refuses. The errors are the fault of the template, TooLong at the node whose
/// event the sink refused so, SinkStop where it refused one so, and out of memory. (Go's `text/template`, "Actions", in
/// a profile.)
///
/// A call of a template that the forest lacks is as a call of one without nodes: the sink is given the call and its end
/// and nothing between them, its argument is evaluated, and it counts among the calls that are open. Whoever wants such
/// a call refused does so before.
pub fn execute<'d, K: HoleSink>(
    alloc: Global,
    forest: &'d Forest,
    root: u32,
    datum: &'d Datum,
    sink: &mut K,
) -> Result<u64, ExecStop>
    requires root { root < length forest.now }
    requires may { Allows K.may K.takes sink.old (run_of forest.now root datum.now).events }
    ensures { ExecuteAnswers K.takes K.refuses forest.now root datum.now sink.old sink.new result }
{
    let mut machine = match Machine::start(alloc, forest, forest.name(root), datum.as_ref()) {
        Ok(machine) => machine,
        Err(Memory) => return Err(ExecStop::Memory),
    };
    loop {
        match step(alloc, &mut machine, forest, sink) {
            Ok(true) => {}
            Ok(false) => return Ok(machine.steps()),
            Err(stop) => return Err(stop),
        }
    }
}

// One advance of the machine, whose event the sink is given. Whether it goes on.
fn step<'d, K: HoleSink>(
    alloc: Global,
    run: &mut Machine<'d>,
    forest: &'d Forest,
    sink: &mut K,
) -> Result<bool, ExecStop>
    requires { MayEmit K.may (next_progress forest.now run.old) sink.old }
    ensures { MachineStepAnswers K.takes K.refuses forest.now run.old sink.old
        result run.new sink.new }
{
    match run.advance(alloc, forest) {
        Ok(Progress::Continues) => Ok(true),
        Ok(Progress::Finishes) => Ok(false),
        Ok(Progress::Emits(emission)) => match emit(alloc, sink, &emission) {
            Ok(()) => Ok(true),
            Err(stop) => Err(stop),
        },
        Err(stop) => Err(stop),
    }
}

// Gives a sink an event, and says why the execution stops where it refuses it.
fn emit<K: HoleSink>(alloc: Global, sink: &mut K, emission: &Emission<'_>) -> Result<(), ExecStop>
    requires { K.may sink.old (emission_view emission.now).event }
    ensures { EmitAnswers K.takes K.refuses (emission_view emission.now) sink.old result sink.new }
{
    match give(sink, &emission.event) {
        Ok(()) => Ok(()),
        Err(stop) => Err(refused(alloc, emission, stop)),
    }
}

// Gives a sink an event.
fn give<K: HoleSink>(sink: &mut K, event: &ExecEvent<'_>) -> Result<(), HoleStop>
    requires { K.may sink.old (event_view event.now) }
    ensures ok { OnOk result (K.takes sink.old (event_view event.now) sink.new) }
    ensures err { IfErr result (λ why. K.refuses sink.old (event_view event.now) why sink.new) }
{
    match event {
        ExecEvent::Text(node) => sink.text(*node),
        ExecEvent::Hole(node, value) => sink.hole(*node, value.datum()),
        ExecEvent::Enter(node) => sink.call(*node),
        ExecEvent::Leave => {
            sink.leave();
            Ok(())
        }
    }
}

// Why an execution stopped where its sink refused an event.
fn refused(alloc: Global, emission: &Emission<'_>, stop: HoleStop) -> ExecStop
    ensures { RefusedAnswers (emission_view emission.now) stop result }
{
    match stop {
        HoleStop::SinkStop => ExecStop::SinkStop,
        HoleStop::TooLong => match Text::copy_of(alloc, emission.template) {
            Ok(template) => ExecStop::Fault(ExecFault {
                kind: FaultKind::TooLong,
                template,
                line: emission.line,
            }),
            Err(Memory) => ExecStop::Memory,
        },
        HoleStop::Memory => ExecStop::Memory,
    }
}
