use crate::back_ways::BackWays;
use crate::candidate::{Candidate, CandidateStep};
use crate::derivations::Derivations;
use crate::origin::member_before;
use crate::standing::{Standing, same_standing};
use page_io::Memory;
use place_core::{Member, Place};
use place_derive::{Derivation, DerivedFrom};
use place_flow::{EdgeStep, Flows, transfer};
use std::alloc::Global;
use tpl_paths::Point;

/// The most steps that are taken back.
pub const MOST_STEPS: u32 = 67_108_864;

// A stretch of a path in one template, on which nothing is chosen: the point at which it ends, and the member there.
#[derive(Clone, Copy, Debug)]
struct Stretch {
    end: Point,
    member: Member,
    // whether it is known how far back it leads
    known: bool,
}

// A call of a pair, by the number of its edge.
#[derive(Clone, Copy, Debug)]
struct BackCall {
    template: u32,
    entry: Place,
    edge: u32,
    // where this back trace went into the call
    end: Option<BackEnd>,
}

// Where a back trace went into a call through the end of its template: the point behind the call, and the member there; the stretch that
// begins there, where one does; and how many steps the back trace had.
#[derive(Clone, Copy, Debug)]
struct BackEnd {
    behind: Point,
    member: Member,
    stretch: Option<Stretch>,
    steps: usize,
}

/// What a step back comes to.
#[derive(Clone, Copy, Debug)]
pub enum BackStep {
    /// A further point.
    At,
    /// The start of a root.
    Start(u32),
    /// Nothing, where the log does not say where a member comes from.
    Nowhere,
}

/// A path that is followed back from where it stands to the start of a root.
#[derive(Debug, Drop)]
pub struct BackTrace {
    // where it began
    begun: Standing,
    at: Standing,
    // the stretch that the last step is, where it stands on one
    stretch: Option<Stretch>,
    // the calls into which it went back through their ends, the last one last
    calls: Vec<BackCall>,
    // the steps, the last one of the path first
    steps: Vec<CandidateStep>,
}

impl BackTrace {
    /// A back trace that begins where its path stands.
    pub fn new(alloc: Global, at: Standing) -> BackTrace {
        BackTrace {
            begun: at,
            at,
            stretch: None,
            calls: Vec::new(alloc),
            steps: Vec::new(alloc),
        }
    }

    /// Another back trace that stands there, with no steps yet. Fails only if allocation fails.
    pub fn fork(&self, alloc: Global) -> Result<BackTrace, Memory> {
        let mut fork = BackTrace::new(alloc, self.at);
        for call in &self.calls {
            fork.calls.push(BackCall { end: None, ..*call })?;
        }
        Ok(fork)
    }

    /// Where it stands.
    pub fn standing(&self) -> Standing {
        self.at
    }

    /// The steps by which it came, in the order of the path.
    pub fn into_steps(self) -> Vec<CandidateStep> {
        let mut steps = self.steps;
        steps.as_mut_slice().reverse();
        steps
    }

    /// Goes on with a path that bears another member there.
    pub fn bear(&mut self, member: Member) {
        self.at = Standing { member, ..self.at };
    }

    /// Lets the path take an edge before all that it takes now. Fails only if allocation fails.
    pub fn take(&mut self, edge: u32) -> Result<(), Memory> {
        self.stretch = None;
        self.steps.push(CandidateStep::Along(edge))?;
        Ok(())
    }

    /// Goes back along an edge to its start.
    pub fn back_to(&mut self, at: Standing, edge: u32) -> Result<(), Memory> {
        self.take(edge)?;
        self.at = at;
        Ok(())
    }

    // Stands on a stretch, which ends there where it has stood on none.
    fn stretch_on(&mut self, known: bool) -> Result<(), Memory> {
        if let None = self.stretch {
            self.steps.push(CandidateStep::To(self.at.point))?;
            self.stretch = Some(Stretch {
                end: self.at.point,
                member: self.at.member,
                known,
            });
        }
        Ok(())
    }

    // Ends the stretch on which it stands, where it does: from now on it is known how far back that leads.
    fn end_stretch(
        &mut self,
        alloc: Global,
        flows: &Flows,
        ways: &mut BackWays,
    ) -> Result<(), Memory> {
        let Some(stretch) = self.stretch else {
            return Ok(());
        };
        self.stretch = None;
        let at = self.at;
        let end = Standing {
            point: stretch.end,
            member: stretch.member,
            ..at
        };
        if stretch.known || same_standing(end, self.begun) {
            return Ok(());
        }
        ways.add(alloc, flows, end, at.point, at.member)
    }

    /// Goes back at once to where a stretch begins, where that is known. Fails only if allocation fails.
    pub fn jump(&mut self, ways: &BackWays) -> Result<(), Memory> {
        if let Some(_) = self.stretch {
            return Ok(());
        }
        let Some((point, member)) = ways.before(self.at) else {
            return Ok(());
        };
        self.stretch_on(true)?;
        self.at = Standing {
            point,
            member,
            ..self.at
        };
        Ok(())
    }

    /// Goes back along an edge at whose end the back trace stands, given the place that came along it from its start: into a call through
    /// the end of its template. Fails only if allocation fails.
    pub fn back_along(
        &mut self,
        alloc: Global,
        flows: &Flows,
        ways: &mut BackWays,
        edge: u32,
        source: Place,
    ) -> Result<BackStep, Memory> {
        let at = self.at;
        if flows.is_call(at.template, edge as usize) {
            return self.back_into(flows, edge, source);
        }
        let Some((from, _)) = flows.ends(at.template, edge as usize) else {
            return Ok(BackStep::Nowhere);
        };
        if is_choice(flows, at.template, edge) {
            self.end_stretch(alloc, flows, ways)?;
            self.take(edge)?;
        } else {
            self.stretch_on(false)?;
        }
        self.at = Standing {
            point: from,
            member: member_before(flows, at.template, from, source, at.member),
            ..at
        };
        Ok(BackStep::At)
    }

    // Goes back into a call, through the end of the template that it calls.
    fn back_into(&mut self, flows: &Flows, edge: u32, source: Place) -> Result<BackStep, Memory> {
        let at = self.at;
        match transfer(flows, at.template, edge as usize, source) {
            EdgeStep::Enters(template, entry) => {
                let end = BackEnd {
                    behind: at.point,
                    member: at.member,
                    stretch: self.stretch,
                    steps: self.steps.len(),
                };
                self.calls.push(BackCall {
                    template: at.template,
                    entry: at.entry,
                    edge,
                    end: Some(end),
                })?;
                self.stretch = None;
                self.at = Standing {
                    template,
                    entry,
                    point: Point::Finish,
                    member: at.member,
                };
                Ok(BackStep::At)
            }
            _ => Ok(BackStep::Nowhere),
        }
    }

    // Goes back out of a template at its start, to the start of the edge that calls it.
    fn back_out(
        &mut self,
        alloc: Global,
        flows: &Flows,
        ways: &mut BackWays,
        call: BackCall,
    ) -> Result<BackStep, Memory> {
        let Some((from, _)) = flows.ends(call.template, call.edge as usize) else {
            return Ok(BackStep::Nowhere);
        };
        let member = self.at.member;
        let chose_nothing = self.chose_nothing(call);
        self.end_stretch(alloc, flows, ways)?;
        self.behind(call, chose_nothing);
        if chose_nothing {
            self.stretch_on(false)?;
        } else {
            self.end_stretch(alloc, flows, ways)?;
            self.take(call.edge)?;
        }
        self.at = Standing {
            template: call.template,
            entry: call.entry,
            point: from,
            member,
        };
        Ok(BackStep::At)
    }

    // Whether the back trace chose nothing in the template of a call, to whose start it came from its end.
    fn chose_nothing(&self, call: BackCall) -> bool {
        let Some(end) = call.end else {
            return false;
        };
        match self.stretch {
            Some(_) => self.steps.len() <= end.steps.saturating_add(1),
            None => self.steps.len() <= end.steps,
        }
    }

    // Stands behind a call, as where it went into it: where it chose nothing there, its way through the template is no step.
    fn behind(&mut self, call: BackCall, chose_nothing: bool) {
        if let Some(end) = call.end {
            if chose_nothing {
                self.steps.truncate(end.steps);
            }
            self.stretch = end.stretch;
            self.at = Standing {
                template: call.template,
                entry: call.entry,
                point: end.behind,
                member: end.member,
            };
        }
    }

    // Goes back as a derivation came that gave the point its place. A template into which the back trace went through its end is left by the
    // call through which it went.
    fn back_as(
        &mut self,
        alloc: Global,
        flows: &Flows,
        ways: &mut BackWays,
        derivation: Derivation,
    ) -> Result<BackStep, Memory> {
        if let DerivedFrom::Along(edge) = derivation.from {
            return self.back_along(alloc, flows, ways, edge, derivation.source);
        }
        match (self.calls.pop(), derivation.from) {
            (Some(call), _) => self.back_out(alloc, flows, ways, call),
            (None, DerivedFrom::Called(template, entry, edge)) => {
                let call = BackCall {
                    template,
                    entry,
                    edge,
                    end: None,
                };
                self.back_out(alloc, flows, ways, call)
            }
            _ => Ok(BackStep::Start(derivation.template)),
        }
    }

    /// Likewise. Reports whether it went, and not to the start of a root. Fails only if allocation fails.
    pub fn back_by(
        &mut self,
        alloc: Global,
        flows: &Flows,
        ways: &mut BackWays,
        derivation: Derivation,
    ) -> Result<bool, Memory> {
        match self.back_as(alloc, flows, ways, derivation)? {
            BackStep::At => Ok(true),
            _ => Ok(false),
        }
    }

    // One step back.
    fn step_back(
        &mut self,
        alloc: Global,
        flows: &Flows,
        derivations: &Derivations,
        ways: &mut BackWays,
    ) -> Result<BackStep, Memory> {
        self.jump(ways)?;
        let at = self.at;
        match derivations.oldest(at.template, at.entry, at.point, at.member) {
            Some(derivation) => self.back_as(alloc, flows, ways, derivation),
            None => Ok(BackStep::Nowhere),
        }
    }

    /// The path, from the start of a root on: at each point the back trace goes back as the oldest derivation came that gave the point what
    /// the back trace comes from. A stretch of a template on which it chooses nothing it goes once for each place in which the template is
    /// entered and each member at its end. None where the log has no path. Fails if allocation fails, or where it goes more than 2^26 steps,
    /// as on a path of so many choices.
    pub fn candidate(
        mut self,
        alloc: Global,
        flows: &Flows,
        derivations: &Derivations,
    ) -> Result<Option<Candidate>, Memory> {
        let mut ways = BackWays::new(alloc, flows.forest().count())?;
        for _step in 0..MOST_STEPS {
            match self.step_back(alloc, flows, derivations, &mut ways)? {
                BackStep::At => {}
                BackStep::Start(root) => return Ok(Some(Candidate {
                    root,
                    steps: self.into_steps(),
                })),
                BackStep::Nowhere => return Ok(None),
            }
        }
        Err(Memory)
    }
}

fn is_choice(flows: &Flows, template: u32, edge: u32) -> bool {
    match flows.choice(template, edge as usize) {
        Some(_) => true,
        None => false,
    }
}
