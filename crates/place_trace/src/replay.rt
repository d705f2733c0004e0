ghost use Rattle.std.specs.Prelude.{◌≡◌, IfSome, IsTrue, OnOk};
ghost use Rattle.place_trace.specs.Replays.{IsPathReplay, WentAlong, WentBack};
ghost use Rattle.place_trace.specs.UnchosenWays.{AreUnchosenWays};

use crate::calls::{close, innermost, same_calls};
use crate::chosen::Chosen;
use crate::moving::go_on;
use crate::points::same_point;
use crate::unchosen_ways::UnchosenWays;
use page_io::Memory;
use place_core::{Place, TEXT};
use place_flow::Flows;
use std::alloc::Global;
use tpl_paths::Point;

/// A call that is open on a path.
#[derive(Clone, Copy, Debug)]
pub struct ReplayedCall {
    /// The number of the template that calls.
    pub template: u32,
    /// The node of the call.
    pub node: u32,
    /// Where the path goes on after the call.
    pub back: Point,
}

/// A path of a root that is replayed: where it stands, and the place of this path there.
#[derive(Debug, Drop)]
pub struct PathReplay {
    /// The number of the root's template.
    pub root: u32,
    /// The calls that are open, the outermost first.
    pub open_calls: Vec<ReplayedCall>,
    /// The number of the template in which the path stands.
    pub template: u32,
    /// The point at which it stands.
    pub point: Point,
    /// The path's own place there.
    pub place: Place,
    /// What it chose, in order.
    pub chosen: Vec<Chosen>,
}

impl PathReplay {
    /// A path that stands at the start of a root. None where the forest has no template of this number.
    pub fn new(alloc: Global, flows: &Flows, root: u32) -> Option<PathReplay>
        ensures { IfSome result (IsPathReplay flows.now) }
    {
        if root as usize >= flows.forest().count() {
            return None;
        }
        Some(PathReplay {
            root,
            open_calls: Vec::new(alloc),
            template: root,
            point: flows.start(root),
            place: TEXT,
            chosen: Vec::new(alloc),
        })
    }

    /// Goes on along an edge of the template, by its number, where the edge begins at the path's point and is not refused from the path's
    /// place; a call enters its template. Reports whether it went. Fails only if allocation fails.
    pub fn go_along(&mut self, flows: &Flows, number: usize) -> Result<bool, Memory>
        ensures path { OnOk result (IsPathReplay flows.now self.old
            → IsPathReplay flows.now self.new) }
        ensures moves { WentAlong flows.now self.old self.new number result }
    {
        if self.template as usize >= flows.forest().count() {
            return Ok(false);
        }
        match flows.ends(self.template, number) {
            Some((from, to)) => {
                if same_point(self.point, from) {
                    go_on(self, flows, number, to)
                } else {
                    Ok(false)
                }
            }
            None => Ok(false),
        }
    }

    /// Goes on to another point of the template, where nothing is chosen on the way and no node on it is refused; through the templates that
    /// are called on it. Reports whether it went. Fails only if allocation fails.
    pub(crate) fn go_to(
        &mut self,
        alloc: Global,
        flows: &Flows,
        ways: &mut UnchosenWays,
        to: Point,
    ) -> Result<bool, Memory>
        ensures ways { AreUnchosenWays flows.now ways.old
            → OnOk result (AreUnchosenWays flows.now ways.new) }
        ensures path { AreUnchosenWays flows.now ways.old → IsPathReplay flows.now self.old
            → OnOk result (IsPathReplay flows.now self.new) }
    {
        match ways.reach(alloc, flows, self.template, self.point, self.place, to)? {
            Some(exit) => {
                self.point = to;
                self.place = exit;
                Ok(true)
            }
            None => Ok(false),
        }
    }

    /// Goes back from the end of a template that was called to where its call goes on. Reports whether it went.
    pub fn go_back(&mut self, flows: &Flows) -> bool
        ensures path { IsPathReplay flows.now self.old → IsPathReplay flows.now self.new }
        ensures moves { WentBack flows.now self.old self.new result }
    {
        if !same_point(self.point, Point::Finish) {
            return false;
        }
        match innermost(self.open_calls.as_slice(), flows.forest().count()) {
            Some(call) => {
                close(&mut self.open_calls, call);
                self.template = call.template;
                self.point = call.back;
                true
            }
            None => false,
        }
    }

    /// Whether another path is one of the same root and stands at the same point of the same template, with the same calls open.
    pub fn stands_with(&self, other: &PathReplay) -> bool
        ensures root { IsTrue result → self.now.root ≡ other.now.root }
        ensures template { IsTrue result → self.now.template ≡ other.now.template }
        ensures point { IsTrue result → self.now.point ≡ other.now.point }
        ensures open_calls { IsTrue result
            → self.now.open_calls.items ≡ other.now.open_calls.items }
    {
        self.root == other.root
            && self.template == other.template
            && same_point(self.point, other.point)
            && same_calls(self.open_calls.as_slice(), other.open_calls.as_slice())
    }
}
