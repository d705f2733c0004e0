use page_io::Memory;
use place_flow::point_number;
use std::alloc::Global;
use std::collections::VecDeque;
use tpl_paths::Point;

/// A point of a summary, by the summary's number.
#[derive(Clone, Copy, Debug)]
pub struct Task {
    /// The summary's number.
    pub summary: usize,
    /// The point.
    pub point: Point,
}

// What is to be known of a summary: which of its points wait, by their numbers, and the points from which it is called.
#[derive(Debug, Drop)]
struct Waiting {
    waits: Vec<bool>,
    callers: Vec<Task>,
}

/// The points that have more than was followed from them, each once, in the order in which they came.
#[derive(Debug, Drop)]
pub struct Queue {
    tasks: VecDeque<Task>,
    summaries: Vec<Waiting>,
}

impl Queue {
    /// Nothing waits.
    pub fn new(alloc: Global) -> Queue {
        Queue {
            tasks: VecDeque::new(alloc),
            summaries: Vec::new(alloc),
        }
    }

    /// One more summary, whose points have so many numbers. Fails only if allocation fails.
    pub fn add_summary(&mut self, alloc: Global, points: usize) -> Result<(), Memory> {
        self.summaries.push(Waiting {
            waits: vec![in alloc; false; points]?,
            callers: Vec::new(alloc),
        })?;
        Ok(())
    }

    /// Lets a point wait, where it does not yet. Fails only if allocation fails.
    pub fn push(&mut self, task: Task) -> Result<(), Memory> {
        if self.mark(task, true) {
            self.tasks.push_back(task)?;
        }
        Ok(())
    }

    /// Takes the point that has waited longest.
    pub fn pop(&mut self) -> Option<Task> {
        match self.tasks.pop_front() {
            Some(task) => {
                self.mark(task, false);
                Some(task)
            }
            None => None,
        }
    }

    // Sets whether a point waits, and reports whether that is new.
    fn mark(&mut self, task: Task, waits: bool) -> bool {
        if task.summary >= self.summaries.len() {
            return false;
        }
        mark_point(&mut self.summaries[task.summary].waits, task.point, waits)
    }

    /// A summary is called from a point of another summary. Fails only if allocation fails.
    pub fn add_caller(&mut self, summary: usize, caller: Task) -> Result<(), Memory> {
        if summary >= self.summaries.len() {
            return Ok(());
        }
        self.summaries[summary].callers.push(caller)?;
        Ok(())
    }

    /// Lets the points wait from which a summary is called. Fails only if allocation fails.
    pub fn push_callers(&mut self, summary: usize) -> Result<(), Memory> {
        for n in 0..self.caller_count(summary) {
            if let Some(caller) = self.caller(summary, n) {
                self.push(caller)?;
            }
        }
        Ok(())
    }

    fn caller_count(&self, summary: usize) -> usize {
        match self.summaries.get(summary) {
            Some(waiting) => waiting.callers.len(),
            None => 0,
        }
    }

    fn caller(&self, summary: usize, n: usize) -> Option<Task> {
        match self.summaries.get(summary) {
            Some(waiting) => match waiting.callers.get(n) {
                Some(caller) => Some(*caller),
                None => None,
            },
            None => None,
        }
    }
}

fn mark_point(points: &mut Vec<bool>, point: Point, waits: bool) -> bool {
    let number = point_number(point);
    if number >= points.len() {
        return false;
    }
    let is_new = points[number] != waits;
    points[number] = waits;
    is_new
}
