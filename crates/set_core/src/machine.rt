ghost use Rattle.std.specs.Prelude.{◌≡◌, ◌↔◌, ◌<◌, ◌≤◌, length, IsTrue, IfOk, OnErr, MatchBool, MatchOption};
ghost use Rattle.set_core.specs.Publications.{IsViewer, publication_opened};
ghost use Rattle.set_core.specs.Acts.{ViewerMayEnter, after_act, publish, refuse, add_viewer};
ghost use Rattle.set_core.specs.Answers.{ViewerEntered, NotEntered, Learns, LearnsNot};

use page_io::Memory;
use std::alloc::Global;
use std::marker::Model;

/// A list of published keys, numbered from 1 and never empty, and for each viewer the number that it has seen. Contracts see a
/// `Publication` of `specs/Publications.antt`, and each call does an act of `specs/Acts.antt` or changes nothing.
#[derive(Debug, Drop)]
pub struct Core {
    keys: Vec<u64>,
    seen: Vec<u64>,
}

impl Model for Core {
    ghost use Rattle.set_core.specs.Publications.{Publication, IsPublication};
    ghost use Rattle.std.specs.Prelude.{ℕ};

    ghost Value = { Publication ℕ };

    ghost view = { λ c. record { keys = c.keys.items; seen = c.seen.items } };

    ghost invariant = { λ c. IsPublication (record { keys = c.keys.items; seen = c.seen.items }) };
}

impl Core {
    /// A list with one key, and no viewer. Fails only if allocation fails.
    pub fn new(alloc: Global, first: u64) -> Result<Core, Memory>
        ensures { IfOk result (λ core. core ≡ publication_opened first) }
    {
        let mut keys = Vec::new(alloc);
        keys.push(first)?;
        Ok(Core {
            keys,
            seen: Vec::new(alloc),
        })
    }

    /// Appends a key, and gives its number. Fails only if allocation fails; then nothing has changed.
    pub fn publish(&mut self, key: u64) -> Result<u64, Memory>
        ensures key { IfOk result (λ _. self.new ≡ after_act self.old (publish key)) }
        ensures number { IfOk result (λ number. number ≡ length self.new.keys) }
        ensures err { OnErr result (self.new ≡ self.old) }
    {
        self.keys.push(key)?;
        Ok(self.keys.len() as u64)
    }

    /// Notes that a set was refused, which changes nothing.
    pub fn refuse(&mut self)
        ensures act { self.new ≡ after_act self.old refuse }
        ensures keeps { self.new ≡ self.old }
    {}

    /// Adds a viewer that has seen the first key, and gives its name; names count from 0. Fails only if allocation fails; then nothing
    /// has changed.
    pub fn add_viewer(&mut self) -> Result<u32, Memory>
        requires { length self.old.seen < 4294967295 }
        ensures viewer { IfOk result (λ viewer. viewer ≡ length self.old.seen) }
        ensures act { IfOk result (λ _. self.new ≡ after_act self.old add_viewer) }
        ensures err { OnErr result (self.new ≡ self.old) }
    {
        let viewer = self.seen.len() as u32;
        self.seen.push(1)?;
        Ok(viewer)
    }

    /// Whether a viewer may enter at a number: it lies from what the viewer has seen to the length of the list.
    pub fn may_enter(&self, viewer: u32, number: u64) -> bool
        requires { IsViewer self.now viewer }
        ensures { IsTrue result ↔ ViewerMayEnter self.now viewer number }
    {
        self.seen[viewer as usize] <= number && number <= self.keys.len() as u64
    }

    /// Has a viewer enter at a number, and gives the key of that number. It is none exactly where the viewer may not enter there, and
    /// then nothing has changed.
    pub fn enter(&mut self, viewer: u32, number: u64) -> Option<u64>
        requires { IsViewer self.old viewer }
        ensures { MatchOption result (NotEntered self.old viewer number self.new)
            (ViewerEntered self.old viewer number self.new) }
    {
        if !self.may_enter(viewer, number) {
            return None;
        }
        let key = self.keys[number as usize - 1];
        self.seen[viewer as usize] = number;
        Some(key)
    }

    /// How many viewers there are.
    pub fn viewers(&self) -> usize
        ensures { result ≡ length self.now.seen }
    {
        self.seen.len()
    }

    /// The number of the last key.
    pub fn tell(&self) -> u64
        ensures { result ≡ length self.now.keys }
    {
        self.keys.len() as u64
    }

    /// Has a viewer learn a number: from then on it has seen at least so much. It is false exactly where the list has no such number
    /// yet, and then nothing has changed.
    pub fn learn(&mut self, viewer: u32, number: u64) -> bool
        requires { IsViewer self.old viewer }
        ensures { MatchBool result (Learns self.old viewer number self.new)
            (LearnsNot self.old number self.new) }
    {
        if number > self.keys.len() as u64 {
            return false;
        }
        let seen = self.seen[viewer as usize];
        self.seen[viewer as usize] = seen.max(number);
        true
    }
}
