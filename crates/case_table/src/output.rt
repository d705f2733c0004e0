use crate::case_stop::CaseStop;
use page_datum::ExecFault;
use page_io::{Memory, Text};
use std::alloc::{AllocError, Global};

/// What is written of a call. Where memory runs out, it only keeps that it did.
#[derive(Drop)]
pub struct CaseOutput {
    text: Text,
    is_lost: bool,
}

impl CaseOutput {
    /// Nothing written yet.
    pub fn new(alloc: Global) -> CaseOutput {
        CaseOutput {
            text: Text::new(alloc),
            is_lost: false,
        }
    }

    /// The allocator that texts are made in.
    pub fn alloc(&self) -> Global {
        self.text.allocator()
    }

    /// Writes a text.
    pub fn put(&mut self, text: &str) {
        if self.text.push_str(text).is_err() {
            self.is_lost = true;
        }
    }

    /// Writes what a `format!` made.
    pub fn put_made(&mut self, made: Result<String, AllocError>) {
        match made {
            Ok(text) => self.put(text.as_str()),
            Err(_) => self.is_lost = true,
        }
    }

    /// Writes a text that a call gave.
    pub fn put_text(&mut self, given: Result<Text, Memory>) {
        match given {
            Ok(text) => self.put(text.as_str()),
            Err(_) => self.is_lost = true,
        }
    }

    /// Writes a number.
    pub fn put_count(&mut self, count: u64) {
        self.put_made(format!(in self.alloc(); "{count}"));
    }

    /// Writes a number, or `-` for none.
    pub fn put_number(&mut self, number: Option<u32>) {
        match number {
            Some(number) => self.put_count(number as u64),
            None => self.put("-"),
        }
    }

    /// Writes the kind of a fault, its template and its line.
    pub fn put_fault(&mut self, fault: &ExecFault) {
        let (kind, template, line) = (fault.kind, fault.template.as_str(), fault.line);
        self.put_made(format!(in self.alloc(); "{kind:?} {template}:{line}"));
    }

    /// Writes what stands between two parts, where something was written before.
    pub fn put_between(&mut self, mark: &str) {
        if !self.text.is_empty() {
            self.put(mark);
        }
    }

    /// Keeps that memory ran out.
    pub fn lose(&mut self) {
        self.is_lost = true;
    }

    /// All that was written.
    pub fn finish(self) -> Result<Text, CaseStop> {
        if self.is_lost {
            return Err(CaseStop::Memory);
        }
        Ok(self.text)
    }
}
