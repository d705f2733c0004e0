use page_io::Memory;
use place_flow::{Flows, point_number};
use std::alloc::Global;
use tpl_paths::Point;

// No number.
const NONE: u32 = u32::MAX;

/// Numbers that points of templates have, each at most one.
#[derive(Debug, Drop)]
pub struct PointNumbers {
    // by the numbers of the templates and of their points; empty where none of a template's points has one
    of_template: Vec<Vec<u32>>,
}

impl PointNumbers {
    /// None yet, of so many templates. Fails only if allocation fails.
    pub fn new(alloc: Global, templates: usize) -> Result<PointNumbers, Memory> {
        let mut of_template = Vec::new(alloc);
        for _template in 0..templates {
            of_template.push(Vec::new(alloc))?;
        }
        Ok(PointNumbers { of_template })
    }

    /// Whether a point of the template has one.
    pub fn are_of(&self, template: u32) -> bool {
        match self.of_template.get(template as usize) {
            Some(numbers) => numbers.len() > 0,
            None => false,
        }
    }

    /// The number of a point, where it has one.
    pub fn get(&self, template: u32, point: Point) -> Option<usize> {
        let numbers = self.of_template.get(template as usize)?;
        match numbers.get(point_number(point)) {
            Some(number) if *number < NONE => Some(*number as usize),
            _ => None,
        }
    }

    /// Gives a point a number, which is kept where it is less than 2^32 - 1. Fails only if allocation fails.
    pub fn set(
        &mut self,
        alloc: Global,
        flows: &Flows,
        template: u32,
        point: Point,
        number: usize,
    ) -> Result<(), Memory> {
        let at = template as usize;
        if at >= self.of_template.len() || number >= NONE as usize {
            return Ok(());
        }
        if self.of_template[at].len() == 0 {
            self.of_template[at] = vec![in alloc; NONE; flows.points(template)]?;
        }
        put(
            &mut self.of_template[at],
            point_number(point),
            number as u32,
        );
        Ok(())
    }
}

fn put(numbers: &mut Vec<u32>, at: usize, number: u32) {
    if at < numbers.len() {
        numbers[at] = number;
    }
}
