use page_io::Memory;
use place_core::{Member, Place, has, has_apart, spells_apart};
use place_derive::Derivation;
use place_flow::{Flows, point_number};
use std::alloc::Global;
use tpl_paths::Point;

// No derivation.
const NONE: u32 = u32::MAX;

// A place in which a template is entered, and by the numbers of the points the first derivation there, or `NONE`.
#[derive(Debug, Drop)]
struct EnteredPair {
    entry: Place,
    first: Vec<u32>,
}

/// The derivations of a log by their pairs and points.
#[derive(Drop)]
pub struct Derivations<'l> {
    log: &'l [Derivation],
    // by the numbers of the templates
    pairs: Vec<Vec<EnteredPair>>,
    // by the number of a derivation, the next one at the same point of its pair, or `NONE`
    next: Vec<u32>,
}

/// The derivations of a log. Fails only if allocation fails. It takes time in proportion to the log and to the points of its pairs.
pub fn derivations_of<'l>(
    alloc: Global,
    flows: &Flows,
    log: &'l [Derivation],
) -> Result<Derivations<'l>, Memory> {
    let mut pairs = Vec::new(alloc);
    for _template in 0..flows.forest().count() {
        pairs.push(Vec::new(alloc))?;
    }
    let mut next = vec![in alloc; NONE; log.len()]?;
    for number in (0..log.len()).rev() {
        add(alloc, flows, &mut pairs, &mut next, number, log[number])?;
    }
    Ok(Derivations { log, pairs, next })
}

// Adds a derivation before all that are at its point.
fn add(
    alloc: Global,
    flows: &Flows,
    pairs: &mut Vec<Vec<EnteredPair>>,
    next: &mut Vec<u32>,
    number: usize,
    derivation: Derivation,
) -> Result<(), Memory> {
    let template = derivation.template as usize;
    if template >= pairs.len() || number >= next.len() || number >= NONE as usize {
        return Ok(());
    }
    let points = flows.points(derivation.template);
    let at = pair_at(alloc, &mut pairs[template], derivation.entry, points)?;
    next[number] = put_first(&mut pairs[template], at, derivation.point, number as u32);
    Ok(())
}

// The number of a pair among those of its template, to which it is added where it is not yet one.
fn pair_at(
    alloc: Global,
    pairs: &mut Vec<EnteredPair>,
    entry: Place,
    points: usize,
) -> Result<usize, Memory> {
    match find(pairs.as_slice(), entry) {
        Some(at) => Ok(at),
        None => {
            let at = pairs.len();
            pairs.push(EnteredPair {
                entry,
                first: vec![in alloc; NONE; points]?,
            })?;
            Ok(at)
        }
    }
}

fn find(pairs: &[EnteredPair], entry: Place) -> Option<usize> {
    for at in 0..pairs.len() {
        if pairs[at].entry == entry {
            return Some(at);
        }
    }
    None
}

// Makes a derivation the first one at a point, and gives the one that was.
fn put_first(pairs: &mut Vec<EnteredPair>, at: usize, point: Point, number: u32) -> u32 {
    if at >= pairs.len() {
        return NONE;
    }
    replace(&mut pairs[at].first, point_number(point), number)
}

fn replace(first: &mut Vec<u32>, point: usize, number: u32) -> u32 {
    if point >= first.len() {
        return NONE;
    }
    let old = first[point];
    first[point] = number;
    old
}

/// What first gave a point of a pair a place at which two paths met apart in the beginning of a URL.
#[derive(Clone, Copy, Debug)]
pub enum FirstApart {
    /// A derivation, whose derived place has it.
    By(Derivation),
    /// Two derivations, the derived places of which are apart.
    ByTwo(Derivation, Derivation),
}

// What was found of a point's derivations so far.
#[derive(Clone, Copy)]
enum Search {
    // None whose derived place is in the beginning of a URL.
    Closed,
    // The oldest one whose derived place is.
    Opened(Derivation),
    // What is looked for.
    Apart(FirstApart),
}

impl<'l> Derivations<'l> {
    /// What first gave a point of a pair a place at which two paths met apart, where something did.
    pub fn first_apart(&self, template: u32, entry: Place, point: Point) -> Option<FirstApart> {
        let mut search = Search::Closed;
        let mut at = self.first(template, entry, point);
        for _turn in 0..self.log.len() {
            match at {
                Some(number) => {
                    search = self.search_on(search, number);
                    at = self.next(number);
                }
                None => return found(search),
            }
        }
        found(search)
    }

    // What was found once a further derivation was looked at.
    fn search_on(&self, search: Search, number: usize) -> Search {
        match self.derivation(number) {
            Some(derivation) => searched(search, derivation),
            None => search,
        }
    }

    /// The oldest derivation at a point of a pair whose derived place has a member.
    pub fn oldest(
        &self,
        template: u32,
        entry: Place,
        point: Point,
        member: Member,
    ) -> Option<Derivation> {
        let mut at = self.first(template, entry, point);
        for _turn in 0..self.log.len() {
            match at {
                Some(number) if self.gives(number, member) => return self.derivation(number),
                Some(number) => at = self.next(number),
                None => return None,
            }
        }
        None
    }

    fn first(&self, template: u32, entry: Place, point: Point) -> Option<usize> {
        match self.pairs.get(template as usize) {
            Some(pairs) => first_in(pairs.as_slice(), entry, point),
            None => None,
        }
    }

    fn next(&self, number: usize) -> Option<usize> {
        number_at(self.next.as_slice(), number)
    }

    fn derivation(&self, number: usize) -> Option<Derivation> {
        match self.log.get(number) {
            Some(derivation) => Some(*derivation),
            None => None,
        }
    }

    // Whether the derived place of a derivation has a member.
    fn gives(&self, number: usize, member: Member) -> bool {
        match self.derivation(number) {
            Some(derivation) => has(derivation.place, member),
            None => false,
        }
    }
}

fn searched(search: Search, derivation: Derivation) -> Search {
    match search {
        Search::Apart(_) => search,
        _ if has_apart(derivation.place) => Search::Apart(FirstApart::By(derivation)),
        Search::Opened(one) => {
            if spells_apart(one.place, derivation.place) {
                Search::Apart(FirstApart::ByTwo(one, derivation))
            } else {
                search
            }
        }
        Search::Closed => {
            if has(derivation.place, Member::PartOpen) {
                Search::Opened(derivation)
            } else {
                search
            }
        }
    }
}

fn found(search: Search) -> Option<FirstApart> {
    match search {
        Search::Apart(first) => Some(first),
        _ => None,
    }
}

fn first_in(pairs: &[EnteredPair], entry: Place, point: Point) -> Option<usize> {
    for pair in pairs {
        if pair.entry == entry {
            return first_at(pair, point);
        }
    }
    None
}

fn first_at(pair: &EnteredPair, point: Point) -> Option<usize> {
    number_at(pair.first.as_slice(), point_number(point))
}

// The number that is kept there, where there is one.
fn number_at(numbers: &[u32], at: usize) -> Option<usize> {
    match numbers.get(at) {
        Some(number) if *number < NONE => Some(*number as usize),
        _ => None,
    }
}
