use tpl_paths::Point;

/// A step of a path in the template in which it then stands.
#[derive(Clone, Copy, Debug)]
pub enum CandidateStep {
    /// Along an edge, by its number. That of a call enters its template. At a template's end the path goes back by itself, which is no step.
    Along(u32),
    /// To a point of the template, along edges that are no choices; where one calls a template, through that, in which nothing is chosen.
    To(Point),
}

/// A path of a root that may show an error. Nothing is promised of it: whoever shows it replays it first.
#[derive(Debug, Drop)]
pub struct Candidate {
    /// The number of the root's template.
    pub root: u32,
    /// The steps that the path takes from the root's start on, in order.
    pub steps: Vec<CandidateStep>,
}

/// Two paths that may have met apart: at one point both were in the beginning of a URL, and it spelled different things on the two, or they
/// came apart in the text behind that point. Nothing is promised of them.
#[derive(Debug, Drop)]
pub struct MetApart {
    /// One of the two, to the point at which they met.
    pub one: Candidate,
    /// The other one.
    pub other: Candidate,
    /// The steps that both take from there on.
    pub common: Vec<CandidateStep>,
}

/// Paths that may show why something is in conflict.
#[derive(Debug, Drop)]
pub enum Candidates {
    /// One path, or two that meet where the conflict is; none where the log does not say where they come from.
    AtConflict(Vec<Candidate>),
    /// Two that met apart before they came there.
    MetApart(MetApart),
}
