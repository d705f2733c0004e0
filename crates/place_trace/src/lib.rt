// From the log of derivations back to candidate paths, and their replay along the edges of the templates.
#![tactic(auto)]

mod apart_trace;
mod back_trace;
mod back_ways;
mod calls;
mod candidate;
mod candidate_replay;
mod chosen;
mod derivations;
mod edges;
mod finding;
mod first_edges;
mod moving;
mod origin;
mod point_numbers;
mod points;
mod replay;
mod showing;
mod standing;
mod unchosen_ways;

pub use candidate::{Candidate, CandidateStep, Candidates, MetApart};
pub use candidate_replay::replayed;
pub use chosen::Chosen;
pub use finding::{candidate_of_end, candidates_of_conflict};
pub use first_edges::FirstEdges;
pub use point_numbers::PointNumbers;
pub use points::same_point;
pub use replay::{PathReplay, ReplayedCall};
