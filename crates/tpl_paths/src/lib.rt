// The paths of templates, whatever the data: the edges of a template from point to point, and the walks along them.
#![tactic(auto)]

mod choice;
mod edge;
mod edges;
mod laws;
mod point;

pub use choice::Way;
pub use edge::Edge;
pub use edges::edges_of;
pub use laws::{choices_determine, edges_have_nodes, prefix_is_path};
pub use point::Point;
