//! A picture of a deployment, as a document in DOT, the language of Graphviz: participants and applications as
//! clusters, endpoints and rules as nodes, and what rules take and write and which endpoints match as edges.
#![tactic(auto)]

mod clusters;
mod edges;
mod nodes;
mod picture;
mod room;

pub use picture::drawing;
