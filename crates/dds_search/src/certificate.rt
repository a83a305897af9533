//! The search for a certificate: the weights of each limit, by linear programming, and the rows that they make.

pub(crate) mod attempt;
pub(crate) mod climbing;
pub(crate) mod collecting;
pub(crate) mod depths;
pub mod finding;
pub(crate) mod listing;
pub mod rays;
pub mod reasons;
pub(crate) mod rising;
pub(crate) mod rounding;
pub(crate) mod rows;
pub(crate) mod scope;
pub mod searching;
pub mod sizes;
pub(crate) mod summing;
pub mod totals;
pub(crate) mod weights;
