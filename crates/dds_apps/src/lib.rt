//! Applications of a deployment that runs: what one is, its diary, and how its thread plays it at a book.
#![tactic(auto)]

mod app;
mod boxed;
mod diary;
mod player;

pub use app::{Act, App, Gate};
pub use diary::Diary;
pub use player::{AppEnd, Limits, Player};
