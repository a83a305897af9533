//! A deployment: its participants, topics, writers, readers, applications, rules and connections, as lists in which
//! names have become numbers. Every `Deployment` is well formed, and the layers above see it as these lists.
#![tactic(auto)]

pub mod deployment;
pub mod lists;

pub use deployment::Deployment;
pub use lists::{
    Application, Joins, Origin, Pace, Participant, Reader, Rule, Rules, Topic, Writer,
};
