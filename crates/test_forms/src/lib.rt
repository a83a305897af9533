//! The plain forms of the cache, the reader and the writer: the same calls with the same contracts, over lists that
//! each call walks. Only tests use them: they give both forms the same calls, and compare the answers.
#![tactic(auto)]

pub mod cache;
mod contents;
mod held;
mod history;
mod keys;
mod marks;
mod notes;
mod proxies;
pub mod reader;
mod released;
pub mod writer;

pub use cache::PlainCache;
pub use reader::PlainReader;
pub use writer::PlainWriter;
