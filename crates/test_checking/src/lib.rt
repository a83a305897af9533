//! Tests of a check and of what it rests on. By tables that are worked by hand and as another implementation answers:
//! which policies of one endpoint go together, patterns of partitions, the ranges of messages, names that are added
//! under a limit, certificate files (what is read from them, the text of a certificate, what is read of that again),
//! and the simplex method. Over files in memory: devices that fail or are slow, every beginning of a file, and files
//! before and after `migrate`.
#![tactic(auto)]

#[cfg(test)]
mod tests;
