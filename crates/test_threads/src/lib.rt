//! Tests of books and of running peers. Of a book: seats of two applications and two participants over one journal,
//! call by call, with each of its allocations refused, and with as many entries as a journal has; and a count of a
//! gauge, as a monitor reads it. Of peers: whole runs of two applications that answer each other, and applications of
//! other kinds.
#![tactic(auto)]

#[cfg(test)]
mod tests;
