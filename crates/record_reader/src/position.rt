//! Where something stands in what is read.

/// What is read: a record, by its place among all, or the entries of the book.
#[derive(Clone, Copy, Debug, PartialEq, Eq)]
pub enum Source {
    Record(usize),
    Book,
}

/// What is read, and the line there, from 1.
#[derive(Clone, Copy, Debug)]
pub struct Position {
    pub source: Source,
    pub line: u64,
}
