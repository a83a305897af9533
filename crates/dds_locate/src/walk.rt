//! The way through a TOML text, which notes what stands where.

use crate::path::Path;
use crate::places::Place;
use crate::scanner::Scanner;
use crate::span::Span;
use dds_base::NoMemory;
use indexmap::IndexMap;
use std::alloc::Global;

/// The most bytes of a path that is noted. Without a limit a text of many open brackets would take memory and time by
/// the square of its length.
const LONGEST_PATH: usize = 1024;

/// An array or a table in brackets that isn't closed yet: how long its own path is, and of an array which element comes
/// next.
#[derive(Clone, Copy)]
enum Open {
    Array { path: usize, next: usize },
    Table { path: usize },
}

/// What comes after a value.
enum Next {
    /// A value after this name, to which the path leads.
    Named(Span),
    /// An element, to which the path leads.
    Element,
    /// Nothing of the same statement.
    End,
}

/// What a header begins.
#[derive(Clone, Copy, PartialEq, Eq)]
enum Header {
    /// A table, in single brackets.
    Table,
    /// An element of an array of tables, in double brackets.
    Element,
}

/// The way through a text.
#[derive(Drop)]
pub(crate) struct Walk<'a> {
    alloc: Global,
    scanner: Scanner<'a>,
    path: Path,
    /// The element that stands last, by the path of its array of tables.
    last: IndexMap<Vec<u8>, usize>,
    places: IndexMap<Vec<u8>, Place>,
}

impl<'a> Walk<'a> {
    /// The beginning of a text.
    pub(crate) fn new(alloc: Global, bytes: &'a [u8]) -> Walk<'a> {
        Walk {
            alloc,
            scanner: Scanner::new(bytes),
            path: Path::new(alloc),
            last: IndexMap::new(alloc),
            places: IndexMap::new(alloc),
        }
    }

    /// The places that were noted.
    pub(crate) fn finish(self) -> IndexMap<Vec<u8>, Place> {
        let Walk {
            places,
            alloc: _,
            scanner: _,
            path: _,
            last: _,
        } = self;
        places
    }

    /// The stretch from a place to where the scanner is.
    fn since(&self, start: usize) -> Span {
        Span::within(self.scanner.bytes.len(), start, self.scanner.at)
    }

    /// Notes what the path leads to, unless something stands there already.
    fn note(&mut self, name: Span, value: Span) -> Result<(), NoMemory> {
        if LONGEST_PATH < self.path.len() || self.places.contains_key(self.path.as_slice()) {
            return Ok(());
        }
        let path = self.path.copy()?;
        self.places.insert(path, Place { name, value })?;
        Ok(())
    }

    /// Goes to the next name of a key, below what the path leads to.
    fn enter_name(&mut self) -> Result<Span, NoMemory> {
        self.scanner.skip_spaces();
        let span = self.scanner.skip_name();
        self.path.push_name(self.scanner.name(span))?;
        self.scanner.skip_spaces();
        Ok(span)
    }

    /// Goes to the names of a dotted key, below what the path leads to, and gives the last of them.
    fn walk_key(&mut self) -> Result<Span, NoMemory> {
        let mut name = self.enter_name()?;
        for _ in 0..self.scanner.bytes.len() {
            if self.scanner.peek(0) != b'.' {
                break;
            }
            self.note(name, name)?;
            self.scanner.skip(1);
            name = self.enter_name()?;
        }
        self.scanner.skip_byte(b'=');
        self.scanner.skip_spaces();
        Ok(name)
    }

    /// Passes a value, or the bracket that opens it, and notes it under its name.
    fn walk_value(&mut self, open: &mut Vec<Open>, name: Option<Span>) -> Result<(), NoMemory> {
        let start = self.scanner.at;
        let path = self.path.len();
        match self.scanner.peek(0) {
            b'[' => {
                self.scanner.skip(1);
                open.push(Open::Array { path, next: 0 })?;
            }
            b'{' => {
                self.scanner.skip(1);
                open.push(Open::Table { path })?;
            }
            b'"' | b'\'' => self.scanner.skip_string(),
            _ => self.scanner.skip_word(),
        }
        let value = self.since(start);
        self.note(name.unwrap_or(value), value)
    }

    /// Goes to the next value in an array or a table that is open.
    fn enter(&mut self, open: &mut Vec<Open>, inner: Open) -> Result<Next, NoMemory> {
        match inner {
            Open::Array { path, next } => {
                let next_after = next.saturating_add(1);
                open.push(Open::Array {
                    path,
                    next: next_after,
                })?;
                self.path.push_index(next)?;
                Ok(Next::Element)
            }
            Open::Table { path } => {
                open.push(Open::Table { path })?;
                let name = self.walk_key()?;
                Ok(Next::Named(name))
            }
        }
    }

    /// Closes what ends here, and goes to the next value of what is still open.
    fn walk_on(&mut self, open: &mut Vec<Open>) -> Result<Next, NoMemory> {
        for _ in 0..self.scanner.bytes.len() {
            let Some(inner) = open.pop() else {
                return Ok(Next::End);
            };
            let (path, close) = match inner {
                Open::Array { path, .. } => (path, b']'),
                Open::Table { path } => (path, b'}'),
            };
            self.path.cut(path);
            self.scanner.skip_blank();
            self.scanner.skip_byte(b',');
            self.scanner.skip_blank();
            if self.scanner.is_done() {
                return Ok(Next::End);
            }
            if self.scanner.peek(0) != close {
                return self.enter(open, inner);
            }
            self.scanner.skip(1);
        }
        Ok(Next::End)
    }

    /// Passes the value of a statement with all that it holds. It ends where nothing is passed any more, as in a text
    /// that is no TOML.
    fn walk_values(&mut self, open: &mut Vec<Open>, first: Span) -> Result<(), NoMemory> {
        let mut name = Some(first);
        for _ in 0..self.scanner.bytes.len() {
            let start = self.scanner.at;
            self.walk_value(open, name)?;
            name = match self.walk_on(open)? {
                Next::Named(next) => Some(next),
                Next::Element => None,
                Next::End => return Ok(()),
            };
            if self.scanner.at == start {
                return Ok(());
            }
        }
        Ok(())
    }

    /// Passes a name and its value, below the table whose header came last.
    fn walk_pair(&mut self) -> Result<(), NoMemory> {
        let table = self.path.len();
        let name = self.walk_key()?;
        let mut open = Vec::new(self.alloc);
        self.walk_values(&mut open, name)?;
        self.path.cut(table);
        Ok(())
    }

    /// Goes to the element of an array of tables that stands last, where the path leads to such an array.
    fn enter_last(&mut self) -> Result<(), NoMemory> {
        if LONGEST_PATH < self.path.len() {
            return Ok(());
        }
        match self.last.get(self.path.as_slice()).copied() {
            Some(index) => self.path.push_index(index),
            None => Ok(()),
        }
    }

    /// Goes to a new element of an array of tables.
    fn enter_new(&mut self) -> Result<(), NoMemory> {
        let last = self.last.get(self.path.as_slice()).copied();
        let index = last.map_or(0, |index| index.saturating_add(1));
        let path = self.path.copy()?;
        self.last.insert(path, index)?;
        self.path.push_index(index)
    }

    /// Goes to the table of a header: the names before the last lead to the elements that stand last.
    fn walk_names(&mut self) -> Result<(), NoMemory> {
        let mut name = self.enter_name()?;
        for _ in 0..self.scanner.bytes.len() {
            if self.scanner.peek(0) != b'.' {
                break;
            }
            self.note(name, name)?;
            self.enter_last()?;
            self.scanner.skip(1);
            name = self.enter_name()?;
        }
        Ok(())
    }

    /// Passes a header's first brackets.
    fn open_header(&mut self) -> Header {
        self.scanner.skip(1);
        if self.scanner.peek(0) == b'[' {
            self.scanner.skip(1);
            Header::Element
        } else {
            Header::Table
        }
    }

    /// Passes a header, and notes it as the place of its table.
    fn walk_header(&mut self) -> Result<(), NoMemory> {
        let start = self.scanner.at;
        let kind = self.open_header();
        self.path.cut(0);
        self.walk_names()?;
        self.scanner.skip_byte(b']');
        if kind == Header::Element {
            self.scanner.skip_byte(b']');
        }
        let header = self.since(start);
        self.note(header, header)?;
        if kind == Header::Element {
            self.enter_new()?;
            self.note(header, header)?;
        }
        Ok(())
    }

    /// Passes all statements, of which each has the rest of its line.
    pub(crate) fn walk(&mut self) -> Result<(), NoMemory> {
        for _ in 0..self.scanner.bytes.len() {
            self.scanner.skip_blank();
            if self.scanner.is_done() {
                break;
            }
            if self.scanner.peek(0) == b'[' {
                self.walk_header()?;
            } else {
                self.walk_pair()?;
            }
            self.scanner.skip_line();
        }
        Ok(())
    }
}
