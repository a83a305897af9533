//! The pieces of a TOML text, one after another. What is no TOML is passed over somehow.

use crate::span::Span;

/// A place in a text.
#[derive(Drop)]
pub(crate) struct Scanner<'a> {
    pub(crate) bytes: &'a [u8],
    pub(crate) at: usize,
}

fn is_bare(byte: u8) -> bool {
    byte.is_ascii_alphanumeric() || byte == b'-' || byte == b'_'
}

fn is_space(byte: u8) -> bool {
    byte == b' ' || byte == b'\t'
}

fn is_blank(byte: u8) -> bool {
    is_space(byte) || byte == b'\n' || byte == b'\r'
}

fn ends_word(byte: u8) -> bool {
    is_blank(byte) || byte == b',' || byte == b']' || byte == b'}' || byte == b'#'
}

impl<'a> Scanner<'a> {
    /// The beginning of a text, after its byte order mark.
    pub(crate) fn new(bytes: &'a [u8]) -> Scanner<'a> {
        let at = if bytes.starts_with(b"\xef\xbb\xbf") {
            3
        } else {
            0
        };
        Scanner { bytes, at }
    }

    /// The byte that is so many further on, 0 past the end.
    pub(crate) fn peek(&self, further: usize) -> u8 {
        self.bytes
            .get(self.at.saturating_add(further))
            .copied()
            .unwrap_or(0)
    }

    /// Whether the text is at its end.
    pub(crate) fn is_done(&self) -> bool {
        self.bytes.len() <= self.at
    }

    /// What is left of the text.
    fn rest(&self) -> &[u8] {
        if self.at <= self.bytes.len() {
            &self.bytes[self.at..]
        } else {
            &[]
        }
    }

    /// Goes on by so many bytes.
    pub(crate) fn skip(&mut self, count: usize) {
        self.at = self.at.saturating_add(count);
    }

    /// Passes spaces and tabs.
    pub(crate) fn skip_spaces(&mut self) {
        let rest = self.rest();
        let count = rest
            .iter()
            .position(|b| !is_space(*b))
            .unwrap_or(rest.len());
        self.skip(count);
    }

    /// Goes to the end of the line.
    pub(crate) fn skip_line(&mut self) {
        let rest = self.rest();
        let count = rest.iter().position(|b| *b == b'\n').unwrap_or(rest.len());
        self.skip(count);
    }

    fn skip_white(&mut self) {
        let rest = self.rest();
        let count = rest
            .iter()
            .position(|b| !is_blank(*b))
            .unwrap_or(rest.len());
        self.skip(count);
    }

    /// Passes white space, line ends and comments.
    pub(crate) fn skip_blank(&mut self) {
        for _ in 0..self.bytes.len() {
            self.skip_white();
            if self.peek(0) != b'#' {
                return;
            }
            self.skip_line();
        }
    }

    /// Whether so many times this byte comes next.
    fn is_three(&self, quote: u8) -> bool {
        self.peek(0) == quote && self.peek(1) == quote && self.peek(2) == quote
    }

    /// Goes to the next byte that is a quote or a backslash of a text in quotes.
    fn skip_plain(&mut self, quote: u8) {
        let rest = self.rest();
        let count = rest
            .iter()
            .position(|b| *b == quote || *b == b'\\')
            .unwrap_or(rest.len());
        self.skip(count);
    }

    /// Passes what comes after three quotes, up to three of them; and up to two more, which are part of the text.
    fn skip_long(&mut self, quote: u8) {
        for _ in 0..self.bytes.len() {
            self.skip_plain(quote);
            if self.is_three(quote) {
                self.skip(3);
                self.skip_byte(quote);
                self.skip_byte(quote);
                return;
            }
            self.skip_escaped(quote);
        }
    }

    /// Passes this byte, where it comes next.
    pub(crate) fn skip_byte(&mut self, byte: u8) {
        if self.peek(0) == byte {
            self.skip(1);
        }
    }

    /// Passes a byte, or two where the first is a backslash that escapes the second.
    fn skip_escaped(&mut self, quote: u8) {
        if self.peek(0) == b'\\' && quote == b'"' {
            self.skip(2);
        } else {
            self.skip(1);
        }
    }

    /// Passes what comes after a quote, up to the next one.
    fn skip_short(&mut self, quote: u8) {
        for _ in 0..self.bytes.len() {
            self.skip_plain(quote);
            if self.peek(0) == quote {
                self.skip(1);
                return;
            }
            self.skip_escaped(quote);
        }
    }

    /// Whether a text in quotes comes next.
    pub(crate) fn is_quote(&self) -> bool {
        self.peek(0) == b'"' || self.peek(0) == b'\''
    }

    /// Passes a text in quotes.
    pub(crate) fn skip_string(&mut self) {
        let quote = self.peek(0);
        if self.is_three(quote) {
            self.skip(3);
            self.skip_long(quote);
        } else {
            self.skip(1);
            self.skip_short(quote);
        }
    }

    /// Passes a number, a truth value or a date.
    pub(crate) fn skip_word(&mut self) {
        let rest = self.rest();
        let count = rest
            .iter()
            .position(|b| ends_word(*b))
            .unwrap_or(rest.len());
        self.skip(count);
    }

    /// Passes a part of a key, and gives the stretch in which it stands.
    pub(crate) fn skip_name(&mut self) -> Span {
        let start = self.at;
        if self.is_quote() {
            self.skip_string();
        } else {
            let rest = self.rest();
            let count = rest.iter().position(|b| !is_bare(*b)).unwrap_or(rest.len());
            self.skip(count);
        }
        Span::within(self.bytes.len(), start, self.at)
    }

    /// The bytes of a part of a key, without its quotes.
    pub(crate) fn name(&self, span: Span) -> &'a [u8] {
        let Span { start, end } = Span::within(self.bytes.len(), span.start, span.end);
        let name = &self.bytes[start..end];
        if 2 <= name.len() && (name[0] == b'"' || name[0] == b'\'') {
            &name[1..name.len() - 1]
        } else {
            name
        }
    }
}
