//! What would be right in a text that is no TOML.

/// What would be right where the parser of TOML stopped with this message, in words; `None` where that isn't known.
/// `rest` is the file from there on.
pub fn syntax_help(rest: &[u8], message: &str) -> Option<&'static str> {
    if message.starts_with("invalid UTF-8") {
        Some("save the file as UTF-8: `iconv -f latin1 -t utf-8` makes that of Latin-1")
    } else if rest.starts_with(b"//") || rest.starts_with(b"/*") {
        Some("a comment begins with `#`")
    } else if rest.starts_with(b":") {
        Some("a name and its value have `=` between them, as `depth = 10`")
    } else if rest.starts_with(b";") {
        Some("a line ends without `;`")
    } else if message.starts_with("duplicate key") {
        Some("it stands above already: a list is written once, as `name = [..]` or by `[[name]]`")
    } else if message.starts_with("invalid value") || message.ends_with("between digits") {
        Some("a text stands in quotes, as \"KEEP_ALL\"; a boolean is `true` or `false`")
    } else {
        None
    }
}
