//! Which characters of a text stand for themselves where it's printed.
ghost use Rattle.std.specs.Prelude.{◌≡◌};
ghost use Rattle.dds_faults.specs.Plain.{is_plain, is_control, is_unseen, is_within};

/// Whether a character stands for itself on a screen: it controls nothing, ends no line, has a width, and doesn't turn
/// the direction of what stands beside it.
pub fn is_plain(c: char) -> bool
    ensures { result ≡ is_plain c }
{
    !(is_control(c) || is_unseen(c) || is_tag(c))
}

fn is_control(c: char) -> bool
    ensures { result ≡ is_control c }
{
    c <= '\u{1f}' || '\u{7f}' <= c && c <= '\u{9f}'
}

// Without a width, or for the direction of a text, or the end of a line or paragraph.
fn is_unseen(c: char) -> bool
    ensures { result ≡ is_unseen c }
{
    c == '\u{ad}'
        || c == '\u{61c}'
        || c == '\u{180e}'
        || '\u{200b}' <= c && c <= '\u{200f}'
        || '\u{2028}' <= c && c <= '\u{202e}'
        || '\u{2060}' <= c && c <= '\u{206f}'
        || c == '\u{feff}'
}

fn is_tag(c: char) -> bool
    ensures { result ≡ is_within 917504 917631 c }
{
    '\u{e0000}' <= c && c <= '\u{e007f}'
}
