//! The lines that name a page.

ghost use Rattle.std.specs.Prelude.{◌≡◌};
ghost use Rattle.page_stream.specs.PageLines.{content_of, name_in, page_named};

use text_io::Name;

// Returns a line without its line feed and a carriage return directly before that.
fn content_of(line: &[u8]) -> &[u8]
    ensures { result.now ≡ content_of line.now }
{
    if let Some(content) = line.strip_suffix(b"\r\n") {
        return content;
    }
    match line.strip_suffix(b"\n") {
        Some(content) => content,
        None => line,
    }
}

// Returns the name after `page` and one space.
fn name_in(content: &[u8]) -> Option<Name>
    ensures { result ≡ name_in content.now }
{
    match content.strip_prefix(b"page ") {
        Some(name) => Name::read(name),
        None => None,
    }
}

/// Returns the page that a line names, if it is a page line. Allocates nothing.
#[tactic(auto, unfolding(crate::specs::PageLines::page_named))]
pub fn page_named(line: &[u8]) -> Option<Name>
    ensures { result ≡ page_named line.now }
{
    name_in(content_of(line))
}
