//! A stream: its pages, and the page that each of its lines belongs to.

ghost use Rattle.std.specs.Prelude.{◌≡◌, ◌≢◌, ◌↔◌, ◌<◌, ◌≤◌, ◌-◌, ◌^◌, ℕ, true, false, length, slice_range, IfOk, IfErr, None, Some, Err};
ghost use Rattle.page_stream.specs.Pages.{is_stream, page_line_past, pages_of};
ghost use Rattle.page_stream.specs.Parts.{parts_of, script_of};

use crate::fault::StreamFault;
use crate::page_line::page_named;
use crate::splitting::Splitting;
use std::alloc::{AllocError, Global};
use std::marker::Model;
use text_io::Name;
use text_lines::split_line;

/// A line of a stream that isn't a page line.
#[derive(Clone, Copy, Debug, PartialEq, Eq)]
pub struct Part {
    /// Its line number, from 1, in the script of its page.
    pub line: u32,
    /// The index of its page among the stream's pages.
    pub page: usize,
    /// The offset in the source where it begins.
    pub from: usize,
    /// The offset where it ends, after its line feed.
    pub to: usize,
}

/// The scripts of several pages in one source. A contract sees the bytes of the source.
#[derive(Drop)]
pub struct Stream<'a> {
    source: &'a [u8],
    pages: Vec<Name>,
    parts: Vec<Part>,
}

impl<'a> Model for Stream<'a> {
    ghost use Rattle.std.specs.Prelude.{◌≡◌, ℕ, List};
    ghost use Rattle.page_stream.specs.Pages.{pages_of};
    ghost use Rattle.page_stream.specs.Parts.{parts_of};

    ghost Value = { List ℕ };

    ghost view = { λ stream. stream.source.now };

    ghost invariant = { λ stream. (stream.pages.items ≡ pages_of stream.source.now) × (stream.parts.items ≡ parts_of stream.source.now) };
}

// Returns the text of a part.
fn text_of<'a>(source: &'a [u8], part: &Part) -> &'a [u8]
    requires from { part.now.from ≤ part.now.to }
    requires to { part.now.to ≤ length source.now }
    ensures { result.now ≡ slice_range source.now part.now.from part.now.to }
{
    &source[part.from..part.to]
}

impl<'a> Stream<'a> {
    /// Returns the bytes of the source, of which the parts are ranges.
    pub fn source(&self) -> &[u8]
        ensures { result.now ≡ self.now }
    {
        self.source
    }

    /// Returns the pages in the order of their first page line.
    pub fn pages(&self) -> &[Name]
        ensures { result.now ≡ pages_of self.now }
    {
        self.pages.as_slice()
    }

    /// Returns the lines that aren't page lines, in order.
    pub fn parts(&self) -> &[Part]
        ensures { result.now ≡ parts_of self.now }
    {
        self.parts.as_slice()
    }

    /// Returns the script of the page at this index: the concatenation of its lines. Fails only if an allocation fails.
    pub fn script(&self, alloc: Global, page: usize) -> Result<Vec<u8>, AllocError>
        requires { page < length (pages_of self.now) }
        ensures { IfOk result (λ script. script.items ≡ script_of page self.now) }
    {
        let mut script = Vec::new(alloc);
        for part in &self.parts {
            if part.page == page {
                script.extend_from_slice(text_of(self.source, part))?;
            }
        }
        Ok(script)
    }
}

/// Splits a stream into the lines of its pages.
///
/// # Errors
/// - `NoPage` exactly where the first line isn't a page line, or there is none.
/// - `TooManyPages` if more than `most_pages` pages are named, with the first line that names one beyond that.
/// - `Memory` if an allocation fails.
pub fn split(alloc: Global, source: &[u8], most_pages: usize) -> Result<Stream<'_>, StreamFault>
    requires { length source.now < 2 ^ 32 - 1 }
    ensures stream { IfOk result (λ stream. (stream ≡ source.now) × (is_stream source.now ≡ true) × (page_line_past most_pages source.now ≡ None)) }
    ensures no_page { (result ≡ Err StreamFault.NoPage) ↔ (is_stream source.now ≡ false) }
    ensures too_many { IfErr result (λ fault. (line : ℕ) → fault ≡ StreamFault.TooManyPages line → page_line_past most_pages source.now ≡ Some line) }
{
    let (first, behind) = split_line(source);
    let Some(name) = page_named(first) else {
        return Err(StreamFault::NoPage);
    };
    let mut splitting = Splitting::new(alloc);
    if let Err(fault) = splitting.turn_to(name, 1, most_pages) {
        return Err(fault);
    }
    let mut number = 1;
    let mut from = first.len();
    let mut rest = behind;
    while !rest.is_empty() {
        let (line, behind) = split_line(rest);
        number += 1;
        if let Err(fault) = splitting.take_line(line, number, from, most_pages) {
            return Err(fault);
        }
        from += line.len();
        rest = behind;
    }
    Ok(Stream {
        source,
        pages: splitting.pages,
        parts: splitting.parts,
    })
}
