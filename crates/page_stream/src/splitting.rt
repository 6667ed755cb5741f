//! A stream that is being split.

ghost use Rattle.std.specs.Prelude.{◌≡◌, ◌+◌, ◌-◌, ◌^◌, ◌<◌, ◌≤◌, ℕ, List, [], ◌∷◌, ◌++◌, length, slice_index, cond, false, bytes_eq, Some, Err, IfErr, OnOk};
ghost use Rattle.std.specs.List.{list_any, position_or_len};
ghost use Rattle.text_lines.specs.Lines.{first_line, behind_line};
ghost use Rattle.page_stream.specs.Pages.{page_line_past};
ghost use Rattle.page_stream.specs.Parts.{OwnedLine};
ghost use Rattle.page_stream.specs.Splits.{IsSplit, SplitTo};

use crate::fault::StreamFault;
use crate::page_line::page_named;
use crate::stream::Part;
use std::alloc::{AllocError, Global};
use text_io::Name;

/// What was read of a stream so far: its pages, how many lines each has, which one is current, and the lines.
#[derive(Drop)]
pub struct Splitting {
    pub pages: Vec<Name>,
    pub lines: Vec<u32>,
    pub current: usize,
    pub parts: Vec<Part>,
}

// Returns the index of a page, or the number of pages if it isn't one of them.
fn place_of(pages: &[Name], name: &Name) -> usize
    ensures place { result ≡ position_or_len (bytes_eq name.now) pages.now }
    ensures within { result ≤ length pages.now }
{
    pages
        .iter()
        .position(|page| name == page)
        .unwrap_or(pages.len())
}

impl Splitting {
    /// Creates the state before the first line; allocates nothing.
    pub fn new(alloc: Global) -> Splitting
        ensures split { IsSplit result [] [] }
        ensures pages { result.pages.items ≡ [] }
    {
        Splitting {
            pages: Vec::new(alloc),
            lines: Vec::new(alloc),
            current: 0,
            parts: Vec::new(alloc),
        }
    }

    /// Takes the page line `line`: makes its page the current one, and adds the page if it is new.
    pub fn turn_to(&mut self, name: Name, line: u32, most_pages: usize) -> Result<(), StreamFault>
        requires as_many { length self.old.lines.items ≡ length self.old.pages.items }
        ensures split { OnOk result ((owned : List OwnedLine) (page : List ℕ) → IsSplit self.old owned page → IsSplit self.new owned name) }
        ensures pages { OnOk result (self.new.pages.items ≡ cond (list_any (bytes_eq name) self.old.pages.items) self.old.pages.items (self.old.pages.items ++ (name ∷ []))) }
        ensures inside { OnOk result (self.new.current < length self.new.pages.items) }
        ensures few { OnOk result (length self.old.pages.items ≤ most_pages → length self.new.pages.items ≤ most_pages) }
        ensures too_many { IfErr result (λ fault. (number : ℕ) → fault ≡ StreamFault.TooManyPages number
            → (number ≡ line) × (most_pages ≤ length self.old.pages.items) × (list_any (bytes_eq name) self.old.pages.items ≡ false)) }
        ensures page { IfErr result (λ fault. fault ≡ StreamFault.NoPage → ⊥) }
    {
        let place = place_of(&self.pages, &name);
        if place == self.pages.len() {
            if most_pages <= place {
                return Err(StreamFault::TooManyPages { line });
            }
            let (Ok(()), Ok(())) = (self.pages.push(name), self.lines.push(0)) else {
                return Err(StreamFault::Memory);
            };
        }
        self.current = place;
        Ok(())
    }

    /// Adds a line to the current page, given by its range of the source.
    pub fn add(&mut self, from: usize, to: usize) -> Result<(), AllocError>
        requires as_many { length self.old.lines.items ≡ length self.old.pages.items }
        requires inside { self.old.current < length self.old.pages.items }
        requires few { slice_index self.old.lines.items self.old.current < 2 ^ 32 - 1 }
        ensures split { OnOk result ((owned : List OwnedLine) (page : List ℕ) → IsSplit self.old owned page
            → IsSplit self.new (owned ++ (record { page = page; from = from; to = to } ∷ [])) page) }
        ensures pages { OnOk result (self.new.pages.items ≡ self.old.pages.items) }
        ensures current { OnOk result (self.new.current ≡ self.old.current) }
    {
        let line = self.lines[self.current] + 1;
        self.lines[self.current] = line;
        let part = Part {
            line,
            page: self.current,
            from,
            to,
        };
        match self.parts.push(part) {
            Ok(()) => Ok(()),
            Err(_) => Err(AllocError),
        }
    }

    /// Takes the line `number`, which begins at offset `from` of the source.
    pub fn take_line(
        &mut self,
        line: &[u8],
        number: u32,
        from: usize,
        most_pages: usize,
    ) -> Result<(), StreamFault>
        requires as_many { length self.old.lines.items ≡ length self.old.pages.items }
        requires inside { self.old.current < length self.old.pages.items }
        requires few { slice_index self.old.lines.items self.old.current < 2 ^ 32 - 1 }
        requires room { from + length line.now < 2 ^ 64 }
        ensures split { OnOk result ((source rest behind : List ℕ) (taken : ℕ) → number ≡ taken + 1 → 0 < length rest → line.now ≡ first_line rest → behind ≡ behind_line rest
            → SplitTo source self.old most_pages taken from rest → SplitTo source self.new most_pages number (from + length line.now) behind) }
        ensures inside { OnOk result (self.new.current < length self.new.pages.items) }
        ensures too_many { IfErr result (λ fault. (past : ℕ) → fault ≡ StreamFault.TooManyPages past → (source rest : List ℕ) (taken : ℕ) → number ≡ taken + 1
            → 0 < length rest → line.now ≡ first_line rest → SplitTo source self.old most_pages taken from rest → page_line_past most_pages source ≡ Some past) }
        ensures page { IfErr result (λ fault. fault ≡ StreamFault.NoPage → ⊥) }
    {
        match page_named(line) {
            Some(name) => match self.turn_to(name, number, most_pages) {
                Ok(()) => Ok(()),
                Err(fault) => Err(fault),
            },
            None => match self.add(from, from + line.len()) {
                Ok(()) => Ok(()),
                Err(_) => Err(StreamFault::Memory),
            },
        }
    }
}
