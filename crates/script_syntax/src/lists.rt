//! Parsing the parts of a line that can have several words: margins, numbers and media queries.

ghost use Rattle.std.specs.Prelude.{◌≡◌};
ghost use Rattle.script_model.specs.Forms.{part_as, margin_as, scroll_as, MarginForm, NumbersForm, QueryForm};
ghost use Rattle.script_syntax.specs.Lines.{Gives};

use crate::faults::LineFault;
use crate::texts::{MarginText, NumberList};
use crate::words::Words;
use media_queries::{Query, QueryFault};
use std::alloc::Global;
use text_io::Version;
use word_model::number;

impl Words<'_> {
    /// Parses a root margin, and a scroll margin if there is one.
    #[tactic(auto, unfolding(script_model::specs::Forms::part_as, script_model::specs::Forms::margins_as))]
    pub fn margins(
        &mut self,
        alloc: Global,
        version: Version,
    ) -> Result<(MarginText, Option<MarginText>), LineFault>
        ensures { Gives (λ texts. (texts, self.new)) result (part_as (MarginForm version) self.old) }
    {
        let margin = self.margin(alloc, version)?;
        let scroll = self.scroll(alloc, version)?;
        Ok((margin, scroll))
    }

    /// Parses `scroll` and the words of a margin, if that word comes next and the script is of the second version.
    #[tactic(auto, unfolding(script_model::specs::Forms::scroll_as))]
    fn scroll(&mut self, alloc: Global, version: Version) -> Result<Option<MarginText>, LineFault>
        ensures { Gives (λ text. (text, self.new)) result (scroll_as version self.old) }
    {
        match version {
            Version::First => Ok(None),
            Version::Second => {
                if !self.take_if(b"scroll") {
                    return Ok(None);
                }
                let margin = self.margin(alloc, Version::Second)?;
                Ok(Some(margin))
            }
        }
    }

    /// Parses the words of a margin, which it joins with single spaces.
    #[tactic(auto, unfolding(script_model::specs::Forms::margin_as), using(crate::proofs::Joined::joined))]
    fn margin(&mut self, alloc: Global, version: Version) -> Result<MarginText, LineFault>
        ensures { Gives (λ text. (text, self.new)) result (margin_as version self.old) }
    {
        let Some(first) = self.next_of_margin(version) else {
            return Ok(MarginText::new(Vec::new(alloc)));
        };
        let mut bytes = Vec::from_slice(alloc, first)?;
        while let Some(text) = self.next_of_margin(version) {
            bytes.push(b' ')?;
            bytes.extend_from_slice(text)?;
        }
        Ok(MarginText::new(bytes))
    }

    /// Parses all remaining words, each a NUMBER.
    #[tactic(auto, unfolding(script_model::specs::Forms::part_as, script_model::specs::Forms::numbers_as, script_model::specs::Forms::numbers_of))]
    pub fn numbers(&mut self, alloc: Global) -> Result<NumberList, LineFault>
        ensures { Gives (λ list. (list, self.new)) result (part_as NumbersForm self.old) }
    {
        let mut numbers = Vec::new(alloc);
        while let Some(word) = self.pop() {
            let number = number(word.text).ok_or(word.fault())?;
            numbers.push(number)?;
        }
        Ok(NumberList::new(numbers))
    }

    /// Parses a media query list, from the next word to the end of the line's last one. The fault is at the byte with which
    /// the text is no longer the beginning of a list.
    #[tactic(auto, using(crate::proofs::Queries::query_missing))]
    pub fn query(&mut self, alloc: Global) -> Result<Query, LineFault>
        ensures { Gives (λ query. (query, self.new)) result (part_as QueryForm self.old) }
    {
        let rest = match self.rest() {
            Ok(rest) => rest,
            Err(column) => return Err(LineFault::At { column }),
        };
        match Query::parse(alloc, rest.text) {
            Ok(query) => Ok(query),
            Err(QueryFault::BadQuery { column }) => Err(LineFault::At {
                column: rest.column + column.saturating_sub(1),
            }),
            Err(QueryFault::Memory) => Err(LineFault::Memory),
        }
    }
}
