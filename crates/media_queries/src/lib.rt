//! Media query lists: parsing, printing, and matching against a viewport (Media Queries 4, 2 to 4). The grammar is a subset of the
//! standard's, without nesting, `<` and `>`.
#![tactic(auto)]

ghost use Rattle.std.specs.Prelude.{◌≡◌, ◌++◌, ◌<◌, length, unsigned_abs, IfOk, OnOk, OnErr};
ghost use Rattle.script_model.specs.Media.{query_list, matches};
ghost use Rattle.media_queries.specs.QueryText.{list_text};
ghost use Rattle.media_queries.specs.Seen.{Parses};

mod bytes;
mod features;
pub mod laws;
mod lengths;
mod matching;
mod queries;
mod texts;

use crate::queries::{MediaQuery, ReadFault};
use px_units::Size;
use std::alloc::{AllocError, Global};
use std::marker::Model;
pub use texts::push_length;
use thiserror::Error;

/// A media query list.
#[derive(Drop)]
pub struct Query {
    queries: Vec<MediaQuery>,
}

impl Model for Query {
    ghost use Rattle.std.specs.Prelude.{List, map};
    ghost use Rattle.script_model.specs.Queries.{MediaQuery};
    ghost use Rattle.media_queries.specs.Seen.{query_of};

    ghost Value = { List MediaQuery };

    ghost view = { λ query. map query_of query.queries.items };
}

/// Why a text couldn't be parsed.
#[derive(Debug, Drop, Error)]
pub enum QueryFault {
    /// The text isn't a media query list. The column, from 1, is that of the first byte with which the text is no longer the
    /// beginning of a list, or one past the end if the whole text is only the beginning of a list.
    #[error("column {column}: not a media query list")]
    BadQuery { column: u32 },
    #[error("out of memory")]
    Memory,
}

impl Query {
    /// Parses a media query list (Media Queries 4, 3). A length has 1 to 7 digits, optionally a point and 1 or 2 digits,
    /// then `px`; it is at most 1,000,000 CSS pixels and is truncated to units of 1/64 CSS pixel.
    ///
    /// # Errors
    /// `BadQuery` where the text isn't a list, with the column of its fault; `Memory` if an allocation fails.
    #[tactic(auto, unfolding(script_model::specs::Media::query_list))]
    pub fn parse(alloc: Global, text: &[u8]) -> Result<Query, QueryFault>
        requires { length text.now < 4294967295 }
        ensures { Parses result (query_list text.now) }
    {
        match queries::queries_at(alloc, text) {
            Ok(queries) => Ok(Query { queries }),
            Err(ReadFault::At(stopped)) => {
                let column = (text.len() + 1).saturating_sub(stopped.left) as u32;
                Err(QueryFault::BadQuery { column })
            }
            Err(ReadFault::Memory) => Err(QueryFault::Memory),
        }
    }

    /// Whether the list matches a viewport of this size, in units of 1/64 CSS pixel, not negative (Media Queries 4, 2.1,
    /// 4.1, 4.2 and 4.4): it does if any of its queries does. The viewport is portrait exactly if its height is at least its width.
    #[tactic(auto, using(crate::proofs::Comparisons::list_seen))]
    pub fn matches(&self, viewport: Size) -> bool
        ensures { result ≡ matches self.now (unsigned_abs viewport.width) (unsigned_abs viewport.height) }
    {
        let width = viewport.width.unsigned_abs();
        let height = viewport.height.unsigned_abs();
        matching::any_query_matches(self.queries.as_slice(), width, height)
    }

    /// Appends the text of the list, with one space for each mandatory gap and no other, and each length as the shortest text
    /// that parses as it, the first of these in byte order. If an allocation fails, nothing is appended. What the text of a parsed
    /// list parses as is said by the law `printed_list_reads_back`.
    pub fn push_text(&self, into: &mut Vec<u8>) -> Result<(), AllocError>
        ensures ok { OnOk result (into.new.items ≡ into.old.items ++ list_text self.now) }
        ensures err { OnErr result (into.new.items ≡ into.old.items) }
    {
        let before = into.len();
        let pushed = texts::push_queries(into, self.queries.as_slice());
        if pushed.is_err() {
            into.truncate(before);
        }
        pushed
    }

    /// Returns an equal list. Fails only if an allocation fails.
    pub fn copy(&self, alloc: Global) -> Result<Query, AllocError>
        ensures { IfOk result (λ copy. copy ≡ self.now) }
    {
        let queries = queries::copy_queries(alloc, self.queries.as_slice())?;
        Ok(Query { queries })
    }
}
