//! A page that a host keeps, with the script whose handlers it has.

ghost use Rattle.std.specs.Prelude.{◌≡◌, ◌<◌, ℕ, [], false, length, is_some, IfOk};
ghost use Rattle.page_model.specs.Commands.{begun_in};
ghost use Rattle.page_model.specs.Outcome.{opening_world};
ghost use Rattle.page_laws.specs.Ready.{IsReadyFor};
ghost use Rattle.page_boxes.specs.Kept.{is_due};
ghost use Rattle.script_syntax.specs.Parsing.{Parses};
ghost use Rattle.script_model.specs.Reading.{reading};
ghost use Rattle.live_page.specs.Lives.{empty_text, met_by};

use page_state::Page;
use script_source::ScriptText;
use script_syntax::{ParseFault, Script};
use std::alloc::{AllocError, Global};
use std::marker::{Brand, Model};
use std::sync::ledger::{Blank, Ledger};
use step_count::Steps;
use text_io::{LimitKind, Version};

/// A page that a host keeps: it runs scripts and ticks on it at any time, in any order, and reads it between them. No call
/// requires anything of its caller, and the page stays ready for each next one, whatever a call answers: after a limit, a
/// failed write, or want of memory. A contract sees the page's handlers and the page.
pub struct LivePage {
    pub(crate) alloc: Global,
    pub(crate) page: Page,
    // The script whose handlers the page has.
    pub(crate) script: Script,
}

// Written by hand since a derived `drop` is proved anew, field by field, in each program that drops one.
impl Drop for LivePage {
    fn drop(self) {
        let LivePage {
            alloc: _,
            page,
            script,
        } = self;
        drop_parts(page, script);
    }
}

fn drop_parts(_page: Page, _script: Script) {}

impl Model for LivePage {
    ghost use Rattle.live_page.specs.Lives.{LiveView};

    ghost Value = { LiveView };

    ghost use Rattle.std.specs.Coded.{codes};
    ghost use Rattle.kept_clips.specs.Codes.{pairs_code};
    ghost use Rattle.candidate_index.specs.Codes.{index_code};
    ghost use Rattle.script_syntax.specs.Codes.{block_code};

    ghost coded = { Prim.hlevel (codes, pairs_code, index_code, block_code) };

    ghost use Rattle.std.specs.Prelude.{length};
    ghost use Rattle.script_model.specs.Scripts.{handlers_in};
    ghost use Rattle.page_laws.specs.Ready.{IsReadyFor};

    ghost view = { λ live. record { handlers = handlers_in live.script.items; page = live.page } };

    ghost invariant = { λ live. IsReadyFor (length (handlers_in live.script.items)) live.page.world };
}

// Returns the text of the script of a version that has no items.
fn empty_text(version: Version) -> &'static [u8]
    ensures { result.now ≡ empty_text version }
{
    match version {
        Version::First => b"script 1\n",
        Version::Second => b"script 2\n",
    }
}

// Reads a script.
pub(crate) fn read(alloc: Global, bytes: &[u8]) -> Result<Script, ParseFault>
    ensures { Parses result (reading bytes.now) }
{
    let mut text = ScriptText::new(alloc);
    let Ok(()) = text.feed(bytes) else {
        return Err(ParseFault::Memory);
    };
    text.parse(alloc)
}

// Computes the boxes that are due, with a count of steps of its own.
fn refresh_counted<L: Ledger>(blank: Blank, page: &mut Page)
    requires name { blank.name ≡ L.name }
    requires parts { blank.parts ≡ L.parts }
    requires one_part { 0 < blank.parts }
    ensures same { page.new ≡ record page.old { kept = page.new.kept } }
    ensures done { (n : ℕ) → is_due page.new.world.tree page.new.world.viewports.screen page.new.kept n ≡ false }
    ensures ready { (handlers : ℕ) → IsReadyFor handlers page.old.world → IsReadyFor handlers page.new.world }
{
    let mut steps = Steps::<L>::new(blank);
    page.refresh_boxes(&mut steps);
}

impl LivePage {
    /// Creates a page for scripts of a version, with only the document `top`, which has no elements, and with no handlers.
    pub fn new(alloc: Global, version: Version) -> Result<LivePage, AllocError>
        ensures handlers { IfOk result (λ live. live.handlers ≡ []) }
        ensures opening { IfOk result (λ live. live.page.world ≡ opening_world version) }
    {
        let Ok(script) = read(alloc, empty_text(version)) else {
            return Err(AllocError);
        };
        let page = Page::new(alloc, version)?;
        Ok(LivePage {
            alloc,
            page,
            script,
        })
    }

    /// Returns the page, to be read. Its boxes may be due: `refresh` computes them.
    pub fn page(&self) -> &Page
        ensures value { result.now ≡ self.now.page }
        ensures ready { IsReadyFor (length self.now.handlers) result.now.world }
    {
        &self.page
    }

    /// Computes the boxes that are due, so that the page's geometry can be read. Nothing else of the page changes. Doesn't
    /// allocate.
    pub fn refresh(&mut self)
        ensures same { self.new ≡ record self.old { page = record (self.old.page) { kept = self.new.page.kept } } }
        ensures done { (n : ℕ) → is_due self.new.page.world.tree self.new.page.world.viewports.screen self.new.page.kept n ≡ false }
    {
        refresh_counted::<Brand>(Blank::new(1), &mut self.page);
    }

    /// Returns the limit that ends the page: `Commands` exactly if no command can begin any more, since the maximum of its
    /// version was begun. Every command and every tick meets that limit then, so the page only can be read further.
    pub fn ending(&self) -> Option<LimitKind>
        ensures { result ≡ met_by (begun_in self.now.page.world) }
    {
        if self.page.commands_left() == 0 {
            return Some(LimitKind::Commands);
        }
        None
    }

    /// Whether the page is ended: no command can begin any more (`ending`).
    pub fn is_ended(&self) -> bool
        ensures { result ≡ is_some (met_by (begun_in self.now.page.world)) }
    {
        self.ending().is_some()
    }
}
