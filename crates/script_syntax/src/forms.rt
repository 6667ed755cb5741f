//! Parsing of single operands, one function per form. Each takes its words, and fails at the first one that doesn't fit.

ghost use Rattle.std.specs.Prelude.{◌≡◌, unsigned_abs, option_map, IfOk, is_some};
ghost use Rattle.script_model.specs.Forms.{part_as, declaration_as, NameForm, NodeForm, AimForm, HandlerForm, RootForm, LengthForm, SignedForm, PercentForm, WholeForm, EventForm, BoxForm, DimensionForm, DeclarationForm, JustForm};
ghost use Rattle.script_model.specs.Words.{node_of, aim_of as aim_read};
ghost use Rattle.script_model.specs.Properties.{property_of};
ghost use Rattle.style_values.specs.Ranges.{IsAllowed};
ghost use Rattle.style_values.specs.Seen.{seen_axis, seen_declaration};
ghost use Rattle.style_values.specs.Versions.{reads};
ghost use Rattle.script_syntax.specs.Allowed.{IsUnits, IsSignedUnits, IsPercent, IsTime};
ghost use Rattle.script_syntax.specs.Lines.{Gives};
ghost use Rattle.script_syntax.specs.Seen.{operand_of, aim_of};

use crate::faults::LineFault;
use crate::operands::{Aim, Operand};
use crate::tables;
use crate::words::Words;
use px_units::{BoxKind, Percent, Px};
use std::alloc::Global;
use style_values::{Axis, Declaration, first_version};
use text_io::{EventKind, Name, Version};
use word_model::{length, percent, signed_length, whole};

/// Returns the node that a word names.
#[tactic(auto, unfolding(script_model::specs::Words::node_of))]
fn node_named(text: &[u8]) -> Option<Operand>
    ensures { option_map operand_of result ≡ node_of text.now }
{
    if text == b"$target".as_slice() {
        return Some(Operand::Target);
    }
    Name::read(text).map(Operand::Named)
}

/// Returns the event target that a word names.
#[tactic(auto, unfolding(script_model::specs::Words::aim_of))]
fn aim_named(text: &[u8]) -> Option<Aim>
    ensures { option_map aim_of result ≡ aim_read text.now }
{
    if let [first, rest @ ..] = text {
        if *first == b'@' {
            return Name::read(rest).map(Aim::Window);
        }
    }
    node_named(text).map(Aim::Plain)
}

/// Whether a version has something that was introduced in version `first`, or, for `None`, in no version.
fn has(version: Version, first: Option<Version>) -> bool
    ensures { result ≡ reads version first }
{
    let Some(first) = first else {
        return false;
    };
    match version {
        Version::First => match first {
            Version::First => true,
            Version::Second => false,
        },
        Version::Second => true,
    }
}

/// Whether there is a property of this name in scripts of this version.
fn is_property(version: Version, name: &[u8]) -> bool
    ensures { result ≡ is_some (property_of version name.now) }
{
    has(version, first_version(name))
}

impl Words<'_> {
    /// NAME
    #[tactic(auto, unfolding(script_model::specs::Forms::part_as))]
    pub fn name(&mut self) -> Result<Name, LineFault>
        ensures { Gives (λ name. (name, self.new)) result (part_as NameForm self.old) }
    {
        let word = self.next()?;
        Name::read(word.text).ok_or(word.fault())
    }

    /// NODE
    #[tactic(auto, unfolding(script_model::specs::Forms::part_as))]
    pub fn node(&mut self) -> Result<Operand, LineFault>
        ensures { Gives (λ node. (operand_of node, self.new)) result (part_as NodeForm self.old) }
    {
        let word = self.next()?;
        node_named(word.text).ok_or(word.fault())
    }

    /// A node, a document or a media query list by its name, or `@` and the name of a document for its window
    #[tactic(auto, unfolding(script_model::specs::Forms::part_as))]
    pub fn aim(&mut self) -> Result<Aim, LineFault>
        ensures { Gives (λ aim. (aim_of aim, self.new)) result (part_as AimForm self.old) }
    {
        let word = self.next()?;
        match aim_named(word.text) {
            Some(aim) => Ok(aim),
            None => Err(word.fault()),
        }
    }

    /// The name of a handler, or `-` for none
    #[tactic(auto, unfolding(script_model::specs::Forms::part_as))]
    pub fn handler(&mut self) -> Result<Option<Name>, LineFault>
        ensures { Gives (λ handler. (handler, self.new)) result (part_as HandlerForm self.old) }
    {
        let word = self.next()?;
        if word.text == b"-".as_slice() {
            return Ok(None);
        }
        let name = Name::read(word.text).ok_or(word.fault())?;
        Ok(Some(name))
    }

    /// NODE, or `-` for the implicit root
    #[tactic(auto, unfolding(script_model::specs::Forms::part_as))]
    pub fn root(&mut self) -> Result<Option<Operand>, LineFault>
        ensures { Gives (λ root. (option_map operand_of root, self.new)) result (part_as RootForm self.old) }
    {
        let word = self.next()?;
        if word.text == b"-".as_slice() {
            return Ok(None);
        }
        let node = node_named(word.text).ok_or(word.fault())?;
        Ok(Some(node))
    }

    /// LENGTH
    #[tactic(auto, unfolding(script_model::specs::Forms::part_as))]
    pub fn length(&mut self) -> Result<Px, LineFault>
        ensures value { Gives (λ px. (unsigned_abs px.0, self.new)) result (part_as LengthForm self.old) }
        ensures allowed { IfOk result (λ px. IsUnits px.0) }
    {
        let word = self.next()?;
        let units = length(word.text).ok_or(word.fault())?;
        Ok(Px(units as i64))
    }

    /// SIGNED
    #[tactic(auto, unfolding(script_model::specs::Forms::part_as))]
    pub fn signed(&mut self) -> Result<Px, LineFault>
        ensures value { Gives (λ px. (px.0, self.new)) result (part_as SignedForm self.old) }
        ensures allowed { IfOk result (λ px. IsSignedUnits px.0) }
    {
        let word = self.next()?;
        let units = signed_length(word.text).ok_or(word.fault())?;
        Ok(Px(units))
    }

    /// PERCENT
    #[tactic(auto, unfolding(script_model::specs::Forms::part_as))]
    pub fn percent(&mut self) -> Result<Percent, LineFault>
        ensures value { Gives (λ percent. (unsigned_abs percent.0, self.new)) result (part_as PercentForm self.old) }
        ensures allowed { IfOk result (λ percent. IsPercent percent.0) }
    {
        let word = self.next()?;
        let hundredths = percent(word.text).ok_or(word.fault())?;
        Ok(Percent(hundredths as i32))
    }

    /// WHOLE
    #[tactic(auto, unfolding(script_model::specs::Forms::part_as))]
    pub fn whole(&mut self) -> Result<u64, LineFault>
        ensures value { Gives (λ number. (number, self.new)) result (part_as WholeForm self.old) }
        ensures allowed { IfOk result (λ number. IsTime number) }
    {
        let word = self.next()?;
        whole(word.text).ok_or(word.fault())
    }

    /// `resize`, `scroll`, `error` or `change`
    #[tactic(auto, unfolding(script_model::specs::Forms::part_as), using(script_model::proofs::Keyed::event_named))]
    pub fn event(&mut self) -> Result<EventKind, LineFault>
        ensures { Gives (λ event. (event, self.new)) result (part_as EventForm self.old) }
    {
        let word = self.next()?;
        EventKind::named(word.text).ok_or(word.fault())
    }

    /// `content` or `border`, in the second version also `device`
    #[tactic(auto, unfolding(script_model::specs::Forms::part_as))]
    pub fn box_kind(&mut self, version: Version) -> Result<BoxKind, LineFault>
        ensures { Gives (λ kind. (kind, self.new)) result (part_as (BoxForm version) self.old) }
    {
        let word = self.next()?;
        tables::box_kind(version, word.text).ok_or(word.fault())
    }

    /// `width` or `height`
    #[tactic(auto, unfolding(script_model::specs::Forms::part_as))]
    pub fn axis(&mut self) -> Result<Axis, LineFault>
        ensures { Gives (λ axis. (seen_axis axis, self.new)) result (part_as DimensionForm self.old) }
    {
        let word = self.next()?;
        tables::axis(word.text).ok_or(word.fault())
    }

    /// A property that this version has, and a valid value
    #[tactic(auto, unfolding(script_model::specs::Forms::part_as, script_model::specs::Forms::declaration_as))]
    pub fn declaration(&mut self, version: Version) -> Result<Declaration, LineFault>
        ensures value { Gives (λ declaration. (seen_declaration declaration, self.new)) result (part_as (DeclarationForm version) self.old) }
        ensures allowed { IfOk result (λ declaration. IsAllowed declaration) }
    {
        let property = self.next()?;
        if !is_property(version, property.text) {
            return Err(property.fault());
        }
        let value = self.next()?;
        match Declaration::read(property.text, value.text) {
            Ok(declaration) => Ok(declaration),
            Err(_) => Err(value.fault()),
        }
    }

    /// This word
    #[tactic(auto, unfolding(script_model::specs::Forms::part_as))]
    pub fn just(&mut self, word: &[u8]) -> Result<(), LineFault>
        ensures { Gives (λ said. (tt, self.new)) result (part_as (JustForm word.now) self.old) }
    {
        let next = self.next()?;
        if next.text == word {
            return Ok(());
        }
        Err(next.fault())
    }
}
