//! The conditions of `when`.

ghost use Rattle.std.specs.Prelude.{◌≡◌, ℕ, length, Bool, nat_lt, unsigned_abs};
ghost use Rattle.px_units.specs.declared.BoxKind.TheVariants.{Border};
ghost use Rattle.page_model.specs.World.{InElement};
ghost use Rattle.page_model.specs.Commands.{asked, holds, seen_now};
ghost use Rattle.page_model.specs.PageBoxes.{size_of};
ghost use Rattle.page_laws.specs.Ready.{IsReadyFor};
ghost use Rattle.page_boxes.specs.Around.{rests_on};
ghost use Rattle.page_boxes.specs.Pages.{seen_size};
ghost use Rattle.script_syntax.specs.Allowed.{TestAllowed};
ghost use Rattle.script_syntax.specs.Seen.{test_of, condition_of};
ghost use Rattle.page_names.specs.Answers.{Finds};
ghost use Rattle.page_state.specs.Boxes.{ComputesIn, answer_rests_on};
ghost use Rattle.page_names.specs.Things.{IsSubject};
ghost use Rattle.page_state.specs.Things.{present_with};

use crate::page::Page;
use element_tree::{Container, NodeId};
use page_boxes::size_of;
use px_units::{BoxKind, Px, Size};
use script_syntax::{Condition, Test};
use std::sync::ledger::Ledger;
use step_count::Steps;
use text_io::ThrowKind;

impl Page {
    /// Whether a condition holds, for the target of the present entry if there is one; `seen` is the isIntersecting of that
    /// entry, `None` unless it is an intersection observer's. The world, and whether a command was begun, are unchanged.
    /// Doesn't allocate.
    ///
    /// # Errors
    /// An exception exactly when the definition throws it.
    #[tactic(auto, unfolding(page_model::specs::Commands::holds))]
    pub fn holds<L: Ledger>(
        &mut self,
        condition: &Condition,
        subject: Option<NodeId>,
        seen: Option<bool>,
        steps: &mut Steps<L>,
    ) -> Result<bool, ThrowKind>
        requires allowed { TestAllowed condition.now.asks }
        requires subject { IsSubject (length self.old.world.tree.elements) subject }
        ensures answer { Finds (λ (answer : Bool). answer) result (holds self.old.world (present_with subject seen) (condition_of condition.now)) }
        ensures same { self.new ≡ record self.old { kept = self.new.kept } }
        ensures boxes { ComputesIn self.old.world (answer_rests_on self.old.world (present_with subject seen) (test_of condition.now.asks)) self.old.kept self.new.kept steps.old steps.new }
        ensures ready { (handlers : ℕ) → IsReadyFor handlers self.old.world → IsReadyFor handlers self.new.world }
    {
        match self.ask(condition.asks, subject, seen, steps) {
            Ok(answer) if condition.negated => Ok(!answer),
            answer => answer,
        }
    }

    // Evaluates the test, ignoring a `not`.
    #[tactic(auto, unfolding(page_model::specs::Commands::asked), using(crate::proofs::Laid::computes_nothing))]
    fn ask<L: Ledger>(
        &mut self,
        test: Test,
        subject: Option<NodeId>,
        seen: Option<bool>,
        steps: &mut Steps<L>,
    ) -> Result<bool, ThrowKind>
        requires allowed { TestAllowed test }
        requires subject { IsSubject (length self.old.world.tree.elements) subject }
        ensures answer { Finds (λ (answer : Bool). answer) result (asked self.old.world (present_with subject seen) (test_of test)) }
        ensures same { self.new ≡ record self.old { kept = self.new.kept } }
        ensures boxes { ComputesIn self.old.world (answer_rests_on self.old.world (present_with subject seen) (test_of test)) self.old.kept self.new.kept steps.old steps.new }
    {
        match test {
            Test::Wider(node, px) => {
                let node = self.element(node, subject)?;
                let size = self.border_size(node, steps);
                Ok(is_wider(size, px))
            }
            Test::Taller(node, px) => {
                let node = self.element(node, subject)?;
                let size = self.border_size(node, steps);
                Ok(is_taller(size, px))
            }
            Test::Matches(query) => {
                let query = self.query_list(query)?;
                Ok(self.matches_now(query, steps))
            }
            Test::Attached(node) => {
                let node = self.element(node, subject)?;
                Ok(self.laid.page().is_attached(node))
            }
            Test::Seen => is_seen(subject, seen),
        }
    }

    // Returns the current size of an element's border box.
    fn border_size<L: Ledger>(&mut self, node: NodeId, steps: &mut Steps<L>) -> Size
        ensures value { seen_size result ≡ size_of self.old.world.tree self.old.world.viewports.screen node.0 Border }
        ensures same { self.new ≡ record self.old { kept = self.new.kept } }
        ensures boxes { ComputesIn self.old.world (rests_on self.old.world.tree (InElement node.0)) self.old.kept self.new.kept steps.old steps.new }
    {
        self.laid
            .refresh_for(self.screen, Container::Element(node), steps);
        size_of(
            self.laid.page(),
            self.laid.boxes(),
            self.screen,
            node,
            BoxKind::Border,
        )
    }
}

// Whether the present entry is intersecting.
fn is_seen(subject: Option<NodeId>, seen: Option<bool>) -> Result<bool, ThrowKind>
    ensures { Finds (λ (answer : Bool). answer) result (seen_now (present_with subject seen)) }
{
    match (subject, seen) {
        (None, _) => Err(ThrowKind::ReferenceError),
        (Some(_), None) => Err(ThrowKind::TypeError),
        (Some(_), Some(meets)) => Ok(meets),
    }
}

// Sizes and what they are compared with are non-negative.
fn is_wider(size: Size, than: Px) -> bool
    ensures { result ≡ nat_lt (unsigned_abs than.0) (unsigned_abs size.width) }
{
    size.width.unsigned_abs() > than.0.unsigned_abs()
}

fn is_taller(size: Size, than: Px) -> bool
    ensures { result ≡ nat_lt (unsigned_abs than.0) (unsigned_abs size.height) }
{
    size.height.unsigned_abs() > than.0.unsigned_abs()
}
