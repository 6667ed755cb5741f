//! The chain from a spot to a root, spot by spot.

ghost use Rattle.std.specs.Prelude.{◌≡◌, ◌+◌, ◌∷◌, ◌++◌, [], List, length};
ghost use Rattle.std.specs.List.{list_all};
ghost use Rattle.element_tree.specs.declared.container.Container.{Container as ContainerOf};
ghost use Rattle.clip_chain.specs.Chains.{Leads, IsAbove};
ghost use Rattle.kept_clips.specs.Chains.{is_untouched};
ghost use Rattle.kept_clips.specs.Clips.{clip_between};

use crate::Clip;
use crate::touches::Touches;
use clip_chain::{Geometry, container_below};
use element_tree::Container;
use std::sync::ledger::Ledger;
use step_count::Steps;

// Whether no spot of a chain was touched since the given touch count.
pub(crate) fn is_untouched<G: Geometry>(
    touches: &Touches,
    geometry: &G,
    root: Container,
    of: Container,
    since: u64,
) -> bool
    requires { IsAbove (G.scene geometry.now) root of }
    ensures { (between : List ContainerOf) → Leads (G.scene geometry.now) of between root →
        result ≡ list_all (is_untouched touches.now since) (of ∷ (between ++ root ∷ [])) }
{
    if touches.last(of) > since || touches.last(root) > since {
        return false;
    }
    let mut spot = of;
    while let Some(next) = container_below(geometry, spot, root) {
        if touches.last(next) > since {
            return false;
        }
        spot = next;
    }
    true
}

// Returns the intersection of the clips strictly between, taking one step for each spot there.
pub(crate) fn clip_between<G: Geometry, L: Ledger>(
    geometry: &G,
    root: Container,
    of: Container,
    steps: &mut Steps<L>,
) -> Clip
    requires { IsAbove (G.scene geometry.now) root of }
    ensures clip { (between : List ContainerOf) → Leads (G.scene geometry.now) of between root → result ≡ clip_between (G.scene geometry.now) between }
    ensures ticks { (between : List ContainerOf) → Leads (G.scene geometry.now) of between root → steps.new ≡ steps.old + length between }
{
    let mut common = Clip::Whole;
    let mut spot = of;
    while let Some(next) = container_below(geometry, spot, root) {
        common = common.clipped(geometry.clip(next));
        steps.tick();
        spot = next;
    }
    common
}
