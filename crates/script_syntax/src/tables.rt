//! Fixed words and their values.

ghost use Rattle.std.specs.Prelude.{◌≡◌, option_map};
ghost use Rattle.text_io.specs.declared.kinds.Version.{Version};
ghost use Rattle.text_io.specs.declared.kinds.Version.TheVariants.{Second};
ghost use Rattle.script_model.specs.Keywords.{lookup};
ghost use Rattle.script_model.specs.Words.{boxes, dimensions};
ghost use Rattle.script_model.specs.Commands.{tests, heads, heads_in};
ghost use Rattle.style_values.specs.Seen.{seen_axis};
ghost use Rattle.script_syntax.specs.Heads.{head_of, shape_of};

use crate::heads::{Head, Shape, Verb};
use px_units::BoxKind;
use style_values::{Axis, lookup};
use text_io::Version;

// The first version has all but the last.
const BOXES: [(&[u8], BoxKind); 3] = [
    (b"content", BoxKind::Content),
    (b"border", BoxKind::Border),
    (b"device", BoxKind::Device),
];

const AXES: [(&[u8], Axis); 2] = [(b"width", Axis::Width), (b"height", Axis::Height)];

const TESTS: [(&[u8], Shape); 5] = [
    (b"wider", Shape::Wider),
    (b"taller", Shape::Taller),
    (b"matches", Shape::Matches),
    (b"attached", Shape::Attached),
    (b"seen", Shape::Seen),
];

// The first words of lines in both versions.
const HEADS: [(&[u8], Head); 36] = [
    (b"viewport", Head::Act(Verb::Viewport)),
    (b"block", Head::Act(Verb::Block)),
    (b"image", Head::Act(Verb::Image)),
    (b"frame", Head::Act(Verb::Frame)),
    (b"append", Head::Act(Verb::Append)),
    (b"before", Head::Act(Verb::Before)),
    (b"remove", Head::Act(Verb::Remove)),
    (b"set", Head::Act(Verb::Set)),
    (b"grow", Head::Act(Verb::Grow)),
    (b"load", Head::Act(Verb::Load)),
    (b"ro", Head::Act(Verb::Ro)),
    (b"ro-observe", Head::Act(Verb::RoObserve)),
    (b"ro-unobserve", Head::Act(Verb::RoUnobserve)),
    (b"ro-disconnect", Head::Act(Verb::RoDisconnect)),
    (b"io", Head::Act(Verb::Io)),
    (b"io-observe", Head::Act(Verb::IoObserve)),
    (b"io-unobserve", Head::Act(Verb::IoUnobserve)),
    (b"io-disconnect", Head::Act(Verb::IoDisconnect)),
    (b"io-take", Head::Act(Verb::IoTake)),
    (b"listen", Head::Act(Verb::Listen)),
    (b"unlisten", Head::Act(Verb::Unlisten)),
    (b"media", Head::Act(Verb::Media)),
    (b"scroll", Head::Act(Verb::Scroll)),
    (b"scroll-by", Head::Act(Verb::ScrollBy)),
    (b"raf", Head::Act(Verb::Raf)),
    (b"cancel-raf", Head::Act(Verb::CancelRaf)),
    (b"timer", Head::Act(Verb::Timer)),
    (b"clear-timer", Head::Act(Verb::ClearTimer)),
    (b"post", Head::Act(Verb::Post)),
    (b"say", Head::Act(Verb::Say)),
    (b"read", Head::Act(Verb::Read)),
    (b"tick", Head::Tick),
    (b"each", Head::Each),
    (b"when", Head::When),
    (b"handler", Head::Handler),
    (b"end", Head::End),
];

/// Returns the box that this word names in scripts of this version.
pub fn box_kind(version: Version, word: &[u8]) -> Option<BoxKind>
    ensures { result ≡ lookup (boxes version) word.now }
{
    match version {
        Version::First => lookup(&BOXES[..2], word),
        Version::Second => lookup(&BOXES, word),
    }
}

/// Returns the dimension that this word names.
pub fn axis(word: &[u8]) -> Option<Axis>
    ensures { option_map seen_axis result ≡ lookup dimensions word.now }
{
    lookup(&AXES, word)
}

/// Returns the kind of test that this word introduces.
pub fn test(word: &[u8]) -> Option<Shape>
    ensures { option_map shape_of result ≡ lookup tests word.now }
{
    lookup(&TESTS, word)
}

/// Returns the kind of line that this word introduces in both versions.
fn head_of_both(word: &[u8]) -> Option<Head>
    ensures { (version : Version) → option_map (head_of version) result ≡ lookup (heads version) word.now }
{
    lookup(&HEADS, word)
}

/// Returns the kind of line that this word introduces in the second version.
#[tactic(auto, using(crate::proofs::Lookups::found_first, crate::proofs::Lookups::passed_first))]
fn head_of_second(word: &[u8]) -> Option<Head>
    ensures { option_map (head_of Second) result ≡ lookup (heads_in Second) word.now }
{
    if word == b"ratio".as_slice() {
        return Some(Head::Act(Verb::Ratio));
    }
    head_of_both(word)
}

/// Returns the kind of line that this word introduces in this version.
pub fn head(version: Version, word: &[u8]) -> Option<Head>
    ensures { option_map (head_of version) result ≡ lookup (heads_in version) word.now }
{
    match version {
        Version::First => head_of_both(word),
        Version::Second => head_of_second(word),
    }
}
