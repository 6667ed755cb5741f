//! Further scripts: whether one goes with the handlers that a page has.

ghost use Rattle.std.specs.Prelude.{◌≡◌, ◌<◌, true, false, length};
ghost use Rattle.script_model.specs.Scripts.{handlers_in};
ghost use Rattle.live_page.specs.Lives.{handlers_after, name_at, KeepsNames};

use script_syntax::Script;

// Whether the handler of a number has the same name in another script.
fn keeps_name(known: &Script, given: &Script, number: u32) -> bool
    requires { number < length (handlers_in known.now.items) }
    ensures kept { result ≡ true → name_at (handlers_in given.now.items) number ≡ name_at (handlers_in known.now.items) number }
    ensures lost { result ≡ false → name_at (handlers_in given.now.items) number ≡ name_at (handlers_in known.now.items) number → ⊥ }
{
    match (known.handler(number), given.handler(number)) {
        (Some(before), Some(after)) => before.name == after.name,
        _ => false,
    }
}

// Whether each handler has the same name in another script.
fn keeps_names(known: &Script, given: &Script) -> bool
    ensures kept { result ≡ true → KeepsNames (handlers_in known.now.items) (handlers_in given.now.items) }
    ensures lost { result ≡ false → KeepsNames (handlers_in known.now.items) (handlers_in given.now.items) → ⊥ }
{
    for number in 0..known.handlers() {
        if !keeps_name(known, given, number) {
            return false;
        }
    }
    true
}

/// Whether a page that has the handlers of one script can be given another: if that has no handlers, or if its first ones
/// have the names of the known ones, in their order.
pub(crate) fn goes_with(known: &Script, given: &Script) -> bool
    ensures kept { result ≡ true → KeepsNames (handlers_in known.now.items) (handlers_after (handlers_in known.now.items) (handlers_in given.now.items)) }
    ensures lost { result ≡ false → KeepsNames (handlers_in known.now.items) (handlers_after (handlers_in known.now.items) (handlers_in given.now.items)) → ⊥ }
{
    given.handlers() == 0 || keeps_names(known, given)
}
