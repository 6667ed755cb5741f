//! Reading of a line where its line feed is written.

ghost use Rattle.std.specs.Prelude.{◌≡◌, ◌++◌, ◌==◌, ◌∷◌, [], map, OnOk, OnErr};
ghost use Rattle.std.specs.List.{All, list_any};
ghost use Rattle.page_model.specs.Outcome.{bytes_of};
ghost use Rattle.trace_text.specs.Ranges.{IsLine};
ghost use Rattle.trace_text.specs.Seen.{seen_line};
ghost use Rattle.trace_lines.specs.Kept.{IsUnfed};

use text_io::Failed;
use trace_text::{TraceLine, read_line};

// Whether a line feed is among these bytes.
fn has_feed(bytes: &[u8]) -> bool
    ensures { result ≡ list_any (λ byte. byte == 10) bytes.now }
{
    bytes.contains(&b'\n')
}

// Adds an item. Fails if no memory is left for it.
fn add<T: Drop>(items: &mut Vec<T>, item: T) -> Result<(), Failed>
    ensures added { OnOk result (items.new.items ≡ items.old.items ++ (item ∷ [])) }
    ensures refused { OnErr result (items.new.items ≡ items.old.items) }
{
    match items.push(item) {
        Ok(()) => Ok(()),
        Err(_) => Err(Failed),
    }
}

// Adds the line with this text. Fails if it isn't that of a line, or no memory is left.
fn keep_line(lines: &mut Vec<TraceLine>, text: &[u8]) -> Result<(), Failed>
    ensures kept { OnOk result (bytes_of (map seen_line lines.new.items) ≡ bytes_of (map seen_line lines.old.items) ++ text.now) }
    ensures fit { All IsLine (map seen_line lines.old.items) → All IsLine (map seen_line lines.new.items) }
    ensures refused { OnErr result (lines.new.items ≡ lines.old.items) }
{
    match read_line(text) {
        // The same as the next arm: the check learns of the types within a line only where they are named.
        Ok(TraceLine::Event(event)) => add(lines, TraceLine::Event(event)),
        Ok(line) => add(lines, line),
        Err(_) => Err(Failed),
    }
}

/// Takes bytes that have no line feed but at their end: the line that ends there is added, with what was left before it.
/// Nothing is changed by a call that fails.
pub(crate) fn take_front(
    lines: &mut Vec<TraceLine>,
    rest: &mut Vec<u8>,
    front: &[u8],
) -> Result<(), Failed>
    requires { IsUnfed rest.old.items }
    ensures taken { OnOk result (bytes_of (map seen_line lines.new.items) ++ rest.new.items ≡ (bytes_of (map seen_line lines.old.items) ++ rest.old.items) ++ front.now) }
    ensures fit { All IsLine (map seen_line lines.old.items) → All IsLine (map seen_line lines.new.items) }
    ensures unfed { IsUnfed rest.new.items }
    ensures refused { OnErr result ((lines.new.items ≡ lines.old.items) × (rest.new.items ≡ rest.old.items)) }
{
    let before = rest.len();
    let Ok(()) = rest.extend_from_slice(front) else {
        return Err(Failed);
    };
    if !has_feed(front) {
        return Ok(());
    }
    match keep_line(lines, rest.as_slice()) {
        Ok(()) => {
            rest.clear();
            Ok(())
        }
        Err(Failed) => {
            rest.truncate(before);
            Err(Failed)
        }
    }
}
