//! Generated scripts as they are printed, with sizes by an independent program. Their texts are what the contract of `make` says; one
//! stands in `run_tests`, where `--generate` is run.

use crate::same::same;
use script_generator::make;
use script_print::print;
use std::alloc::Global;
use std::process::Abort;
use std::test::Fail;
use text_io::Version;

/// A number, and how many bytes its text and how many items its script has: one card, eight cards, and 12 with a root margin of 400
/// pixels. Those of 500 cards are in `readme_examples`.
const SIZES: [(u64, usize, usize); 3] = [(0, 482, 24), (7, 1483, 87), (4011, 2077, 123)];

fn see_size(
    rt: &impl Abort,
    alloc: Global,
    number: u64,
    bytes: usize,
    items: usize,
) -> Result<(), Fail> {
    let script = make(alloc, number)?;
    let text = print(alloc, &script)?;
    same(rt, &text.len(), &bytes, "bytes");
    same(rt, &script.items().len(), &items, "items");
    same(rt, &script.handlers(), &1, "handlers"); // `show`
    same(rt, &script.version(), &Version::First, "version");
    Ok(())
}

#[test]
fn scripts_are_made(rt: HostRuntime) -> Result<(), Fail> {
    for (number, bytes, items) in SIZES {
        see_size(&rt, rt.alloc(), number, bytes, items)?;
    }
    Ok(())
}
