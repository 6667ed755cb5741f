use crate::same::same;
use px_units::{Rect, meet};
use std::alloc::Global;
use thresholds::{Margins, Ratio, ThresholdFault, Thresholds};

/// The left, top, right and bottom edges of a rectangle in units.
type Edges = (i64, i64, i64, i64);

/// The text of a margin, and the rectangle of 800 by 600 pixels at the zero point moved by it; none where the text isn't
/// that of a margin.
const MARGINS: [(&'static str, Option<Edges>); 24] = [
    ("", Some((0, 0, 51200, 38400))),
    ("1px", Some((-64, -64, 51264, 38464))),
    ("1px 2px", Some((-128, -64, 51328, 38464))),
    ("1px 2px 3px", Some((-128, -64, 51328, 38592))),
    ("1px 2px 3px 4px", Some((-256, -64, 51328, 38592))),
    ("10% 0px", Some((0, -5120, 51200, 43520))),
    ("-301px", Some((19264, 19264, 31936, 19136))),
    ("-0.5px 33.33% -33.33%", Some((-17064, 32, 68264, 21336))),
    ("-10000%", Some((5120000, 5120000, -5068800, -5081600))),
    (
        "1000000px",
        Some((-64000000, -64000000, 64051200, 64038400)),
    ),
    ("0.99px -0.02px 0% -0.01%", Some((5, -63, 51199, 38400))),
    ("0", None),
    ("1px 2px 3px 4px 5px", None),
    ("1em", None),
    ("1px 0", None),
    ("1px  2px", None),
    (" 1px", None),
    ("1px ", None),
    ("+1px", None),
    ("1000000.01px", None),
    ("10000.01%", None),
    ("1 px", None),
    ("px", None),
    ("1PX", None),
];

const VIEWPORT: Rect = Rect {
    left: 0,
    top: 0,
    right: 51200,
    bottom: 38400,
};

fn edges(rect: Rect) -> Edges {
    (rect.left, rect.top, rect.right, rect.bottom)
}

#[test]
fn margins_move_the_root(rt: HostRuntime) {
    for (text, want) in MARGINS {
        let moved = match Margins::parse(text.as_bytes()) {
            Ok(margins) => Ok(edges(margins.dilate(VIEWPORT))),
            Err(fault) => Err(fault),
        };
        same(&rt, &moved, &want.ok_or(ThresholdFault::MarginSyntax), text);
    }
}

/// Percentages are of the width, also where the right edge is left of the left one, and are cut toward zero.
#[test]
fn crossed_roots_are_moved(rt: HostRuntime) -> Result<(), ThresholdFault> {
    let crossed = Rect {
        left: 641,
        top: 0,
        right: 0,
        bottom: 64,
    };
    same(
        &rt,
        &edges(Margins::parse(b"10%")?.dilate(crossed)),
        &(705, 64, -64, 0),
        "10%",
    );
    same(
        &rt,
        &edges(Margins::parse(b"-10%")?.dilate(crossed)),
        &(577, -64, 64, 128),
        "-10%",
    );
    let empty = Margins::parse(b"-301px")?.dilate(VIEWPORT);
    same(&rt, &meet(empty, VIEWPORT), &None, "an empty root");
    same(&rt, &meet(empty, empty), &None, "itself");
    Ok(())
}

fn index(alloc: Global, values: &[i64], ratio: Ratio) -> Result<u32, ThresholdFault> {
    Ok(Thresholds::new(alloc, values)?.index_of(ratio))
}

#[test]
fn thresholds_are_counted(rt: HostRuntime) {
    let alloc = rt.alloc();
    let quarter = Ratio { part: 1, whole: 4 };
    let third = Ratio { part: 1, whole: 3 };
    let half = Ratio { part: 1, whole: 2 };
    let nothing = Ratio { part: 0, whole: 1 };
    let all = Ratio { part: 1, whole: 1 };
    same(
        &rt,
        &index(alloc, &[0, 2500, 10000], quarter),
        &Ok(2),
        "a quarter",
    );
    same(
        &rt,
        &index(alloc, &[0, 2500, 10000], nothing),
        &Ok(1),
        "nothing",
    );
    same(&rt, &index(alloc, &[0, 2500, 10000], all), &Ok(3), "all");
    same(
        &rt,
        &index(alloc, &[10000, 0, 2500], quarter),
        &Ok(2),
        "not in order",
    );
    same(
        &rt,
        &index(alloc, &[5000, 5000], half),
        &Ok(2),
        "twice the same",
    );
    same(&rt, &index(alloc, &[3333, 3334], third), &Ok(1), "a third");
    same(&rt, &index(alloc, &[], nothing), &Ok(1), "no thresholds");
    same(
        &rt,
        &index(alloc, &[0, 10001], all),
        &Err(ThresholdFault::ThresholdRange),
        "above 1",
    );
    same(
        &rt,
        &index(alloc, &[-1, 0], all),
        &Err(ThresholdFault::ThresholdRange),
        "below 0",
    );
}

#[test]
fn areas_are_compared_exactly(rt: HostRuntime) {
    let below = Ratio {
        part: 32716800,
        whole: 65536000,
    };
    let largest = Ratio {
        part: 1208925819614629174706175,
        whole: 1208925819614629174706176,
    };
    same(
        &rt,
        &index(rt.alloc(), &[5000], below),
        &Ok(0),
        "just below a half",
    );
    same(
        &rt,
        &index(rt.alloc(), &[9999, 10000], largest),
        &Ok(1),
        "just below 1",
    );
}
