//! The screen of the top document, and sizes in its device pixels.

ghost use Rattle.std.specs.Prelude.{◌≡◌, pos, unsigned_abs};
ghost use Rattle.style_values.specs.Ranges.{IsHundredths};
ghost use Rattle.page_model.specs.PageBoxes.{device_pixels, size_by};
ghost use Rattle.block_layout.specs.Seen.{as_size};
ghost use Rattle.page_tree.specs.Items.{IsLength, IsNatural};
ghost use Rattle.page_boxes.specs.Pages.{IsScreen};
ghost use Rattle.page_boxes.specs.Ranges.{IsSpan};

use block_layout::BoxOf;
use px_units::{BoxKind, Percent, Size};

/// A device pixel, in hundredths of a percent of 1/64 CSS pixel.
const UNITS: u64 = 640_000;

/// The screen of the top document (CSSOM View, 4).
#[derive(Clone, Copy, Debug, PartialEq, Eq)]
pub struct Screen {
    /// The size of the viewport, in units of 1/64 CSS pixel.
    pub size: Size,
    /// The number of device pixels per CSS pixel, from 0 to 10,000 percent (`devicePixelRatio`).
    pub ratio: Percent,
}

// Returns the nearest whole number of device pixels for a length in units, halves up.
fn device_pixels(ratio: Percent, units: i64) -> i64
    requires ratio { IsHundredths ratio.0 }
    requires units { IsLength units }
    ensures value { result ≡ pos (device_pixels (unsigned_abs ratio.0) (unsigned_abs units)) }
    ensures range { IsSpan result }
{
    let parts = units.unsigned_abs() * u64::from(ratio.0.unsigned_abs());
    ((parts + UNITS / 2) / UNITS) as i64
}

fn in_device_pixels(ratio: Percent, size: Size) -> Size
    requires ratio { IsHundredths ratio.0 }
    requires size { IsNatural size }
    ensures value { result ≡ as_size (device_pixels (unsigned_abs ratio.0) (unsigned_abs size.width), device_pixels (unsigned_abs ratio.0) (unsigned_abs size.height)) }
    ensures width { IsSpan result.width }
    ensures height { IsSpan result.height }
{
    Size {
        width: device_pixels(ratio, size.width),
        height: device_pixels(ratio, size.height),
    }
}

/// Returns the size of a box on this screen: of the content box or the border box in units of 1/64 CSS pixel (CSS 2.2, 8.1),
/// or of the content box in device pixels, rounded to the nearest pixel, halves up (Resize Observer, 3.4: calculate box
/// size).
pub fn size_on(screen: Screen, own: &BoxOf, kind: BoxKind) -> Size
    requires { IsScreen screen }
    ensures value { result ≡ as_size (size_by (unsigned_abs screen.ratio.0) kind own.now) }
    ensures width { IsSpan result.width }
    ensures height { IsSpan result.height }
{
    match kind {
        BoxKind::Content => own.size(BoxKind::Content),
        BoxKind::Border => own.size(BoxKind::Border),
        BoxKind::Device => in_device_pixels(screen.ratio, own.size(BoxKind::Content)),
    }
}
