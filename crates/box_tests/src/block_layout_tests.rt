//! Boxes with the numbers that an independent program for the same rules gives.

ghost use Rattle.std.specs.Prelude.{◌≡◌, ◌<◌, length};

use crate::elements::{Element, SCREEN, styled};
use crate::same::same;
use block_layout::{
    BoxOf, Boxes, FreshBoxes, Inputs, ItemKind, child_inputs, compute_box, fresh_box,
    overflow_reach,
};
use element_tree::{NodeId, Tree};
use px_units::{BoxKind, Size};
use std::alloc::{AllocError, Global};
use std::marker::Brand;
use std::process::Abort;
use std::sync::ledger::{Blank, Ledger};
use std::test::Fail;
use step_count::Steps;

/// The kind, the containing width and height, the sum of the heights inside and the declarations of a box. Wanted: the
/// sizes of the content, padding and border box; the left and top margin, border and padding; the height of the margin
/// box; the inputs of the children.
type BoxRow = (ItemKind, i64, Option<i64>, i64, &'static str, &'static str);

const BOXES: [BoxRow; 40] = [
    (
        ItemKind::Block,
        51200,
        Some(38400),
        0,
        "",
        "51200 0 51200 0 51200 0 0 0 0 0 0 0 0 / 51200 -",
    ),
    (
        ItemKind::Block,
        51200,
        Some(38400),
        6400,
        "margin:3px padding:4px border:5px",
        "49664 6400 50176 6912 50816 7552 192 192 320 320 256 256 7936 / 49664 -",
    ),
    (
        ItemKind::Block,
        51200,
        None,
        6400,
        "margin-top:1px margin-right:2px margin-bottom:3px margin-left:4px",
        "50816 6400 50816 6400 50816 6400 256 64 0 0 0 0 6656 / 50816 -",
    ),
    (
        ItemKind::Block,
        51200,
        None,
        777,
        "padding-top:1px padding-right:2px padding-bottom:3px padding-left:4px border-top:5px border-right:6px border-bottom:7px border-left:8px",
        "49920 777 50304 1033 51200 1801 0 0 512 320 256 64 1801 / 49920 -",
    ),
    (
        ItemKind::Block,
        51200,
        Some(38400),
        100,
        "width:100px height:50px padding:10px border:1px box-sizing:border-box",
        "4992 1792 6272 3072 6400 3200 0 0 64 64 640 640 3200 / 4992 1792",
    ),
    (
        ItemKind::Block,
        51200,
        Some(38400),
        100,
        "width:10px height:5px padding:10px border:1px box-sizing:border-box",
        "0 0 1280 1280 1408 1408 0 0 64 64 640 640 1408 / 0 0",
    ),
    (
        ItemKind::Block,
        51200,
        Some(38400),
        100,
        "width:50% height:50% margin:10% padding:5%",
        "25600 19200 30720 24320 30720 24320 5120 5120 0 0 2560 2560 34560 / 25600 19200",
    ),
    (
        ItemKind::Block,
        51200,
        None,
        100,
        "height:50%",
        "51200 100 51200 100 51200 100 0 0 0 0 0 0 100 / 51200 -",
    ),
    (
        ItemKind::Block,
        51200,
        None,
        100,
        "height:50% min-height:20% max-height:10%",
        "51200 100 51200 100 51200 100 0 0 0 0 0 0 100 / 51200 -",
    ),
    (
        ItemKind::Block,
        51200,
        Some(38400),
        100,
        "min-height:20% max-height:10%",
        "51200 7680 51200 7680 51200 7680 0 0 0 0 0 0 7680 / 51200 -",
    ),
    (
        ItemKind::Block,
        51200,
        Some(38400),
        100,
        "min-width:300px max-width:200px",
        "19200 100 19200 100 19200 100 0 0 0 0 0 0 100 / 19200 -",
    ),
    (
        ItemKind::Block,
        51200,
        Some(38400),
        5000,
        "max-width:200px max-height:20px",
        "12800 1280 12800 1280 12800 1280 0 0 0 0 0 0 1280 / 12800 -",
    ),
    (
        ItemKind::Block,
        51200,
        Some(38400),
        5000,
        "max-width:200px max-height:20px padding:3px box-sizing:border-box",
        "12416 896 12800 1280 12800 1280 0 0 0 0 192 192 1280 / 12416 -",
    ),
    (
        ItemKind::Block,
        51200,
        Some(38400),
        5000,
        "width:0px min-width:33.33% min-height:100px box-sizing:border-box border:7px",
        "16168 5504 16168 5504 17064 6400 0 0 448 448 0 0 6400 / 16168 -",
    ),
    (
        ItemKind::Block,
        100,
        Some(38400),
        0,
        "margin:1px padding:2px",
        "0 0 256 256 256 256 64 64 0 0 128 128 384 / 0 -",
    ),
    (
        ItemKind::Block,
        100,
        Some(38400),
        0,
        "width:33.33% margin:0.01%",
        "33 0 33 0 33 0 0 0 0 0 0 0 0 / 33 -",
    ),
    (
        ItemKind::Block,
        0,
        Some(0),
        0,
        "margin:50% padding:50% height:50%",
        "0 0 0 0 0 0 0 0 0 0 0 0 0 / 0 0",
    ),
    (
        ItemKind::Block,
        0,
        None,
        0,
        "width:100px",
        "6400 0 6400 0 6400 0 0 0 0 0 0 0 0 / 6400 -",
    ),
    (
        ItemKind::Block,
        2147483647,
        Some(2147483647),
        2147483647,
        "",
        "2147483647 2147483647 2147483647 2147483647 2147483647 2147483647 0 0 0 0 0 0 2147483647 / 2147483647 -",
    ),
    (
        ItemKind::Block,
        2147483647,
        Some(2147483647),
        2147483647,
        "margin:10000% padding:10000% border:1000000px",
        "0 2147483647 4294967294 6442450941 4422967294 6570450941 2147483647 2147483647 64000000 64000000 2147483647 2147483647 10865418235 / 0 -",
    ),
    (
        ItemKind::Block,
        2147483647,
        Some(2147483647),
        0,
        "width:10000% height:10000%",
        "2147483647 2147483647 2147483647 2147483647 2147483647 2147483647 0 0 0 0 0 0 2147483647 / 2147483647 2147483647",
    ),
    (
        ItemKind::Block,
        2147483647,
        None,
        2147483647,
        "padding:100% height:1000000px",
        "0 64000000 4294967294 4358967294 4294967294 4358967294 0 0 0 0 2147483647 2147483647 4358967294 / 0 64000000",
    ),
    (
        ItemKind::Block,
        2147483647,
        Some(2147483647),
        0,
        "width:99.99% height:0.01% box-sizing:border-box padding:0.01%",
        "2146839402 0 2147268898 429496 2147268898 429496 0 0 0 0 214748 214748 429496 / 2146839402 0",
    ),
    (
        ItemKind::Image(Size {
            width: 6400,
            height: 3200,
        }),
        51200,
        Some(38400),
        0,
        "",
        "6400 3200 6400 3200 6400 3200 0 0 0 0 0 0 3200 / 6400 -",
    ),
    (
        ItemKind::Image(Size {
            width: 6400,
            height: 3200,
        }),
        51200,
        None,
        0,
        "padding:3px border:2px margin:1px box-sizing:border-box",
        "6400 3200 6784 3584 7040 3840 64 64 128 128 192 192 3968 / 6400 -",
    ),
    (
        ItemKind::Image(Size {
            width: 6400,
            height: 3200,
        }),
        51200,
        Some(38400),
        0,
        "width:50% max-height:10px",
        "25600 640 25600 640 25600 640 0 0 0 0 0 0 640 / 25600 -",
    ),
    (
        ItemKind::Image(Size {
            width: 6400,
            height: 3200,
        }),
        51200,
        None,
        0,
        "height:50% min-width:200px",
        "12800 3200 12800 3200 12800 3200 0 0 0 0 0 0 3200 / 12800 -",
    ),
    (
        ItemKind::Image(Size {
            width: 2147483647,
            height: 2147483647,
        }),
        51200,
        Some(38400),
        0,
        "margin:5%",
        "2147483647 2147483647 2147483647 2147483647 2147483647 2147483647 2560 2560 0 0 0 0 2147488767 / 2147483647 -",
    ),
    (
        ItemKind::Image(Size {
            width: 2147483647,
            height: 2147483647,
        }),
        2147483647,
        Some(2147483647),
        0,
        "max-width:1px min-height:2px padding:1000000px",
        "64 2147483647 128000064 2275483647 128000064 2275483647 0 0 0 0 64000000 64000000 2275483647 / 64 -",
    ),
    (
        ItemKind::Image(Size {
            width: 0,
            height: 0,
        }),
        51200,
        Some(38400),
        0,
        "min-width:1px border:1px",
        "64 0 64 0 192 128 0 0 64 64 0 0 128 / 64 -",
    ),
    (
        ItemKind::Frame,
        51200,
        Some(38400),
        0,
        "",
        "19200 9600 19200 9600 19200 9600 0 0 0 0 0 0 9600 / 19200 -",
    ),
    (
        ItemKind::Frame,
        100,
        None,
        0,
        "margin:2px border:3px",
        "19200 9600 19200 9600 19584 9984 128 128 192 192 0 0 10240 / 19200 -",
    ),
    (
        ItemKind::Frame,
        51200,
        Some(38400),
        0,
        "width:25% height:25% padding:1% box-sizing:border-box",
        "11776 8576 12800 9600 12800 9600 0 0 0 0 512 512 9600 / 11776 8576",
    ),
    (
        ItemKind::Frame,
        51200,
        None,
        0,
        "min-height:200px max-width:299.99px",
        "19199 12800 19199 12800 19199 12800 0 0 0 0 0 0 12800 / 19199 -",
    ),
    (
        ItemKind::Image(Size {
            width: 14576,
            height: 4151,
        }),
        51200,
        Some(38400),
        0,
        "width:250.00px height:1.00px min-width:0.25px max-height:33.50% margin-bottom:33.00% padding-right:33.25px border-left:33.01px padding-top:0.01px",
        "16000 64 18128 64 20240 64 0 0 2112 0 0 0 16960 / 16000 64",
    ),
    (
        ItemKind::Block,
        777,
        None,
        1081,
        "width:auto height:auto min-width:1.25px max-height:33.01% margin-bottom:33.50% padding-right:99.50% border-left:1.25px padding-top:50.00% box-sizing:border-box",
        "0 1081 773 1469 853 1469 0 0 80 0 0 388 1729 / 0 -",
    ),
    (
        ItemKind::Image(Size {
            width: 8063,
            height: 15145,
        }),
        12345,
        Some(4321),
        0,
        "width:50.50% height:1.50px min-width:9.00% max-height:none margin-bottom:250.25px padding-right:0.50px border-left:100.00px padding-top:9.01% box-sizing:border-box",
        "0 0 32 1112 6432 1112 0 0 6400 0 0 1112 17128 / 0 0",
    ),
    (
        ItemKind::Image(Size {
            width: 2562,
            height: 4878,
        }),
        777,
        Some(4321),
        0,
        "width:9.50px height:auto min-width:9.25px max-height:none margin-bottom:0.01px padding-right:99.01% border-left:250.00px padding-top:99.33% box-sizing:border-box",
        "0 4878 769 5649 16769 5649 0 0 16000 0 0 771 5649 / 0 -",
    ),
    (
        ItemKind::Image(Size {
            width: 18482,
            height: 4350,
        }),
        777,
        None,
        0,
        "width:1.00px height:auto min-width:33.00px max-height:none margin-bottom:50.50% padding-right:1.00px border-left:250.00px padding-top:9.01px box-sizing:border-box",
        "0 4350 64 4926 16064 4926 0 0 16000 0 0 576 5318 / 0 -",
    ),
    (
        ItemKind::Block,
        12345,
        None,
        2951,
        "width:auto height:0.50% min-width:250.01% max-height:33.50px margin-bottom:9.50px padding-right:250.50% border-left:0.50px padding-top:100.01px",
        "30863 2144 61787 8544 61819 8544 0 0 32 0 0 6400 9152 / 30863 -",
    ),
];

/// Boxes out of flow, whose insets are taken off an automatic size.
const OUT_OF_FLOW: [BoxRow; 19] = [
    (
        ItemKind::Block,
        51200,
        Some(38400),
        6400,
        "position:absolute",
        "51200 6400 51200 6400 51200 6400 0 0 0 0 0 0 6400 / 51200 -",
    ),
    (
        ItemKind::Block,
        51200,
        Some(38400),
        6400,
        "position:absolute left:10px right:20px",
        "49280 6400 49280 6400 49280 6400 0 0 0 0 0 0 6400 / 49280 -",
    ),
    (
        ItemKind::Block,
        51200,
        Some(38400),
        6400,
        "position:fixed left:25% margin:3px padding:4px border:5px",
        "36864 6400 37376 6912 38016 7552 192 192 320 320 256 256 7936 / 36864 -",
    ),
    (
        ItemKind::Block,
        51200,
        Some(38400),
        6400,
        "position:absolute right:-100px left:-50%",
        "83200 6400 83200 6400 83200 6400 0 0 0 0 0 0 6400 / 83200 -",
    ),
    (
        ItemKind::Block,
        51200,
        Some(38400),
        6400,
        "position:absolute left:500px right:301px",
        "0 6400 0 6400 0 6400 0 0 0 0 0 0 6400 / 0 -",
    ),
    (
        ItemKind::Block,
        777,
        Some(1081),
        100,
        "position:absolute left:33.33% right:-33.33%",
        "777 100 777 100 777 100 0 0 0 0 0 0 100 / 777 -",
    ),
    (
        ItemKind::Block,
        51200,
        Some(38400),
        6400,
        "position:absolute left:10px right:10px width:50% max-width:300px",
        "19200 6400 19200 6400 19200 6400 0 0 0 0 0 0 6400 / 19200 -",
    ),
    (
        ItemKind::Block,
        51200,
        Some(38400),
        6400,
        "position:absolute left:10px right:10px min-width:900px box-sizing:border-box padding:7px",
        "56704 6400 57600 7296 57600 7296 0 0 0 0 448 448 7296 / 56704 -",
    ),
    (
        ItemKind::Block,
        2147483647,
        Some(2147483647),
        0,
        "position:absolute left:-1000000px right:-1000000px top:-1000000px bottom:-100%",
        "2147483647 2147483647 2147483647 2147483647 2147483647 2147483647 0 0 0 0 0 0 2147483647 / 2147483647 2147483647",
    ),
    (
        ItemKind::Block,
        51200,
        Some(38400),
        6400,
        "position:absolute top:10px bottom:20px",
        "51200 36480 51200 36480 51200 36480 0 0 0 0 0 0 36480 / 51200 36480",
    ),
    (
        ItemKind::Block,
        51200,
        Some(38400),
        6400,
        "position:fixed top:10% bottom:-5% padding:10px border:1px margin-top:2px",
        "49792 34944 51072 36224 51200 36352 0 128 64 64 640 640 36480 / 49792 34944",
    ),
    (
        ItemKind::Block,
        51200,
        Some(38400),
        6400,
        "position:absolute top:10px",
        "51200 6400 51200 6400 51200 6400 0 0 0 0 0 0 6400 / 51200 -",
    ),
    (
        ItemKind::Block,
        51200,
        Some(38400),
        6400,
        "position:absolute bottom:10px height:50%",
        "51200 19200 51200 19200 51200 19200 0 0 0 0 0 0 19200 / 51200 19200",
    ),
    (
        ItemKind::Block,
        51200,
        Some(38400),
        6400,
        "position:absolute top:300px bottom:301px padding-top:5px",
        "51200 0 51200 320 51200 320 0 0 0 0 0 320 320 / 51200 0",
    ),
    (
        ItemKind::Block,
        51200,
        Some(38400),
        6400,
        "position:absolute top:10px bottom:10px height:33.33% max-height:100px",
        "51200 6400 51200 6400 51200 6400 0 0 0 0 0 0 6400 / 51200 6400",
    ),
    (
        ItemKind::Block,
        51200,
        Some(38400),
        6400,
        "position:absolute top:10px bottom:10px min-height:110% box-sizing:border-box border:3px",
        "50816 41856 50816 41856 51200 42240 0 0 192 192 0 0 42240 / 50816 41856",
    ),
    (
        ItemKind::Image(Size {
            width: 8063,
            height: 15145,
        }),
        51200,
        Some(38400),
        0,
        "position:absolute left:10px right:20px top:10px bottom:20px",
        "8063 15145 8063 15145 8063 15145 0 0 0 0 0 0 15145 / 8063 15145",
    ),
    (
        ItemKind::Image(Size {
            width: 8063,
            height: 15145,
        }),
        51200,
        Some(38400),
        0,
        "position:fixed top:10px height:25% padding:1%",
        "8063 9600 9087 10624 9087 10624 0 0 0 0 512 512 10624 / 8063 9600",
    ),
    (
        ItemKind::Frame,
        51200,
        Some(38400),
        0,
        "position:absolute left:10px right:20px top:1px bottom:1px border:2px",
        "19200 9600 19200 9600 19456 9856 0 0 128 128 0 0 9856 / 19200 9600",
    ),
];

/// Boxes in flow, whose insets move them and change no size.
const RELATIVE: [BoxRow; 3] = [
    (
        ItemKind::Block,
        51200,
        None,
        100,
        "position:relative top:10% bottom:20% left:10px right:10px",
        "51200 100 51200 100 51200 100 0 0 0 0 0 0 100 / 51200 -",
    ),
    (
        ItemKind::Block,
        51200,
        Some(38400),
        100,
        "position:relative top:10px bottom:20px",
        "51200 100 51200 100 51200 100 0 0 0 0 0 0 100 / 51200 -",
    ),
    (
        ItemKind::Block,
        51200,
        None,
        6400,
        "position:relative height:50% left:-10px",
        "51200 6400 51200 6400 51200 6400 0 0 0 0 0 0 6400 / 51200 -",
    ),
];

/// The parent's number, which is its own for the root element; kind; declarations. Wanted: the content size and, of a
/// scroll container, how far it reaches; a bar without a box.
type ElementRow = (u32, ItemKind, &'static str, &'static str);

const ELEMENTS: [ElementRow; 20] = [
    (
        0,
        ItemKind::Block,
        "height:250.01px margin:3px margin-left:21px",
        "49664 16000",
    ),
    (
        0,
        ItemKind::Block,
        "width:auto height:250.50% border:10px",
        "48384 40080",
    ),
    (0, ItemKind::Block, "height:auto margin:19px", "47232 0"),
    (0, ItemKind::Block, "margin-top:15px", "49664 11584"),
    (
        3,
        ItemKind::Block,
        "width:99.01% border:14px padding-left:45px overflow:hidden",
        "49172 576 52052 10176",
    ),
    (
        3,
        ItemKind::Block,
        "height:auto padding-left:27px overflow:auto",
        "47936 9216 50320 9216",
    ),
    (5, ItemKind::Block, "height:0.33%", "47936 9216"),
    (
        4,
        ItemKind::Frame,
        "width:99.01% border-bottom:27px display:none",
        "-",
    ),
    (4, ItemKind::Block, "width:auto height:9.00px", "49172 576"),
    (6, ItemKind::Block, "width:99.50% border:7px", "47696 8320"),
    (
        7,
        ItemKind::Block,
        "width:33.00px height:100.00px padding:5px margin-left:14px overflow:auto",
        "-",
    ),
    (
        8,
        ItemKind::Block,
        "height:100.00px padding-left:48px overflow:clip box-sizing:border-box",
        "46100 6400",
    ),
    (8, ItemKind::Block, "width:50.00%", "24586 3776"),
    (
        9,
        ItemKind::Image(Size {
            width: 1472,
            height: 8320,
        }),
        "",
        "1472 8320",
    ),
    (12, ItemKind::Block, "width:1.33% margin:11px", "326 2368"),
    (
        14,
        ItemKind::Block,
        "width:1.00px padding:4px overflow:scroll",
        "64 704 6592 1216",
    ),
    (15, ItemKind::Block, "border-bottom:10px", "64 64"),
    (15, ItemKind::Block, "overflow:scroll", "64 0 64 0"),
    (
        14,
        ItemKind::Block,
        "width:0.50% height:auto margin:9px",
        "1 0",
    ),
    (
        16,
        ItemKind::Image(Size {
            width: 6336,
            height: 3136,
        }),
        "height:1.01px overflow:hidden box-sizing:border-box",
        "6336 64",
    ),
];

fn computed<L: Ledger>(blank: Blank, item: &Element, inputs: Inputs, inside: i64) -> BoxOf
    requires name { blank.name ≡ L.name }
    requires parts { blank.parts ≡ L.parts }
    requires one_part { 0 < blank.parts }
{
    let mut steps = Steps::<L>::new(blank);
    compute_box(item, inputs, inside, &mut steps)
}

fn sizes(alloc: Global, found: &BoxOf) -> Result<String, Fail> {
    let content = found.size(BoxKind::Content);
    let padding = found.padding_size();
    let border = found.size(BoxKind::Border);
    Ok(format!(in alloc;
        "{} {} {} {} {} {}",
        content.width, content.height, padding.width, padding.height, border.width, border.height
    )?)
}

fn corners(alloc: Global, found: &BoxOf) -> Result<String, Fail> {
    let margin = found.margin_corner();
    let border = found.padding_corner();
    let padding = found.content_corner();
    Ok(format!(in alloc;
        "{} {} {} {} {} {}",
        margin.left, margin.top, border.left, border.top, padding.left, padding.top
    )?)
}

fn handed(alloc: Global, inner: Inputs) -> Result<String, Fail> {
    let width = inner.width;
    match inner.height {
        Some(height) => Ok(format!(in alloc; "{width} {height}")?),
        None => Ok(format!(in alloc; "{width} -")?),
    }
}

// The line of a box at these inputs.
fn line_of(alloc: Global, item: &Element, inputs: Inputs, found: &BoxOf) -> Result<String, Fail> {
    let sizes = sizes(alloc, found)?;
    let corners = corners(alloc, found)?;
    let handed = handed(alloc, child_inputs(item, inputs))?;
    let height = found.margin_height();
    Ok(format!(in alloc; "{sizes} {corners} {height} / {handed}")?)
}

fn see_box(rt: &impl Abort, alloc: Global, flow: bool, row: BoxRow) -> Result<(), Fail> {
    let (kind, width, height, inside, declarations, wanted) = row;
    let item = styled(rt, kind, declarations);
    let inputs = Inputs {
        width,
        height,
        flow,
    };
    let found = computed::<Brand>(Blank::new(1), &item, inputs, inside);
    let line = line_of(alloc, &item, inputs, &found)?;
    same(rt, &line.as_str(), &wanted, declarations);
    same(
        rt,
        &found.size(BoxKind::Device),
        &found.size(BoxKind::Content),
        declarations,
    );
    Ok(())
}

#[test]
fn boxes_have_their_numbers(rt: HostRuntime) -> Result<(), Fail> {
    for row in BOXES {
        see_box(&rt, rt.alloc(), true, row)?;
    }
    Ok(())
}

#[test]
fn boxes_out_of_flow_have_their_numbers(rt: HostRuntime) -> Result<(), Fail> {
    for row in OUT_OF_FLOW {
        see_box(&rt, rt.alloc(), false, row)?;
    }
    Ok(())
}

#[test]
fn insets_change_no_size_in_flow(rt: HostRuntime) -> Result<(), Fail> {
    for row in RELATIVE {
        see_box(&rt, rt.alloc(), true, row)?;
    }
    Ok(())
}

const VIEW: Size = Size {
    width: 51200,
    height: 38400,
};

const ROOT: NodeId = NodeId(0);

fn place(rt: &impl Abort, tree: &mut Tree<Element>, parent: NodeId, item: Element) {
    match tree.add(item) {
        Ok(node) => {
            if node != parent {
                assert!(rt; tree.holds(parent) && tree.holds(node));
                assert!(rt; tree.append(parent, node).is_ok());
            }
        }
        Err(_) => assert!(rt; false, "no node"),
    }
}

fn fill_for<L: Ledger>(blank: Blank, boxes: &mut FreshBoxes, tree: &Tree<Element>)
    requires name { blank.name ≡ L.name }
    requires parts { blank.parts ≡ L.parts }
    requires one_part { 0 < blank.parts }
    requires root { 0 < length tree.now.nodes }
{
    let mut steps = Steps::<L>::new(blank);
    boxes.fill(tree, ROOT, SCREEN, &mut steps);
}

// Computes all boxes of a tree.
fn fill(rt: &impl Abort, boxes: &mut FreshBoxes, tree: &Tree<Element>) {
    assert!(rt; tree.holds(ROOT));
    fill_for::<Brand>(Blank::new(1), boxes, tree);
}

// How far the content of a scroll container reaches, and None of other elements.
fn reach_of(tree: &Tree<Element>, boxes: &FreshBoxes, node: NodeId) -> Option<Size>
    requires { node.0 < length tree.now.nodes }
{
    if tree.payload(node).scrolls() && tree.parent(node).is_some() {
        Some(overflow_reach(tree, boxes, node, None))
    } else {
        None
    }
}

// The content size and, of a scroll container, how far it reaches.
fn report(
    alloc: Global,
    tree: &Tree<Element>,
    boxes: &FreshBoxes,
    node: NodeId,
) -> Result<String, AllocError>
    requires { node.0 < length tree.now.nodes }
{
    let Some(found) = boxes.box_of(node) else {
        return format!(in alloc; "-");
    };
    let Size { width, height } = found.size(BoxKind::Content);
    match reach_of(tree, boxes, node) {
        Some(reach) => format!(in alloc; "{width} {height} {} {}", reach.width, reach.height),
        None => format!(in alloc; "{width} {height}"),
    }
}

fn see_element(
    rt: &impl Abort,
    alloc: Global,
    tree: &Tree<Element>,
    boxes: &FreshBoxes,
    number: usize,
) -> Result<(), Fail> {
    assert!(rt; number < 20);
    let node = NodeId(number as u32);
    assert!(rt; tree.holds(node));
    let (_, _, declarations, wanted) = ELEMENTS[number];
    let line = report(alloc, tree, boxes, node)?;
    same(rt, &line.as_str(), &wanted, declarations);
    Ok(())
}

fn place_all(rt: &impl Abort, tree: &mut Tree<Element>) {
    for (parent, kind, declarations, _) in ELEMENTS {
        place(rt, tree, NodeId(parent), styled(rt, kind, declarations));
    }
}

fn see_tree(
    rt: &impl Abort,
    alloc: Global,
    tree: &Tree<Element>,
    boxes: &mut FreshBoxes,
) -> Result<(), Fail> {
    boxes.add(NodeId(19))?;
    fill(rt, boxes, tree);
    for number in 0..20 {
        see_element(rt, alloc, tree, boxes, number)?;
    }
    see_reach(rt, tree, boxes, VIEW, (55188, 56528));
    Ok(())
}

fn see_reach(
    rt: &impl Abort,
    tree: &Tree<Element>,
    boxes: &FreshBoxes,
    view: Size,
    wanted: (i64, i64),
) {
    assert!(rt; tree.holds(ROOT));
    let reach = overflow_reach(tree, boxes, ROOT, Some(view));
    same(rt, &(reach.width, reach.height), &wanted, "the reach");
}

// Takes the box of an element away, with those in it.
fn hide(rt: &impl Abort, tree: &mut Tree<Element>, boxes: &mut FreshBoxes) {
    assert!(rt; tree.holds(NodeId(3)));
    let item = tree.payload_mut(NodeId(3));
    assert!(rt; item.set("display", "none"));
    fill(rt, boxes, tree);
    for number in 3..20 {
        same(rt, &boxes.box_of(NodeId(number)), &None, "no box");
    }
    assert!(rt; boxes.box_of(NodeId(2)).is_some());
}

#[test]
fn trees_are_filled(rt: HostRuntime) -> Result<(), Fail> {
    let mut tree = Tree::new(rt.alloc(), 20, 256);
    let mut boxes = FreshBoxes::new(rt.alloc());
    place_all(&rt, &mut tree);
    see_tree(&rt, rt.alloc(), &tree, &mut boxes)?;
    hide(&rt, &mut tree, &mut boxes);
    Ok(())
}

fn measured_for<L: Ledger>(blank: Blank, tree: &Tree<Element>) -> BoxOf
    requires name { blank.name ≡ L.name }
    requires parts { blank.parts ≡ L.parts }
    requires one_part { 0 < blank.parts }
    requires root { 0 < length tree.now.nodes }
{
    let mut steps = Steps::<L>::new(blank);
    fresh_box(tree, ROOT, SCREEN, &mut steps)
}

// The box of the root element.
fn measured(rt: &impl Abort, tree: &Tree<Element>) -> BoxOf {
    assert!(rt; tree.holds(ROOT));
    measured_for::<Brand>(Blank::new(1), tree)
}

fn see_content(rt: &impl Abort, found: &BoxOf, wanted: (i64, i64)) {
    let content = found.size(BoxKind::Content);
    same(rt, &(content.width, content.height), &wanted, "the content");
}

// A root element, which counts as static, with children of 10, 40 and 30 pixels stacked in it, the second with 10 in itself. What is
// out of flow is stacked nowhere.
fn place_positioned(rt: &impl Abort, tree: &mut Tree<Element>) {
    for (parent, declarations) in [
        (0, "position:absolute left:10px"),
        (0, "height:10px"),
        (0, "position:relative top:500px padding:15px"),
        (0, "position:absolute height:1000px"),
        (0, "position:fixed height:2000px"),
        (0, "position:relative bottom:-3px height:30px"),
        (2, "height:10px"),
        (2, "position:absolute top:0px bottom:0px"),
        (2, "position:fixed height:50%"),
    ] {
        place(
            rt,
            tree,
            NodeId(parent),
            styled(rt, ItemKind::Block, declarations),
        );
    }
}

#[test]
fn boxes_out_of_flow_are_not_stacked(rt: HostRuntime) {
    let mut tree = Tree::new(rt.alloc(), 9, 256);
    place_positioned(&rt, &mut tree);
    see_content(&rt, &measured(&rt, &tree), (51200, 5120)); // 10, 40 and 30 pixels
}
