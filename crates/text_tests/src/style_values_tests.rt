//! Each property with a value that it has and one that it hasn't, and what declarations change.

use px_units::{Length, Percent, Px};
use std::process::Abort;
use style_values::{
    BoxSizing, Declaration, Display, Overflow, Position, Sides, Style, StyleFault, first_version,
};
use text_io::Version;

/// A property, a value that it has, the declaration of both, and a word that is no value of it.
type Row = (&'static str, &'static str, Declaration, &'static str);

/// Half a pixel.
const HALF: Length = Length::Px(Px(32));

/// 12.5 percent.
const PART: Length = Length::Percent(Percent(1250));

const ROWS: [Row; 24] = [
    (
        "display",
        "none",
        Declaration::Display(Display::Hidden),
        "inline",
    ),
    ("width", "auto", Declaration::Width(Length::Auto), "none"),
    ("height", "12.5%", Declaration::Height(PART), "-1px"),
    ("min-width", "0.5px", Declaration::MinWidth(HALF), "auto"),
    ("min-height", "12.5%", Declaration::MinHeight(PART), "none"),
    ("max-width", "none", Declaration::MaxWidth(None), "auto"),
    (
        "max-height",
        "0.5px",
        Declaration::MaxHeight(Some(HALF)),
        "1000000.01px",
    ),
    (
        "margin-top",
        "0.5px",
        Declaration::Margin(Sides::Top, HALF),
        "auto",
    ),
    (
        "margin-right",
        "12.5%",
        Declaration::Margin(Sides::Right, PART),
        "-0.5px",
    ),
    (
        "margin-bottom",
        "0.5px",
        Declaration::Margin(Sides::Bottom, HALF),
        "5",
    ),
    (
        "margin-left",
        "0.5px",
        Declaration::Margin(Sides::Left, HALF),
        "10000.01%",
    ),
    ("margin", "12.5%", Declaration::Margin(Sides::All, PART), ""),
    (
        "padding-top",
        "0.5px",
        Declaration::Padding(Sides::Top, HALF),
        "auto",
    ),
    (
        "padding-right",
        "12.5%",
        Declaration::Padding(Sides::Right, PART),
        "0.5",
    ),
    (
        "padding-bottom",
        "0.5px",
        Declaration::Padding(Sides::Bottom, HALF),
        "0.5PX",
    ),
    (
        "padding-left",
        "0.5px",
        Declaration::Padding(Sides::Left, HALF),
        "1.px",
    ),
    (
        "padding",
        "0.5px",
        Declaration::Padding(Sides::All, HALF),
        "0.5px 0.5px",
    ),
    (
        "border-top",
        "0.5px",
        Declaration::Border(Sides::Top, Px(32)),
        "12.5%",
    ),
    (
        "border-right",
        "1000000px",
        Declaration::Border(Sides::Right, Px(64000000)),
        "12345678px",
    ),
    (
        "border-bottom",
        "0.02px",
        Declaration::Border(Sides::Bottom, Px(1)),
        "1.234px",
    ),
    (
        "border-left",
        "0px",
        Declaration::Border(Sides::Left, Px(0)),
        "auto",
    ),
    (
        "border",
        "1px",
        Declaration::Border(Sides::All, Px(64)),
        "none",
    ),
    (
        "box-sizing",
        "border-box",
        Declaration::BoxSizing(BoxSizing::Border),
        "padding-box",
    ),
    (
        "overflow",
        "clip",
        Declaration::Overflow(Overflow::Clip),
        "none",
    ),
];

const POSITIONS: [(&str, Position); 4] = [
    ("static", Position::Static),
    ("relative", Position::Relative),
    ("absolute", Position::Absolute),
    ("fixed", Position::Fixed),
];

/// Values of an inset, up to the ends of their ranges.
const INSETS: [(&str, Length); 12] = [
    ("auto", Length::Auto),
    ("0.5px", HALF),
    ("-0.5px", Length::Px(Px(-32))),
    ("0px", Length::Px(Px(0))),
    ("-0px", Length::Px(Px(0))),
    ("1000000px", Length::Px(Px(64000000))),
    ("-1000000px", Length::Px(Px(-64000000))),
    ("12.5%", PART),
    ("-12.5%", Length::Percent(Percent(-1250))),
    ("-0%", Length::Percent(Percent(0))),
    ("10000%", Length::Percent(Percent(1000000))),
    ("-10000%", Length::Percent(Percent(-1000000))),
];

/// What no inset is.
const NO_INSETS: [&str; 9] = [
    "none",
    "0",
    "-",
    "-auto",
    "--1px",
    "1000000.01px",
    "-1000000.01px",
    "10000.01%",
    "-10000.01%",
];

fn see_inset(rt: &impl Abort, value: &str, want: Length) {
    let word = value.as_bytes();
    assert!(rt;
        Declaration::read(b"top", word) == Ok(Declaration::Top(want)),
        "top: {value}"
    );
    assert!(rt;
        Declaration::read(b"right", word) == Ok(Declaration::Right(want)),
        "right: {value}"
    );
    assert!(rt;
        Declaration::read(b"bottom", word) == Ok(Declaration::Bottom(want)),
        "bottom: {value}"
    );
    assert!(rt;
        Declaration::read(b"left", word) == Ok(Declaration::Left(want)),
        "left: {value}"
    );
}

#[test]
fn insets_have_a_sign(rt: HostRuntime) {
    for (value, want) in INSETS {
        see_inset(&rt, value, want);
    }
}

fn see_no_inset(rt: &impl Abort, value: &str) {
    for side in ["top", "right", "bottom", "left"] {
        assert!(rt;
            Declaration::read(side.as_bytes(), value.as_bytes()) == Err(StyleFault::BadValue),
            "{side}: {value}"
        );
    }
}

#[test]
fn insets_have_their_ranges(rt: HostRuntime) {
    for value in NO_INSETS {
        see_no_inset(&rt, value);
    }
}

#[test]
fn a_position_is_one_of_four(rt: HostRuntime) {
    for (value, want) in POSITIONS {
        assert!(rt;
            Declaration::read(b"position", value.as_bytes()) == Ok(Declaration::Position(want)),
            "{value}"
        );
    }
    assert!(rt; Declaration::read(b"position", b"sticky") == Err(StyleFault::BadValue));
    assert!(rt; Declaration::read(b"position", b"auto") == Err(StyleFault::BadValue));
}

#[test]
fn the_first_version_has_no_positioned_property(rt: HostRuntime) {
    for (property, _, declaration, _) in ROWS {
        assert!(rt; declaration.version() == Version::First, "{property}");
        assert!(rt;
            first_version(property.as_bytes()) == Some(Version::First),
            "{property}"
        );
    }
    assert!(rt; Declaration::Position(Position::Static).version() == Version::Second);
    assert!(rt; Declaration::Top(Length::Auto).version() == Version::Second);
    assert!(rt; Declaration::Right(HALF).version() == Version::Second);
    assert!(rt; Declaration::Bottom(PART).version() == Version::Second);
    assert!(rt; Declaration::Left(Length::Auto).version() == Version::Second);
}

#[test]
fn a_property_word_has_a_first_version(rt: HostRuntime) {
    for property in ["position", "top", "right", "bottom", "left"] {
        assert!(rt;
            first_version(property.as_bytes()) == Some(Version::Second),
            "{property}"
        );
    }
    assert!(rt; first_version(b"color") == None);
    assert!(rt; first_version(b"Top") == None);
}

#[test]
fn insets_change_their_own_sides(rt: HostRuntime) {
    let mut style = Style::new();
    assert!(rt; style.set(b"position", b"relative") == Ok(()));
    assert!(rt; style.set(b"left", b"-0.5px") == Ok(()));
    style.apply(Declaration::Bottom(PART));
    let want = Style {
        position: Position::Relative,
        left: Length::Px(Px(-32)),
        bottom: PART,
        ..Style::new()
    };
    assert!(rt; style == want);
    assert!(rt; style.set(b"right", b"0") == Err(StyleFault::BadValue));
    assert!(rt; style == want);
}

#[test]
fn each_property_has_its_values(rt: HostRuntime) {
    for (property, good, want, bad) in ROWS {
        let name = property.as_bytes();
        assert!(rt;
            Declaration::read(name, good.as_bytes()) == Ok(want),
            "{property}: {good}"
        );
        assert!(rt;
            Declaration::read(name, bad.as_bytes()) == Err(StyleFault::BadValue),
            "{property}: {bad}"
        );
    }
    assert!(rt; Declaration::read(b"color", b"auto") == Err(StyleFault::UnknownProperty));
    assert!(rt; Declaration::read(b"Width", b"auto") == Err(StyleFault::UnknownProperty));
}

#[test]
fn declarations_change_their_own_properties(rt: HostRuntime) {
    let mut style = Style::new();
    assert!(rt; style.set(b"padding", b"0.5px") == Ok(()));
    style.apply(Declaration::Border(Sides::Left, Px(64)));
    let want = Style {
        padding_top: HALF,
        padding_right: HALF,
        padding_bottom: HALF,
        padding_left: HALF,
        border_left: Px(64),
        ..Style::new()
    };
    assert!(rt; style == want);
    assert!(rt; style.set(b"padding", b"auto") == Err(StyleFault::BadValue));
    assert!(rt; style.set(b"paddings", b"0px") == Err(StyleFault::UnknownProperty));
    assert!(rt; style == want);
}
