//! Lengths as texts, at others than those of the law `texts_of_units`, and against a basis, and rectangles.

use crate::same::{same, same_bytes};
use px_units::{
    Length, LengthFault, Percent, Px, Rect, area, meet, print_px, read_percent, read_px, resolve,
    shift,
};
use std::test::Fail;

#[test]
fn lengths_are_printed_exactly(rt: HostRuntime) -> Result<(), Fail> {
    let rows = [
        (2, "0.03125"),
        (63, "0.984375"),
        (64, "1"),
        (-64000000, "-1000000"),
        (2147483647, "33554431.984375"), // 2^31 - 1, at which a resolved length is capped
        (-2251799813685248, "-35184372088832"), // -2^51
        (-9223372036854775808, "-144115188075855872"), // the least number of 64 bits
    ];
    for (units, text) in rows {
        same_bytes(
            &rt,
            print_px(rt.alloc(), Px(units))?.as_slice(),
            text.as_bytes(),
            text,
        );
    }
    Ok(())
}

#[test]
fn texts_are_read(rt: HostRuntime) {
    let rows = [
        ("1000000px", Ok(Px(64000000))),
        ("-12345678px", Err(LengthFault::OutOfRange)),
        ("5%", Err(LengthFault::NotALength)),
    ];
    for (text, want) in rows {
        assert!(rt; read_px(text.as_bytes()) == want, "{text}");
    }
    assert!(rt; read_percent(b"-12.5%") == Ok(Percent(-1250)));
    assert!(rt; read_percent(b"10000.01%") == Err(LengthFault::OutOfRange));
    assert!(rt; read_percent(b"%") == Err(LengthFault::NotALength));
}

#[test]
fn lengths_are_resolved(rt: HostRuntime) {
    same(&rt, &resolve(Length::Auto, 6400), &None, "auto");
    same(
        &rt,
        &resolve(Length::Px(Px(2147483648)), 5),
        &Some(2147483647),
        "2^31 units",
    );
    same(
        &rt,
        &resolve(Length::Percent(Percent(3333)), 1000),
        &Some(333),
        "33.33%",
    );
    same(
        &rt,
        &resolve(Length::Percent(Percent(20000)), 2147483647),
        &Some(2147483647),
        "200%",
    );
}

#[test]
fn rectangles_meet_at_their_edges(rt: HostRuntime) {
    let a = Rect {
        left: 0,
        top: 0,
        right: 64,
        bottom: 32,
    };
    let touching = Rect {
        left: 64,
        top: -10,
        right: 100,
        bottom: 10,
    };
    let apart = Rect {
        left: 65,
        top: 0,
        right: 70,
        bottom: 32,
    };
    same(
        &rt,
        &meet(a, touching),
        &Some(Rect {
            left: 64,
            top: 0,
            right: 64,
            bottom: 10,
        }),
        "an edge in common",
    );
    same(&rt, &meet(a, apart), &None, "apart");
    same(
        &rt,
        &shift(a, -1, 2),
        &Rect {
            left: -1,
            top: 2,
            right: 63,
            bottom: 34,
        },
        "shifted",
    );
    same(&rt, &area(a), &2048, "an area");
    same(
        &rt,
        &area(Rect {
            left: 1,
            top: 5,
            right: 0,
            bottom: 4,
        }),
        &0,
        "the area of a crossed one",
    );
}
