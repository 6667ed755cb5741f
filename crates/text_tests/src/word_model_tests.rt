//! Words with what they come to, at others than those of the law `forms_at_texts`, and digits of numbers.

use crate::same::{same, same_bytes};
use std::test::Fail;
use word_model::{
    is_decimal_with, is_name, length, number, percent, push_decimal, signed_length, signed_percent,
    whole,
};

/// A word; as a whole number, a signed length in 1/64 pixel, a signed percentage in hundredths and a number in ten-thousandths; whether
/// it is a decimal with `px`. The bounds are those of `docs/SCRIPT.md`.
type Row = (
    &'static str,
    Option<u64>,
    Option<i64>,
    Option<i64>,
    Option<i64>,
    bool,
);

const ROWS: [Row; 23] = [
    ("0", Some(0), None, None, Some(0), false),
    ("007", None, None, None, Some(70000), false),
    (
        "1000000000000",
        Some(1000000000000),
        None,
        None,
        None,
        false,
    ),
    ("1000000000001", None, None, None, None, false),
    ("99999999999999999999999", None, None, None, None, false),
    ("0.01px", None, Some(0), None, None, true),
    ("0.02px", None, Some(1), None, None, true),
    ("-0.5px", None, Some(-32), None, None, true),
    ("1000000.00px", None, Some(64000000), None, None, true),
    ("-1000000.01px", None, None, None, None, true),
    ("12345678px", None, None, None, None, true),
    ("1.234px", None, None, None, None, true),
    ("1.px", None, None, None, None, false),
    (".5px", None, None, None, None, false),
    ("", None, None, None, None, false),
    ("--1px", None, None, None, None, false),
    ("-12.34%", None, None, Some(-1234), None, false),
    ("10000%", None, None, Some(1000000), None, false),
    ("10000.01%", None, None, None, None, false),
    ("7", Some(7), None, None, Some(70000), false),
    ("-0.0001", None, None, None, Some(-1), false),
    (
        "123456789.1234",
        None,
        None,
        None,
        Some(1234567891234),
        false,
    ),
    ("1.23456", None, None, None, None, false),
];

#[test]
fn words_have_their_forms(rt: HostRuntime) {
    for (text, whole_read, units, hundredths, ten_thousandths, decimal) in ROWS {
        let word = text.as_bytes();
        same(&rt, &whole(word), &whole_read, text);
        same(&rt, &signed_length(word), &units, text);
        same(&rt, &signed_percent(word), &hundredths, text);
        same(&rt, &number(word), &ten_thousandths, text);
        same(&rt, &is_decimal_with(b"px", word), &decimal, text);
    }
    same(&rt, &length(b"99.99px"), &Some(6399), "99.99px"); // cut from 6,399.36 units
    same(&rt, &percent(b"12.5%"), &Some(1250), "12.5%"); // hundredths
}

#[test]
fn names_begin_with_a_letter(rt: HostRuntime) {
    let rows = [
        ("top", true),
        ("a-1_B", true),
        ("", false),
        ("1a", false),
        ("-a", false),
        ("_a", false),
        ("a.b", false),
        ("abcdefghijklmnopqrstuvwxyz012345", true), // 32 bytes, the most
        ("abcdefghijklmnopqrstuvwxyz0123456", false),
    ];
    for (text, want) in rows {
        same(&rt, &is_name(text.as_bytes()), &want, text);
    }
}

#[test]
fn numbers_are_appended(rt: HostRuntime) -> Result<(), Fail> {
    let mut out = Vec::new(rt.alloc());
    push_decimal(&mut out, 0)?;
    push_decimal(&mut out, 340282366920938463463374607431768211455)?;
    same_bytes(
        &rt,
        out.as_slice(),
        b"0340282366920938463463374607431768211455".as_slice(),
        "0 and the greatest number",
    );
    Ok(())
}
