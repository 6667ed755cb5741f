//! The examples of the crates' README files, each the body of a function here, as `tools/check-documents` sees.

use media_queries::Query;
use px_units::{Length, Percent, Px, Rect, Size, meet, resolve, shift};
use script_generator::make;
use script_lexer::Lexer;
use script_print::print;
use script_syntax::parse;
use std::test::Fail;
use style_values::{Style, StyleFault};
use text_io::{MemorySink, MemorySource, ThrowKind, read_all, write_all};
use text_lines::GatherSink;
use trace_runs::{Flow, write_one, write_throw};
use trace_summary::Summary;
use trace_text::{TraceLine, read_line, write_line};
use word_model::{length, push_decimal};

#[test]
fn a_length_and_a_number(rt: HostRuntime) -> Result<(), Fail> {
    assert_eq!(rt; length(b"0.99px"), Some(63)); // 63/64 pixel
    assert_eq!(rt; length(b"1000000.01px"), None); // the bound is on the number as written
    let mut out = Vec::new(rt.alloc());
    push_decimal(&mut out, 640)?;
    assert_eq!(rt; out.as_slice(), b"640".as_slice());
    Ok(())
}

#[test]
fn half_a_width_and_an_edge_in_common(rt: HostRuntime) {
    let half = resolve(Length::Percent(Percent(5000)), 51200);
    assert_eq!(rt; half, Some(25600)); // half of 800 pixels
    let left = Rect {
        left: 0,
        top: 0,
        right: 640,
        bottom: 640,
    };
    let common = meet(left, shift(left, 640, 0)).map(|common| (common.left, common.right));
    assert_eq!(rt; common, Some((640, 640))); // they share an edge
}

#[test]
fn a_text_is_read_and_written(rt: HostRuntime) -> Result<(), Fail> {
    let alloc = rt.alloc();
    // one byte a call, and no call fails
    let mut source = MemorySource::new(b"tick 16\n".to_vec(alloc)?, 1, Vec::new(alloc));
    let text = read_all(alloc, &mut source, 4096)?;
    // room for 64 bytes, of which a call takes at most 4
    let mut sink = MemorySink::new(alloc, 64, 4, Vec::new(alloc))?;
    write_all(&mut sink, text.as_slice())?;
    assert_eq!(rt; sink.taken(), b"tick 16\n".as_slice());
    Ok(())
}

#[test]
fn a_style_is_set(rt: HostRuntime) -> Result<(), Fail> {
    let mut style = Style::new();
    style.set(b"padding", b"1.5px")?;
    assert!(rt; style.padding_left == Length::Px(Px(96))); // and so are the other sides
    assert_eq!(rt; style.set(b"border-top", b"50%"), Err(StyleFault::BadValue));
    assert_eq!(rt; style.border_top.0, 0); // as it was
    Ok(())
}

#[test]
fn a_query_meets_a_viewport(rt: HostRuntime) -> Result<(), Fail> {
    let query = Query::parse(
        rt.alloc(),
        b"(min-width: 600px) and (orientation: portrait)",
    )?;
    let viewport = Size {
        width: 51200,
        height: 64000,
    };
    assert!(rt; query.matches(viewport)); // 800 by 1,000 pixels
    Ok(())
}

#[test]
fn a_script_is_parsed(rt: HostRuntime) -> Result<(), Fail> {
    let alloc = rt.alloc();
    let mut lexer = Lexer::new(alloc, 4096);
    lexer.feed(b"script 1\nblock page")?;
    lexer.feed(b" top\nappend top page\n")?;
    let text = lexer.finish()?;
    let script = parse(alloc, &text)?;
    assert_eq!(rt; script.items().len(), 2); // `block` and `append`
    Ok(())
}

#[test]
fn a_script_is_made_and_printed(rt: HostRuntime) -> Result<(), Fail> {
    let script = make(rt.alloc(), 499)?; // 500 cards, with a root margin of 200 pixels
    assert_eq!(rt; script.items().len(), 4515); // a handler, and the commands outside it
    let text = print(rt.alloc(), &script)?;
    assert_eq!(rt; text.len(), 81_629);
    Ok(())
}

#[test]
fn a_script_is_printed_in_its_one_form(rt: HostRuntime) -> Result<(), Fail> {
    let alloc = rt.alloc();
    let mut lexer = Lexer::new(alloc, 4096);
    lexer.feed(b"script 1\n\n  viewport 800.50px   600px # size")?;
    let script = parse(alloc, &lexer.finish()?)?;
    let text = print(alloc, &script)?;
    assert_eq!(rt;
        text.as_slice(),
        b"script 1\n\nviewport 800.5px 600px\n".as_slice()
    );
    Ok(())
}

#[test]
fn a_line_is_written_and_read_back(rt: HostRuntime) -> Result<(), Fail> {
    let mut out = Vec::new(rt.alloc());
    write_line(rt.alloc(), &TraceLine::Tick(16), &mut out)?;
    assert_eq!(rt; out.as_slice(), b"tick 16\n".as_slice());
    assert!(rt; read_line(out.as_slice()) == Ok(TraceLine::Tick(16)));
    Ok(())
}

#[test]
fn an_exception_is_written(rt: HostRuntime) -> Result<(), Fail> {
    let alloc = rt.alloc();
    let mut sink = MemorySink::new(alloc, 64, 4, Vec::new(alloc))?;
    write_one(alloc, &TraceLine::Tick(16), &mut sink)?;
    let flow = write_throw(alloc, 7, ThrowKind::NotFoundError, &mut sink)?;
    assert_eq!(rt; flow, Flow::Thrown);
    assert_eq!(rt;
        sink.taken(),
        b"tick 16\nthrow 7 NotFoundError\n".as_slice()
    );
    Ok(())
}

#[test]
fn a_trace_is_counted(rt: HostRuntime) -> Result<(), Fail> {
    let mut sink = GatherSink::new(rt.alloc());
    write_all(&mut sink, b"tick 0\nsay tick\n")?;
    let summary = Summary::of(sink.taken())?;
    assert_eq!(rt; (summary.tick, summary.say), (1, 1)); // a word that is said is no line
    Ok(())
}
