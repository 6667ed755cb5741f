//! The reply with the certificates of a script.

ghost use Rattle.std.specs.Prelude.{◌≡◌, ◌++◌, IfOk, OnOk};
ghost use Rattle.run_replies.specs.Answers.{Tells};
ghost use Rattle.run_replies.specs.Replies.{done_with};
ghost use Rattle.run_replies.specs.Certificates.{certificate_text, lint_text};

use crate::lines::write_lines;
use crate::status::Status;
use loop_lint::{Law, blame};
use script_syntax::Script;
use std::alloc::{AllocError, Global};
use text_io::Sink;
use word_model::push_decimal;

// Appends the line of one certificate: that it is given, or which line of the script prevents it.
fn push_certificate(
    text: &mut Vec<u8>,
    given: &[u8],
    withheld: &[u8],
    line: Option<u32>,
) -> Result<(), AllocError>
    ensures { OnOk result (text.new.items ≡ text.old.items ++ certificate_text given.now withheld.now line) }
{
    match line {
        None => text.extend_from_slice(given)?,
        Some(line) => {
            text.extend_from_slice(withheld)?;
            push_decimal(text, line as u128)?;
        }
    }
    text.push(b'\n')?;
    Ok(())
}

fn certificates_of(alloc: Global, script: &Script) -> Result<Vec<u8>, AllocError>
    ensures { IfOk result (λ text. text.items ≡ lint_text script.now.items) }
{
    let mut text = Vec::new(alloc);
    push_certificate(
        &mut text,
        b"steady",
        b"unsteady ",
        blame(script, Law::Steady),
    )?;
    push_certificate(&mut text, b"quiet", b"unquiet ", blame(script, Law::Quiet))?;
    Ok(text)
}

/// Writes the certificates of a script, a line for each.
///
/// Returns `NoMemory` if an allocation fails, with nothing written; or `WriteFault`, only where the sink's fault count rose in this call, with
/// a prefix of the text written. Otherwise `Done`.
pub fn write_certificates<K: Sink>(alloc: Global, script: &Script, sink: &mut K) -> Status
    ensures tells { Tells result (done_with (lint_text script.now.items)) (K.taken sink.old) (K.taken sink.new) (K.faults sink.old) (K.faults sink.new) }
    ensures memory { result ≡ Status.NoMemory → sink.new ≡ sink.old }
{
    match certificates_of(alloc, script) {
        Ok(text) => write_lines(&text, sink),
        Err(_) => Status::NoMemory,
    }
}
