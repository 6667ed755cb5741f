ghost use Rattle.std.specs.Prelude.{◌≡◌, ◌∷◌, [], codes, string_bytes, IfOk};
ghost use Rattle.std.specs.Str.Lossy.{utf8_lossy};
ghost use Rattle.replay_c.specs.Answers.{Answers};
ghost use Rattle.run_replies.specs.Words.{asked};
ghost use Rattle.word_model.specs.Numbers.{decimal};

use crate::answering::answer;
use replay_run::Status;
use std::alloc::{AllocError, Global};
use word_model::push_decimal;

// Tells that memory ran out before the run.
fn lacks_memory(needed: &mut usize) -> Status
    ensures status { result ≡ Status.NoMemory }
    ensures told { needed.new ≡ 0 }
{
    *needed = 0;
    Status::NoMemory
}

// Returns a number in decimal as a word.
fn number_word(alloc: Global, number: u64) -> Result<String, AllocError>
    ensures { IfOk result (λ word. string_bytes word ≡ decimal number) }
{
    let mut digits = Vec::new(alloc);
    push_decimal(&mut digits, number as u128)?;
    // Digits are UTF-8, so this fails for no number.
    String::from_utf8(digits).map_err(|_| AllocError)
}

/// Does what one word asks for.
#[tactic(auto, using(crate::proofs::Answered::lacking))]
pub fn answer_word(
    alloc: Global,
    word: &str,
    source: &[u8],
    reply: &mut [u8],
    needed: &mut usize,
) -> Status
    ensures { Answers (asked (word.now ∷ [])) source.now result reply.old reply.new needed.new }
{
    match String::from_str(alloc, word) {
        Ok(word) => answer(alloc, &[word], source, reply, needed),
        Err(_) => lacks_memory(needed),
    }
}

/// Does what a word and a number ask for.
#[tactic(auto, using(crate::proofs::Answered::lacking))]
pub fn answer_number(
    alloc: Global,
    word: &str,
    number: u64,
    source: &[u8],
    reply: &mut [u8],
    needed: &mut usize,
) -> Status
    ensures { Answers (asked (word.now ∷ decimal number ∷ [])) source.now result reply.old reply.new needed.new }
{
    let Ok(word) = String::from_str(alloc, word) else {
        return lacks_memory(needed);
    };
    match number_word(alloc, number) {
        Ok(number) => answer(alloc, &[word, number], source, reply, needed),
        Err(_) => lacks_memory(needed),
    }
}

/// Does what `--hit` asks for with these words. What isn't UTF-8 in them stands as U+FFFD, which is in no number.
#[tactic(auto, using(crate::proofs::Answered::lacking))]
pub fn answer_hit(
    alloc: Global,
    tick: u64,
    left: &[u8],
    top: &[u8],
    source: &[u8],
    reply: &mut [u8],
    needed: &mut usize,
) -> Status
    ensures { Answers (asked (codes "--hit" ∷ decimal tick ∷ utf8_lossy left.now ∷ utf8_lossy top.now ∷ [])) source.now result reply.old reply.new needed.new }
{
    let Ok(word) = String::from_str(alloc, "--hit") else {
        return lacks_memory(needed);
    };
    let Ok(tick) = number_word(alloc, tick) else {
        return lacks_memory(needed);
    };
    let Ok(left) = String::from_utf8_lossy(alloc, left) else {
        return lacks_memory(needed);
    };
    match String::from_utf8_lossy(alloc, top) {
        Ok(top) => answer(alloc, &[word, tick, left, top], source, reply, needed),
        Err(_) => lacks_memory(needed),
    }
}
