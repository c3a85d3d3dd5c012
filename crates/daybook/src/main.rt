//! A daybook answered: one entry a line on standard input, each with its answer on standard output.
#![tactic(auto)]

ghost use Rattle.std.specs.Prelude.{◌≡◌, ◌<◌, ◌↔◌, IfSome, IsSome, IsTrue, codes, length, string_bytes};
ghost use Rattle.std.specs.List.{All};

mod usage;

use anyhow::Result;
use desk::answer_input;
use std::{env, io};

/// Whether the words behind the program's name ask for answers in words too, or nothing where one of them is not `--explain`.
fn explains(words: &[String]) -> Option<bool>
    ensures no_other_word_is_known { IsSome result ↔ All (λ word. string_bytes word ≡ codes "--explain") words.now }
    ensures asks_where_there_is_a_word { IfSome result (λ explain. IsTrue explain ↔ (0 < length words.now)) }
{
    if !words.iter().all(|word| word.as_str() == "--explain") {
        return None;
    }
    Some(!words.is_empty())
}

fn main(rt: HostRuntime) -> Result<()> {
    let words: Vec<String> = env::args(&rt)?.skip(1).collect(rt.alloc())?;
    match explains(&words) {
        Some(explain) => Ok(answer_input(rt.alloc(), rt.stdin(), io::writer(&rt), explain)?),
        None => Ok(usage::show(&rt)?),
    }
}
