//! The tests of the crates of texts, from `word_model` to `page_stream`, a module for each, over what they offer in public.
#![tactic(auto)]

#[cfg(test)]
mod media_queries_tests;
#[cfg(test)]
mod page_stream_tests;
#[cfg(test)]
mod px_units_tests;
#[cfg(test)]
mod readme_examples;
#[cfg(test)]
mod same;
#[cfg(test)]
mod script_generator_tests;
#[cfg(test)]
mod script_lexer_tests;
#[cfg(test)]
mod script_print_tests;
#[cfg(test)]
mod script_syntax_tests;
#[cfg(test)]
mod scripts;
#[cfg(test)]
mod streams;
#[cfg(test)]
mod style_values_tests;
#[cfg(test)]
mod text_io_tests;
#[cfg(test)]
mod trace_judge_tests;
#[cfg(test)]
mod trace_runs_tests;
#[cfg(test)]
mod trace_summary_tests;
#[cfg(test)]
mod trace_text_tests;
#[cfg(test)]
mod traces;
#[cfg(test)]
mod word_model_tests;
