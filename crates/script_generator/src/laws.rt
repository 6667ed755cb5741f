//! Laws of generated scripts, each stated as the contract of a function that does nothing.

ghost use Rattle.std.specs.Prelude.{◌≡◌, ◌+◌, ℕ, Ok};
ghost use Rattle.script_model.specs.Generator.{generated};
ghost use Rattle.script_model.specs.Reading.{reading};
ghost use Rattle.script_model.specs.Syntax.{Script};
ghost use Rattle.script_text.specs.ScriptText.{printed};

use script_text::laws::printed_script_reads_back;

/// The text of every number is a script, within every limit, and is what that script prints as.
pub fn generated_text_is_a_script()
    ensures { (number : ℕ) → (script : Script) × (reading (generated number) ≡ Ok script) × (printed script ≡ generated number) }
{
    // the law on which this one rests
    printed_script_reads_back();
}

/// The scripts repeat every 10,000 numbers.
pub fn scripts_come_again()
    ensures { (number : ℕ) → generated (number + 10000) ≡ generated number }
{}
