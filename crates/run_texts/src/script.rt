ghost use Rattle.std.specs.Prelude.{◌≡◌, ◌≤◌, ℕ, List, All, IfOk, IfErr, Ok, Err, length, count_by};
ghost use Rattle.lf_model.specs.declared.flip.Flip.{Flip};
ghost use Rattle.run_texts.specs.declared.error.TextWhy.{TextWhy};
ghost use Rattle.run_texts.specs.Text.{rows, is_statement};
ghost use Rattle.run_texts.specs.FlipLine.{most_flips, IsOfMachine};
ghost use Rattle.run_texts.specs.Grammar.{IsFirstFault, IsCause};
ghost use Rattle.run_texts.specs.Keys.{IsOfTable};
ghost use Rattle.run_texts.specs.Script.{flip_lines, IsScript};
ghost use Rattle.run_texts.specs.Answer.{IsUnlessMemory};

use crate::error::TextErr;
use crate::flip_line::read_flip;
use crate::lines::Lines;
use lf_model::config::Config;
use lf_model::flip::Flips;
use std::alloc::Global;

/// Reads a script of bit flips, for the machine of a configuration, which is one that `read_config` gives.
///
/// A text is read where none of its lines is faulty. Else its first faulty line is told, with the first of its faults.
/// At most 65,536 flips are kept.
pub fn read_script(alloc: Global, text: &[u8], config: &Config) -> Result<Flips, TextErr>
    requires of_table { IsOfTable config.now }

    // Where the text is read, no line is faulty, and the flips are those that its lines spell.
    ensures read { IfOk result (IsScript config.now text.now) }

    // Else its first faulty line is told, or memory ran out.
    ensures refused { IfErr result (IsCause (flip_lines config.now) text.now) }

    // And the other way round.
    ensures script { (flips : List Flip) → IsScript config.now text.now flips → IsUnlessMemory TextErr.Memory (Ok flips) result }
    ensures fault { (line : ℕ) (why : TextWhy) → IsFirstFault (flip_lines config.now) text.now line why
        → IsUnlessMemory TextErr.Memory (Err (TextErr.At line why)) result }

    // Each line that is neither empty nor a comment spells one flip, of a bit that the machine has.
    ensures each { IfOk result (λ flips. length flips ≡ count_by is_statement (rows text.now)) }
    ensures few { IfOk result (λ flips. length flips ≤ most_flips) }
    ensures of_machine { IfOk result (All (IsOfMachine config.now)) }
{
    let mut flips = Flips::new(alloc);
    let mut number = 0;
    for line in Lines::new(text) {
        number += 1;
        match read_flip(line, flips.len(), config) {
            Ok(None) => {}
            Ok(Some(flip)) => flips.push(flip)?,
            Err(why) => return Err(TextErr::At { line: number, why }),
        }
    }
    Ok(flips)
}
