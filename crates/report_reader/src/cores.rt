ghost use Rattle.std.specs.Prelude.{◌≡◌, ℕ, List};
ghost use Rattle.report_fields.specs.Parts.{Gives};
ghost use Rattle.report_lines.specs.CoreLines.{core_at};

use crate::lines::Item;
use lf_model::listed::Listed;
use lf_model::trace::CoreResult;
use report_fields::Unread;
use report_lines::{control_line, end_line, fits, output_line, parity_line, register_lines};
use std::alloc::Global;

/// The eight lines of core `k` of `cores`.
#[tactic(auto, unfolding(report_lines::specs::CoreLines::core_at))]
fn core(alloc: Global, cores: u32, k: u32, bytes: &[u8]) -> Result<(CoreResult, &[u8]), Unread>
    ensures read { Gives (λ x. (x.0, x.1.now)) result (core_at cores k bytes.now) }
{
    let (ending, rest) = fits(bytes, end_line(cores, k, bytes))?;
    let (out, rest) = output_line(alloc, k, rest)?;
    let (regs, rest) = register_lines(alloc, k, rest)?;
    let (control, rest) = fits(rest, control_line(k, rest))?;
    let (parity, rest) = fits(rest, parity_line(k, rest))?;
    let core = CoreResult {
        end: ending.end,
        n: ending.n,
        steps: ending.steps,
        out: Listed::from_vec(out),
        regs: Listed::from_vec(regs),
        psr: control.psr,
        wim: control.wim,
        tbr: control.tbr,
        y: control.y,
        pc: control.pc,
        npc: control.npc,
        parity,
    };
    Ok((core, rest))
}

impl Item for CoreResult {
    ghost use Rattle.report_lines.specs.CoreLines.{core_at};

    ghost at = { core_at };

    fn read(alloc: Global, count: u32, i: u32, bytes: &[u8]) -> Result<(Self, &[u8]), Unread> {
        core(alloc, count, i, bytes)
    }
}
