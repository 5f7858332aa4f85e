use crate::lines::Item;
use lf_model::bus::Transfer;
use lf_model::trace::{Fate, Op, Word2};
use report_fields::Unread;
use report_lines::{fate, fits, operation, transfer_line, watched};
use std::alloc::Global;

impl Item for Transfer {
    ghost use Rattle.report_fields.specs.Parts.{line_at};
    ghost use Rattle.report_lines.specs.TransferLine.{transfer_at};

    ghost at = { λ count i. line_at (transfer_at i) };

    fn read(_alloc: Global, _count: u32, i: u32, bytes: &[u8]) -> Result<(Self, &[u8]), Unread> {
        fits(bytes, transfer_line(i, bytes))
    }
}

impl Item for Op {
    ghost use Rattle.report_fields.specs.Parts.{line_at};
    ghost use Rattle.report_lines.specs.OutcomeLines.{operation_at};

    ghost at = { λ count i. line_at operation_at };

    fn read(_alloc: Global, _count: u32, _i: u32, bytes: &[u8]) -> Result<(Self, &[u8]), Unread> {
        fits(bytes, operation(bytes))
    }
}

impl Item for Fate {
    ghost use Rattle.report_fields.specs.Parts.{line_at};
    ghost use Rattle.report_lines.specs.OutcomeLines.{fate_at};

    ghost at = { λ count i. line_at (fate_at i) };

    fn read(_alloc: Global, _count: u32, i: u32, bytes: &[u8]) -> Result<(Self, &[u8]), Unread> {
        fits(bytes, fate(i, bytes))
    }
}

impl Item for Word2 {
    ghost use Rattle.report_fields.specs.Parts.{line_at};
    ghost use Rattle.report_lines.specs.OutcomeLines.{watched_at};

    ghost at = { λ count i. line_at watched_at };

    fn read(_alloc: Global, _count: u32, _i: u32, bytes: &[u8]) -> Result<(Self, &[u8]), Unread> {
        fits(bytes, watched(bytes))
    }
}
