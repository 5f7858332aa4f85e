ghost use Rattle.std.specs.Prelude.{◌≡◌, ◌%◌, ◌-◌, ◌≤◌, ◌<◌, ◌&&◌, ℕ};
ghost use Rattle.lf_model.specs.Bus.Words.{touches_word};
ghost use Rattle.lf_model.specs.Course.Syndromes.{has_address};
ghost use Rattle.replay_words.specs.Touching.{is_in_span};

use lf_model::bus::{Transfer, TurnKind};

/// Words that follow each other, from a first address on.
#[derive(Clone, Copy, Debug)]
pub(crate) struct Span {
    pub(crate) first: u32,
    pub(crate) count: u32,
}

/// How many words a transfer of a kind touches, from that in which its address lies on.
fn words_touched(kind: TurnKind, addr: u32, len: u8) -> u32
    ensures touches { (word : ℕ) → word % 4 ≡ 0
        → touches_word addr len word kind ≡ is_in_span (record { first = addr - addr % 4; count = result }) word }
    ensures few { result ≤ 65 }
{
    match kind {
        TurnKind::Store | TurnKind::Atomic => (addr % 4 + u32::from(len) + 3) / 4,
        TurnKind::Fix => u32::from(addr % 4 == 0),
        TurnKind::Fetch | TurnKind::Load | TurnKind::Snoop | TurnKind::Look => 0,
    }
}

/// The words that a transfer touches, to write them unless they are bad.
pub(crate) fn touched(made: &Transfer) -> Span
    ensures touches { (word : ℕ) → word % 4 ≡ 0
        → (has_address made.now && touches_word made.now.addr made.now.len word made.now.kind) ≡ is_in_span result word }
    ensures aligned { result.first % 4 ≡ 0 }
    ensures few { result.count ≤ 65 }
{
    if made.addr == 0 {
        return Span { first: 0, count: 0 };
    }
    Span {
        first: made.addr - made.addr % 4,
        count: words_touched(made.kind, made.addr, made.len),
    }
}
