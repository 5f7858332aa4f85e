ghost use Rattle.std.specs.Prelude.{◌≡◌, ℕ};
ghost use Rattle.std.specs.Option.{option_map};
ghost use Rattle.lf_model.specs.TransferLines.{kind_word, why_word};
ghost use Rattle.lf_model.specs.Promise.RegularTransfer.{causes_of};
ghost use Rattle.report_fields.specs.Reading.{word_at};
ghost use Rattle.report_lines.specs.TransferLine.{kinds, no_words, address_at, way_at, line_syndromes_at, word_syndrome_at, store_syndrome_at, snoop_at, syndromes_at, transfer_at};

use crate::syndromes::Syndromes;
use lf_model::bus::{Transfer, TurnKind, Why};
use report_fields::{any_word, byte, literal, long, number, own_number, word};

/// The greatest number of a field without a bound of its own.
const ANY: u32 = 0xFFFF_FFFF;

/// The word for what a transfer does.
fn kind(bytes: &[u8]) -> Option<(TurnKind, &[u8])>
    ensures read { option_map (λ x. (x.0, x.1.now)) result ≡ word_at kind_word kinds bytes.now }
{
    let kinds = [
        TurnKind::Fetch,
        TurnKind::Load,
        TurnKind::Store,
        TurnKind::Atomic,
        TurnKind::Snoop,
        TurnKind::Look,
        TurnKind::Fix,
    ];
    any_word(&kinds, bytes)
}

/// The cause of a fill.
fn cause_of_fill(bytes: &[u8]) -> Option<(Why, &[u8])>
    ensures read { option_map (λ x. (x.0, x.1.now)) result ≡ word_at why_word (causes_of TurnKind.Load) bytes.now }
{
    any_word(&[Why::Absent, Why::Word, Why::Tag, Why::Byte], bytes)
}

/// The cause of a drain.
fn cause_of_drain(bytes: &[u8]) -> Option<(Why, &[u8])>
    ensures read { option_map (λ x. (x.0, x.1.now)) result ≡ word_at why_word (causes_of TurnKind.Store) bytes.now }
{
    let causes = [
        Why::Full,
        Why::Miss,
        Why::Stbar,
        Why::Atomic,
        Why::Flush,
        Why::Window,
        Why::End,
        Why::Sched,
    ];
    any_word(&causes, bytes)
}

/// The cause of a transfer of a kind.
fn cause(kind: TurnKind, bytes: &[u8]) -> Option<(Why, &[u8])>
    ensures read { option_map (λ x. (x.0, x.1.now)) result ≡ word_at why_word (causes_of kind) bytes.now }
{
    match kind {
        TurnKind::Fetch | TurnKind::Load => cause_of_fill(bytes),
        TurnKind::Store => cause_of_drain(bytes),
        TurnKind::Snoop => any_word(&[Why::Window], bytes),
        TurnKind::Atomic | TurnKind::Look | TurnKind::Fix => any_word(&[Why::None], bytes),
    }
}

/// The address of a transfer, which is 0 for a snoop.
#[tactic(auto, unfolding(crate::specs::TransferLine::address_at))]
fn address(kind: TurnKind, bytes: &[u8]) -> Option<(u32, &[u8])>
    ensures read { option_map (λ x. (x.0, x.1.now)) result ≡ address_at kind bytes.now }
{
    let (addr, rest) = word(b' ', bytes)?;
    if matches!(kind, TurnKind::Snoop) && addr != 0 {
        return None;
    }
    Some((addr, rest))
}

/// The way of a fill, which has at most 255.
fn filled(bytes: &[u8]) -> Option<(u8, &[u8])>
    ensures read { option_map (λ x. (x.0, x.1.now)) result ≡ way_at TurnKind.Load bytes.now }
{
    let (way, rest) = number(b' ', 255, bytes)?;
    Some((way as u8, rest))
}

/// The way of a fill, or a dash for any other transfer.
fn way(kind: TurnKind, bytes: &[u8]) -> Option<(u8, &[u8])>
    ensures read { option_map (λ x. (x.0, x.1.now)) result ≡ way_at kind bytes.now }
{
    match kind {
        TurnKind::Fetch | TurnKind::Load => filled(bytes),
        TurnKind::Store | TurnKind::Atomic | TurnKind::Snoop | TurnKind::Look | TurnKind::Fix => {
            let rest = literal(b"- ", bytes)?;
            Some((0, rest))
        }
    }
}

/// The syndromes of a line of eight words.
#[tactic(auto, unfolding(crate::specs::TransferLine::line_syndromes_at))]
fn line_syndromes(bytes: &[u8]) -> Option<(Syndromes, &[u8])>
    ensures read { option_map (λ x. (x.0, x.1.now)) result ≡ line_syndromes_at bytes.now }
{
    let (syn, rest) = long(b'\n', bytes)?;
    Some((
        Syndromes {
            syn,
            words: 8,
            len: 0,
        },
        rest,
    ))
}

/// The syndrome of one word.
#[tactic(auto, unfolding(crate::specs::TransferLine::word_syndrome_at))]
fn word_syndrome(bytes: &[u8]) -> Option<(Syndromes, &[u8])>
    ensures read { option_map (λ x. (x.0, x.1.now)) result ≡ word_syndrome_at bytes.now }
{
    let (syn, rest) = byte(b'\n', bytes)?;
    let syn = u64::from(syn) << 56;
    Some((
        Syndromes {
            syn,
            words: 1,
            len: 0,
        },
        rest,
    ))
}

/// No words read, for a store of this length if it has dashes.
fn no_words(len: u8) -> Syndromes
    ensures none { result ≡ no_words len }
{
    Syndromes {
        syn: 0,
        words: 0,
        len,
    }
}

/// The dashes of a store, or the syndrome of the word that a part store read.
#[tactic(auto, unfolding(crate::specs::TransferLine::store_syndrome_at))]
fn store_syndrome(bytes: &[u8]) -> Option<(Syndromes, &[u8])>
    ensures read { option_map (λ x. (x.0, x.1.now)) result ≡ store_syndrome_at bytes.now }
{
    if let Some(rest) = literal(b"----\n", bytes) {
        return Some((no_words(8), rest));
    }
    if let Some(rest) = literal(b"--\n", bytes) {
        return Some((no_words(0), rest));
    }
    word_syndrome(bytes)
}

/// The dash of a snoop.
#[tactic(auto, unfolding(crate::specs::TransferLine::snoop_at))]
fn snoop(bytes: &[u8]) -> Option<(Syndromes, &[u8])>
    ensures read { option_map (λ x. (x.0, x.1.now)) result ≡ snoop_at bytes.now }
{
    let rest = literal(b"-\n", bytes)?;
    Some((no_words(0), rest))
}

/// The last field of a transfer of a kind.
fn syndromes(kind: TurnKind, bytes: &[u8]) -> Option<(Syndromes, &[u8])>
    ensures read { option_map (λ x. (x.0, x.1.now)) result ≡ syndromes_at kind bytes.now }
{
    match kind {
        TurnKind::Fetch | TurnKind::Load | TurnKind::Look => line_syndromes(bytes),
        TurnKind::Atomic | TurnKind::Fix => word_syndrome(bytes),
        TurnKind::Store => store_syndrome(bytes),
        TurnKind::Snoop => snoop(bytes),
    }
}

/// The line of the transfer of this turn.
#[tactic(auto, unfolding(crate::specs::TransferLine::transfer_at))]
pub fn transfer_line(turn: u32, bytes: &[u8]) -> Option<(Transfer, &[u8])>
    ensures read { option_map (λ x. (x.0, x.1.now)) result ≡ transfer_at turn bytes.now }
{
    let rest = literal(b"t ", bytes)?;
    let rest = own_number(b' ', turn, rest)?;
    let (master, rest) = number(b' ', ANY, rest)?;
    let (step, rest) = number(b' ', ANY, rest)?;
    let (kind, rest) = kind(rest)?;
    let (why, rest) = cause(kind, rest)?;
    let (addr, rest) = address(kind, rest)?;
    let (way, rest) = way(kind, rest)?;
    let (shown, rest) = syndromes(kind, rest)?;
    let transfer = Transfer {
        syn: shown.syn,
        turn,
        master,
        step,
        addr,
        kind,
        why,
        way,
        words: shown.words,
        len: shown.len,
    };
    Some((transfer, rest))
}
