ghost use Rattle.std.specs.Prelude.{◌≡◌, ◌≤◌, length};
ghost use Rattle.tso_audit.specs.declared.verdict.Verdict.TheVariants.{No};
ghost use Rattle.leon_main.specs.Verdicts.{rule_word, kind_word, number_of, verdict_line, verdict_status};

use crate::fault::piece_of;
use lf_model::place::Place;
use report_text::fields::{LINE_FEED, Piece, put, put_number};
use tso_audit::{Rule, Verdict};

/// The word that names a rule in a line.
fn rule_word(rule: Rule) -> &'static [u8]
    ensures word { result.now ≡ rule_word rule }
    ensures short { length result.now ≤ 20 }
{
    match rule {
        Rule::Once => b"Once",
        Rule::LoadOp => b"LoadOp",
        Rule::StoreStore => b"StoreStore",
        Rule::Thread => b"Thread",
        Rule::Result => b"Result",
        Rule::Value => b"Value",
        Rule::Ledger => b"Ledger",
    }
}

/// The word that names the kind of a place in a line.
fn kind_word(place: Place) -> &'static [u8]
    ensures word { result.now ≡ kind_word place }
    ensures short { length result.now ≤ 20 }
{
    match place {
        Place::Core(_) => b"core",
        Place::Order(_) => b"order",
        Place::Transfer(_) => b"transfer",
        Place::Flip(_) => b"flip",
        Place::Final => b"final",
    }
}

/// The number of a place among those of its kind.
fn number_of(place: Place) -> u32
    ensures { result ≡ number_of place }
{
    match place {
        Place::Core(number)
        | Place::Order(number)
        | Place::Transfer(number)
        | Place::Flip(number) => number,
        Place::Final => 0,
    }
}

/// The line of a rule that fails, and of the first place at which it does.
#[tactic(auto, unfolding(crate::specs::Verdicts::verdict_line))]
fn no_line(rule: Rule, place: Place) -> Piece
    ensures { result.items ≡ verdict_line (No rule place) }
{
    let mut piece = piece_of(b"audit no ");
    put(&mut piece, rule_word(rule));
    put(&mut piece, b" ");
    put(&mut piece, kind_word(place));
    put(&mut piece, b" ");
    put_number(&mut piece, LINE_FEED, u64::from(number_of(place)));
    piece
}

/// The line that tells a verdict.
#[tactic(auto, unfolding(crate::specs::Verdicts::verdict_line))]
pub fn verdict_line(verdict: Verdict) -> Piece
    ensures { result.items ≡ verdict_line verdict }
{
    match verdict {
        Verdict::Yes => piece_of(b"audit yes\n"),
        Verdict::No(rule, place) => no_line(rule, place),
    }
}

/// The exit status of a verdict.
pub fn verdict_status(verdict: Verdict) -> u8
    ensures { result ≡ verdict_status verdict }
{
    match verdict {
        Verdict::Yes => 0,
        Verdict::No(..) => 1,
    }
}
