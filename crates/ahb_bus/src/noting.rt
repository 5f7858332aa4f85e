ghost use Rattle.std.specs.Prelude.{◌≡◌, ◌+◌, ◌*◌, ◌^◌, ◌<◌, ◌≤◌, not, is_err};
ghost use Rattle.bus_memory.specs.Answers.{syndrome_of_answer, syndrome_of_read, syndrome_of_fix};
ghost use Rattle.ahb_status.specs.Note.{hsize, note_with, first_of};
ghost use Rattle.lf_model.specs.Bus.Status.{size_noted};
ghost use Rattle.lf_model.specs.Names.{same_kind};
ghost use Rattle.lf_model.specs.declared.bus.TurnKind.TheVariants.{Store};
ghost use Rattle.ahb_bus.specs.Noting.{first_unclean_of, word_noted, line_noted, fix_noted, is_bad_fix};

use ahb_status::{Size, Status};
use bus_memory::{Fixed, Got};
use lf_model::bus::{Bad, Line, Transfer, TurnKind};
use ram_words::word_of;

/// The size in which a transfer accesses memory, as AHBSTAT has it.
fn size_of(asked: &Transfer) -> Size
    ensures { hsize result ≡ size_noted asked.now.len asked.now.kind }
{
    match asked.kind {
        TurnKind::Store | TurnKind::Atomic => Size::of_length(asked.len),
        _ => Size::Word,
    }
}

/// A store writes.
fn writes(asked: &Transfer) -> bool
    ensures { result ≡ same_kind asked.now.kind Store }
{
    match asked.kind {
        TurnKind::Store => true,
        _ => false,
    }
}

/// Notes that the transfer read the word at this address not clean.
fn note(status: &mut Status, asked: &Transfer, addr: u32, bad: bool)
    requires { asked.now.master < 9 }
    ensures { status.new ≡ first_of status.old (note_with addr (size_noted asked.now.len asked.now.kind) asked.now.master (same_kind asked.now.kind Store) (not bad)) }
{
    status.note(addr, size_of(asked), asked.master, writes(asked), !bad);
}

/// The lowest word of a line that is not clean.
fn first_unclean(line: &Line) -> Option<usize>
    ensures { result ≡ first_unclean_of 8 line.now.syn }
{
    for place in 0..8usize {
        if line.syn[place] != 0 {
            return Some(place);
        }
    }
    None
}

/// AHBSTAT after a transfer that read this line.
pub fn note_line(status: &mut Status, asked: &Transfer, line: &Line)
    requires master { asked.now.master < 9 }
    requires within { asked.now.addr + 32 ≤ 2 ^ 32 }
    ensures { status.new ≡ line_noted status.old asked.now line.now }
{
    if let Some(place) = first_unclean(line) {
        let addr = word_of(asked.addr) + 4 * place as u32;
        note(status, asked, addr, line.bad[place]);
    }
}

/// AHBSTAT after a transfer that read one word.
fn note_word(status: &mut Status, asked: &Transfer, syn: u8, bad: bool)
    requires { asked.now.master < 9 }
    ensures { status.new ≡ word_noted status.old asked.now syn bad }
{
    if syn != 0 {
        note(status, asked, word_of(asked.addr), bad);
    }
}

/// AHBSTAT after a store: one of whole words reads none.
pub fn note_store(status: &mut Status, asked: &Transfer, answer: &Result<u8, Bad>)
    requires { asked.now.master < 9 }
    ensures { status.new ≡ word_noted status.old asked.now (syndrome_of_answer answer.now) (is_err answer.now) }
{
    match answer {
        Ok(syn) => note_word(status, asked, *syn, false),
        Err(bad) => note_word(status, asked, bad.syn, true),
    }
}

/// AHBSTAT after an atomic.
pub fn note_atomic(status: &mut Status, asked: &Transfer, answer: &Result<Got, Bad>)
    requires { asked.now.master < 9 }
    ensures { status.new ≡ word_noted status.old asked.now (syndrome_of_read answer.now) (is_err answer.now) }
{
    match answer {
        Ok(got) => note_word(status, asked, got.syn, false),
        Err(bad) => note_word(status, asked, bad.syn, true),
    }
}

/// AHBSTAT after a fix: it is cleared if it names the word, and the word was not bad.
pub fn note_fix(status: &mut Status, asked: &Transfer, answer: Fixed)
    requires { asked.now.master < 9 }
    ensures { status.new ≡ fix_noted status.old asked.now (syndrome_of_fix answer) (is_bad_fix answer) }
{
    match answer {
        Fixed::Clean => {}
        Fixed::Corrected { syn, .. } => note_word(status, asked, syn, false),
        Fixed::Bad { syn } => return note_word(status, asked, syn, true),
    }
    status.cleared(asked.addr);
}
