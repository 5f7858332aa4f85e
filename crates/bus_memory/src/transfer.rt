ghost use Rattle.std.specs.Prelude.{◌≡◌, ◌+◌, ◌*◌, ◌^◌, ◌<◌, [], ◌∷◌, ◌++◌, length, fold, vec_len, vec_capacity};
ghost use Rattle.coded_words.specs.Words.{ended};
ghost use Rattle.bus_memory.specs.Answers.{syndrome_of_answer, syndrome_of_read, syndrome_of_fix};

use ft_memory::Memory;
use lf_model::bus::{Bad, Line, Transfer};
use ram_words::{Fixed, Got};

/// The syndromes of a line as one number, the first in the top byte.
fn packed_line(line: &Line) -> u64
    ensures { result ≡ fold (λ number syndrome. number * 2 ^ 8 + syndrome) 0 line.now.syn }
{
    u64::from_be_bytes(line.syn)
}

/// A transfer that read these words of a line.
pub fn with_line(asked: Transfer, line: &Line) -> Transfer
    ensures { result ≡ record asked { syn = fold (λ number syndrome. number * 2 ^ 8 + syndrome) 0 line.now.syn; words = 8 } }
{
    Transfer {
        syn: packed_line(line),
        words: 8,
        ..asked
    }
}

/// A transfer that read one word, with this syndrome.
pub fn with_word(asked: Transfer, syn: u8) -> Transfer
    ensures { result ≡ record asked { syn = syn * 2 ^ 56; words = 1 } }
{
    Transfer {
        syn: u64::from(syn) << 56,
        words: 1,
        ..asked
    }
}

/// A transfer that read no word.
pub fn with_none(asked: Transfer) -> Transfer
    ensures { result ≡ record asked { syn = 0; words = 0 } }
{
    Transfer {
        syn: 0,
        words: 0,
        ..asked
    }
}

/// The syndrome that was read with this answer.
pub fn syndrome_of(answer: &Result<u8, Bad>) -> u8
    ensures { result ≡ syndrome_of_answer answer.now }
{
    match answer {
        Ok(syn) => *syn,
        Err(bad) => bad.syn,
    }
}

/// A turn ends with its transfer, for which room was reserved.
pub fn end_turn(memory: &mut Memory, transfers: &mut Vec<Transfer>, made: Transfer)
    requires room { vec_len transfers.old < vec_capacity transfers.old }
    requires past { length memory.old.past + 1 < 2 ^ 32 }
    ensures memory { memory.new ≡ ended memory.old }
    ensures transfers { transfers.new.items ≡ transfers.old.items ++ made ∷ [] }
    ensures reserved { vec_capacity transfers.new ≡ vec_capacity transfers.old }
{
    memory.end_turn();
    transfers.push_reserved(made);
}

/// The syndrome that an atomic read with this answer.
pub fn syndrome_read(answer: &Result<Got, Bad>) -> u8
    ensures { result ≡ syndrome_of_read answer.now }
{
    match answer {
        Ok(got) => got.syn,
        Err(bad) => bad.syn,
    }
}

/// The syndrome that a fix met.
pub fn syndrome_met(fixed: Fixed) -> u8
    ensures { result ≡ syndrome_of_fix fixed }
{
    match fixed {
        Fixed::Clean => 0,
        Fixed::Corrected { syn, .. } => syn,
        Fixed::Bad { syn } => syn,
    }
}
