ghost use Rattle.std.specs.Prelude.{◌≡◌, ◌*◌, ◌^◌, ◌+◌, fold, length};
ghost use Rattle.lf_model.specs.Bus.Words.{words_read};
ghost use Rattle.replay_words.specs.Reading.{read_words};

use lf_model::bus::{Transfer, TurnKind};

/// Which words a transfer reads.
#[derive(Clone, Copy, Debug)]
pub(crate) enum Read {
    Nothing,
    /// The word at an address.
    Word(u32),
    /// The eight words of a line, from its first on.
    Line(u32),
}

/// Which words a transfer reads. A store of words reads none.
pub(crate) fn read_of(asked: &Transfer) -> Read
    ensures { read_words result ≡ words_read asked.now }
{
    if asked.addr == 0 {
        return Read::Nothing;
    }
    let word = asked.addr - asked.addr % 4;
    match asked.kind {
        TurnKind::Fetch | TurnKind::Load | TurnKind::Look => Read::Line(asked.addr),
        TurnKind::Store => {
            if asked.len < 4 {
                Read::Word(word)
            } else {
                Read::Nothing
            }
        }
        TurnKind::Atomic => Read::Word(word),
        TurnKind::Snoop => Read::Nothing,
        TurnKind::Fix => Read::Word(asked.addr),
    }
}

/// A transfer that read a line, with these syndromes.
pub(crate) fn with_line(asked: Transfer, syndromes: [u8; 8]) -> Transfer
    ensures { result ≡ record asked { syn = fold (λ number syndrome. number * 2 ^ 8 + syndrome) 0 syndromes; words = 8 } }
{
    Transfer {
        syn: u64::from_be_bytes(syndromes),
        words: 8,
        ..asked
    }
}

/// A transfer that read one word, with this syndrome.
pub(crate) fn with_word(asked: Transfer, syndrome: u8) -> Transfer
    ensures { result ≡ record asked { syn = syndrome * 2 ^ 56; words = 1 } }
{
    Transfer {
        syn: u64::from(syndrome) << 56,
        words: 1,
        ..asked
    }
}

/// A transfer that read no word.
pub(crate) fn with_none(asked: Transfer) -> Transfer
    ensures { result ≡ record asked { syn = 0; words = 0 } }
{
    Transfer {
        syn: 0,
        words: 0,
        ..asked
    }
}
