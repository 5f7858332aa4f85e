ghost use Rattle.std.specs.Prelude.{◌≡◌, ◌+◌, ◌*◌, ◌/◌, ◌%◌, ◌^◌, ◌<◌, ◌∷◌, [], ◌&&◌, not, find};
ghost use Rattle.std.specs.Int.{from_bool};
ghost use Rattle.core_parts.specs.Fills.{is_bad_in, lowest_bad, IsAnswered};
ghost use Rattle.lf_model.specs.Course.Turned.{valid_by};
ghost use Rattle.lf_model.specs.Start.{is_text_word};
ghost use Rattle.parity_slots.specs.SlotState.{IsAccess};

use crate::site::Site;
use lf_model::bus::{Bad, Line};

/// The valid bits of words below word `j`, and that of word `j`.
fn with_word(valid: u8, j: usize, is_valid: bool) -> u8
    requires word { j < 8 }
    requires below { valid < 2 ^ j }
    ensures bits { result ≡ valid + from_bool is_valid * 2 ^ j }
    ensures below { result < 2 ^ (j + 1) }
{
    if is_valid { valid + (1 << j) } else { valid }
}

/// The valid bits of a line of the data cache: bit `j` for a word that memory read clean or corrected.
pub fn good_words(got: &Line) -> u8
    ensures { result ≡ valid_by (λ j. not (is_bad_in got.now j)) }
{
    let mut valid = 0;
    for j in 0..8 {
        valid = with_word(valid, j, !got.bad[j]);
    }
    valid
}

/// Word `j` of the line at an address, a multiple of 32, is good, and a text word.
fn is_good_text(got: &Line, j: usize, line: u32, site: &Site) -> bool
    requires word { j < 8 }
    requires line { line % 32 ≡ 0 }
    ensures { result ≡ (not (is_bad_in got.now j) && is_text_word site.now.image.text (line + 4 * j)) }
{
    !got.bad[j] && site.is_text_word(line + 4 * j as u32)
}

/// The same of the fetch cache, whose valid words are text words too: of the line at an address, a multiple of 32.
pub fn good_text_words(got: &Line, line: u32, site: &Site) -> u8
    requires { line % 32 ≡ 0 }
    ensures { result ≡ valid_by (λ j. not (is_bad_in got.now j) && is_text_word site.now.image.text (line + 4 * j)) }
{
    let mut valid = 0;
    for j in 0..8 {
        valid = with_word(valid, j, is_good_text(got, j, line, site));
    }
    valid
}

/// The word of a line at an address is good.
///
/// # Errors
///
/// It is bad.
fn good_word(got: &Line, addr: u32) -> Result<(), Bad>
    ensures { IsAnswered got.now addr (find (is_bad_in got.now) (addr / 4 % 8 ∷ [])) result }
{
    let j = (addr / 4 % 8) as usize;
    if got.bad[j] {
        return Err(Bad {
            addr: addr - addr % 4,
            syn: got.syn[j],
        });
    }
    Ok(())
}

/// The one or two words of a line are good that an access of 1, 2, 4 or 8 bytes wants, at a multiple of their number.
///
/// # Errors
///
/// The lowest of them that is bad.
pub fn good_wanted(got: &Line, addr: u32, len: u8) -> Result<(), Bad>
    requires access { IsAccess addr len }
    ensures answer { IsAnswered got.now addr (lowest_bad got.now addr len) result }
{
    good_word(got, addr)?;
    if len == 8 {
        good_word(got, addr + 4)?;
    }
    Ok(())
}
