//! The register windows of SPARC V8: the cell of each register, and the windows that SAVE and RESTORE enter.
//!
//! There are 8 windows. Their registers and the globals have 136 cells, of which each two adjacent windows share 8.
//! No call takes memory.
#![tactic(auto)]

ghost use Rattle.std.specs.Prelude.{◌≡◌, ◌+◌, ◌-◌, ◌<◌, ◌↔◌, ℕ, false, Err, IsTrue, IfOk, OnOk, IsOkUnless, is_err};
ghost use Rattle.lf_model.specs.State.{cell};
ghost use Rattle.v8_windows.specs.Windows.{IsGlobal, IsOut, IsLocal, IsIn};
ghost use Rattle.lf_model.specs.Windows.{window_after_save, window_after_restore, is_invalid};
ghost use Rattle.v8_windows.specs.Windows.{IsInvalid, IsValid};

/// The number of windows.
const WINDOWS: u8 = 8;

/// The cells of registers 0 to 31 in each window. The globals come first, and then the outs and locals of each window.
static CELLS: [[u8; 32]; 8] = [
    [
        0, 1, 2, 3, 4, 5, 6, 7, 8, 9, 10, 11, 12, 13, 14, 15, 16, 17, 18, 19, 20, 21, 22, 23, 24,
        25, 26, 27, 28, 29, 30, 31,
    ],
    [
        0, 1, 2, 3, 4, 5, 6, 7, 24, 25, 26, 27, 28, 29, 30, 31, 32, 33, 34, 35, 36, 37, 38, 39, 40,
        41, 42, 43, 44, 45, 46, 47,
    ],
    [
        0, 1, 2, 3, 4, 5, 6, 7, 40, 41, 42, 43, 44, 45, 46, 47, 48, 49, 50, 51, 52, 53, 54, 55, 56,
        57, 58, 59, 60, 61, 62, 63,
    ],
    [
        0, 1, 2, 3, 4, 5, 6, 7, 56, 57, 58, 59, 60, 61, 62, 63, 64, 65, 66, 67, 68, 69, 70, 71, 72,
        73, 74, 75, 76, 77, 78, 79,
    ],
    [
        0, 1, 2, 3, 4, 5, 6, 7, 72, 73, 74, 75, 76, 77, 78, 79, 80, 81, 82, 83, 84, 85, 86, 87, 88,
        89, 90, 91, 92, 93, 94, 95,
    ],
    [
        0, 1, 2, 3, 4, 5, 6, 7, 88, 89, 90, 91, 92, 93, 94, 95, 96, 97, 98, 99, 100, 101, 102, 103,
        104, 105, 106, 107, 108, 109, 110, 111,
    ],
    [
        0, 1, 2, 3, 4, 5, 6, 7, 104, 105, 106, 107, 108, 109, 110, 111, 112, 113, 114, 115, 116,
        117, 118, 119, 120, 121, 122, 123, 124, 125, 126, 127,
    ],
    [
        0, 1, 2, 3, 4, 5, 6, 7, 120, 121, 122, 123, 124, 125, 126, 127, 128, 129, 130, 131, 132,
        133, 134, 135, 8, 9, 10, 11, 12, 13, 14, 15,
    ],
];

/// The trap of an instruction that would enter an invalid window (SPARC V8, chapter 7, traps).
#[derive(Clone, Copy, Debug, PartialEq, Eq)]
pub enum WindowTrap {
    /// `window_overflow`, trap type 05: of SAVE.
    Overflow,

    /// `window_underflow`, trap type 06: of RESTORE and RETT.
    Underflow,
}

/// The cell of register `n` in window `cwp`, by the table.
fn cell_in_table(cwp: u8, n: u8) -> usize
    requires window { cwp < 8 }
    requires register { n < 32 }
    ensures { result ≡ cell cwp n }
{
    let place = CELLS[cwp as usize][n as usize];
    place as usize
}

/// The cell of register `n` in window `cwp` (SPARC V8, chapter 4, windowed registers).
pub fn cell(cwp: u8, n: u8) -> usize
    requires window { cwp < 8 }
    requires register { n < 32 }
    ensures cell { result ≡ cell cwp n }
    ensures within { result < 136 }

    // Two registers of a window have two cells.
    ensures distinct { (m : ℕ) → m < 32 → cell cwp m ≡ result → m ≡ n }

    // A global has one cell in all windows, and a local is in no other window.
    ensures globals { IsGlobal n → (window : ℕ) → cell window n ≡ result }
    ensures locals { IsLocal n → (window m : ℕ) → window < 8 → m < 32 → cell window m ≡ result → window ≡ cwp }

    // The outs are the ins of the window that SAVE enters, and the ins the outs of the one that RESTORE enters.
    ensures outs { IsOut n → cell (window_after_save cwp) (n + 16) ≡ result }
    ensures ins { IsIn n → cell (window_after_restore cwp) (n - 16) ≡ result }
{
    cell_in_table(cwp, n)
}

fn is_invalid(wim: u32, window: u8) -> bool
    requires { window < 8 }
    ensures invalid { IsTrue result ↔ IsInvalid wim window }
    ensures valid { result ≡ false → IsValid wim window }
{
    wim >> window & 1 == 1
}

/// The window that SAVE enters from window `cwp` (SPARC V8, appendix B, SAVE and RESTORE instructions).
///
/// # Errors
///
/// `Overflow` where the mask `wim` marks that window as invalid.
pub fn save(cwp: u8, wim: u32) -> Result<u8, WindowTrap>
    requires { cwp < 8 }
    ensures window { IfOk result (λ window. window ≡ window_after_save cwp) }
    ensures within { IfOk result (λ window. window < 8) }
    ensures valid { OnOk result (IsValid wim (window_after_save cwp)) }
    ensures trap { (result ≡ Err WindowTrap.Overflow) ↔ IsInvalid wim (window_after_save cwp) }
    ensures only { IsOkUnless result WindowTrap.Overflow }
    ensures test { is_err result ≡ is_invalid wim (window_after_save cwp) }

    // RESTORE comes back.
    ensures back { IfOk result (λ window. window_after_restore window ≡ cwp) }
{
    let below = (cwp + WINDOWS - 1) % WINDOWS;
    if is_invalid(wim, below) {
        return Err(WindowTrap::Overflow);
    }
    Ok(below)
}

/// The window that RESTORE and RETT enter from window `cwp` (SPARC V8, appendix B, SAVE and RESTORE, and RETT
/// instructions).
///
/// # Errors
///
/// `Underflow` where the mask `wim` marks that window as invalid.
pub fn restore(cwp: u8, wim: u32) -> Result<u8, WindowTrap>
    requires { cwp < 8 }
    ensures window { IfOk result (λ window. window ≡ window_after_restore cwp) }
    ensures within { IfOk result (λ window. window < 8) }
    ensures valid { OnOk result (IsValid wim (window_after_restore cwp)) }
    ensures trap { (result ≡ Err WindowTrap.Underflow) ↔ IsInvalid wim (window_after_restore cwp) }
    ensures only { IsOkUnless result WindowTrap.Underflow }
    ensures test { is_err result ≡ is_invalid wim (window_after_restore cwp) }

    // SAVE comes back.
    ensures back { IfOk result (λ window. window_after_save window ≡ cwp) }
{
    let above = (cwp + 1) % WINDOWS;
    if is_invalid(wim, above) {
        return Err(WindowTrap::Underflow);
    }
    Ok(above)
}
