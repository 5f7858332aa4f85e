/// Which ordinary traps one instruction has, in the order in which they are taken (SPARC V8, chapter 7, traps).
#[derive(Clone, Copy, Debug, Default, PartialEq, Eq)]
pub struct Checks {
    /// PC is no word of the text: `instruction_access_exception`.
    pub fetch: bool,
    /// A supervisor's instruction in user mode: `privileged_instruction`.
    pub privileged: bool,
    /// `illegal_instruction`.
    pub illegal: bool,
    /// A floating-point instruction: `fp_disabled`.
    pub fp_off: bool,
    /// A coprocessor instruction: `cp_disabled`.
    pub cp_off: bool,
    /// SAVE into an invalid window: `window_overflow`.
    pub over: bool,
    /// RESTORE or RETT into an invalid window: `window_underflow`.
    pub under: bool,
    /// An address that is no multiple of its size: `mem_address_not_aligned`.
    pub align: bool,
    /// An address that has no such access: `data_access_exception`.
    pub access: bool,
    /// A tagged instruction that traps on overflow: `tag_overflow`.
    pub tag: bool,
    /// A division by 0: `division_by_zero`.
    pub zero: bool,
    /// Ticc whose condition holds, with its trap type, 80 to FF: `trap_instruction`.
    pub ticc: Option<u8>,
}
