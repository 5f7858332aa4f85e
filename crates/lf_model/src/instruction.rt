/// The second operand of an instruction (SPARC V8, chapter 5, instruction formats).
#[derive(Clone, Copy, Debug, PartialEq, Eq)]
pub enum Src {
    /// Register rs2.
    Reg(u8),
    /// The 13 bits of simm13, not yet extended.
    Imm(u32),
}

/// A state register that an instruction names, other than an ancillary state register.
#[derive(Clone, Copy, Debug, PartialEq, Eq)]
pub enum StateName {
    Y,
    Psr,
    Wim,
    Tbr,
}

/// A load, store or atomic instruction (SPARC V8, appendix B, load and store instructions).
#[derive(Clone, Copy, Debug, PartialEq, Eq)]
pub enum MemName {
    Ld,
    Ldub,
    Lduh,
    Ldd,
    St,
    Stb,
    Sth,
    Std,
    Ldsb,
    Ldsh,
    Ldstub,
    Swap,
}

/// An instruction that calculates a register's value (SPARC V8, appendix B, logical, shift, add, subtract,
/// multiply and divide instructions). `Cc` sets the condition codes, and `Tv` traps on overflow.
#[derive(Clone, Copy, Debug, PartialEq, Eq)]
pub enum CalcName {
    Add,
    AddCc,
    And,
    AndCc,
    Or,
    OrCc,
    Xor,
    XorCc,
    Sub,
    SubCc,
    AndN,
    AndNCc,
    OrN,
    OrNCc,
    XNor,
    XNorCc,
    AddX,
    AddXCc,
    SubX,
    SubXCc,
    UMul,
    UMulCc,
    SMul,
    SMulCc,
    UDiv,
    UDivCc,
    SDiv,
    SDivCc,
    TAddCc,
    TSubCc,
    TAddCcTv,
    TSubCcTv,
    MulScc,
    Sll,
    Srl,
    Sra,
}

/// An instruction word, by its row of the opcode tables (SPARC V8, appendix F), with its raw fields:
/// register numbers below 32, conditions below 16, displacements and immediate values as they stand.
#[derive(Clone, Copy, Debug, PartialEq, Eq)]
pub enum Instr {
    /// No instruction: trap `illegal_instruction`.
    Illegal,
    /// An alternate-space form that is no instruction, which is privileged too.
    AltIllegal,
    /// A floating-point instruction.
    FpOff,
    /// A coprocessor instruction.
    CpOff,
    /// STDFQ.
    FpQueue,
    /// STDCQ.
    CpQueue,
    Stbar,
    Call {
        disp30: u32,
    },
    Sethi {
        rd: u8,
        imm22: u32,
    },
    Bicc {
        cond: u8,
        a: bool,
        disp22: u32,
    },
    Calc {
        name: CalcName,
        rd: u8,
        rs1: u8,
        src: Src,
    },
    Ticc {
        cond: u8,
        rs1: u8,
        src: Src,
    },
    ReadState {
        name: StateName,
        rd: u8,
    },
    /// RDASR of the register `rs1`, 17 or 19.
    ReadAsr {
        rd: u8,
        rs1: u8,
    },
    WriteState {
        name: StateName,
        rs1: u8,
        src: Src,
    },
    /// WRASR of the register `rd`, 17 or 19.
    WriteAsr {
        rd: u8,
        rs1: u8,
        src: Src,
    },
    Jmpl {
        rd: u8,
        rs1: u8,
        src: Src,
    },
    Rett {
        rs1: u8,
        src: Src,
    },
    Flush {
        rs1: u8,
        src: Src,
    },
    Save {
        rd: u8,
        rs1: u8,
        src: Src,
    },
    Restore {
        rd: u8,
        rs1: u8,
        src: Src,
    },
    Mem {
        name: MemName,
        rd: u8,
        rs1: u8,
        src: Src,
    },
    Alternate {
        name: MemName,
        rd: u8,
        rs1: u8,
        rs2: u8,
        asi: u8,
    },
}
