ghost use Rattle.std.specs.Prelude.{◌≡◌, ◌<◌, ◌*◌, ◌^◌};
ghost use Rattle.lf_model.specs.State.{psr_of};

/// The control state of a core (SPARC V8, chapter 4, control and status registers): the parts of PSR that
/// instructions change, TBR, PC and nPC.
#[derive(Clone, Copy, Debug)]
pub struct Ctl {
    /// The condition codes N, Z, V and C as bits 3 to 0.
    pub icc: u8,
    /// The processor interrupt level, below 16.
    pub pil: u8,
    /// Supervisor mode.
    pub s: bool,
    /// The value of S before the last trap.
    pub ps: bool,
    /// Traps are enabled.
    pub et: bool,
    /// The current window, below 8.
    pub cwp: u8,
    /// The trap base register: base address, trap type, and four bits of 0.
    pub tbr: u32,
    pub pc: u32,
    pub npc: u32,
}

impl Ctl {
    /// The processor state register: impl F and ver 3, then icc, PIL, S, PS, ET and CWP, with EC and EF 0.
    pub fn psr(&self) -> u32
        requires icc { self.now.icc < 16 }
        requires pil { self.now.pil < 16 }
        requires cwp { self.now.cwp < 8 }
        ensures { result ≡ psr_of self.now }
    {
        0xf300_0000
            + ((self.icc as u32) << 20)
            + ((self.pil as u32) << 8)
            + ((self.s as u32) << 7)
            + ((self.ps as u32) << 6)
            + ((self.et as u32) << 5)
            + self.cwp as u32
    }
}

/// What a core keeps beside its registers, caches and waiting stores.
#[derive(Clone, Copy, Debug)]
pub struct Arch {
    pub ctl: Ctl,
    /// The window invalid mask, below 256.
    pub wim: u32,
    /// The multiply and divide register Y.
    pub y: u32,
    /// The number of the core, below 8.
    pub core: u32,
    /// How many instructions were counted.
    pub n: u32,
    /// How many memory operations were made.
    pub k: u32,
}
