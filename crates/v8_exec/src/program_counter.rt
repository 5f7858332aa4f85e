ghost use Rattle.std.specs.Prelude.{◌≡◌, ◌+◌, ◌*◌, ◌%◌, ◌^◌};

use lf_model::control::Arch;

/// The address so many words after this one.
pub fn displaced(addr: u32, words: u32) -> u32
    ensures { result ≡ (addr + 4 * words) % 2 ^ 32 }
{
    addr.wrapping_add(words.wrapping_mul(4))
}

/// A delayed transfer: PC becomes nPC, and nPC the target.
pub fn transfer(a: &mut Arch, target: u32)
    ensures { a.new ≡ record a.old { ctl = record a.old.ctl { pc = a.old.ctl.npc; npc = target } } }
{
    a.ctl.pc = a.ctl.npc;
    a.ctl.npc = target;
}

/// PC becomes nPC, and nPC the next word.
pub fn advance(a: &mut Arch)
    ensures { a.new ≡ record a.old { ctl = record a.old.ctl { pc = a.old.ctl.npc; npc = (a.old.ctl.npc + 4) % 2 ^ 32 } } }
{
    transfer(a, a.ctl.npc.wrapping_add(4));
}

/// The delay slot is annulled: PC becomes this address, and nPC the next word.
pub fn annul(a: &mut Arch, addr: u32)
    ensures { a.new ≡ record a.old { ctl = record a.old.ctl { pc = addr; npc = (addr + 4) % 2 ^ 32 } } }
{
    a.ctl.pc = addr;
    a.ctl.npc = addr.wrapping_add(4);
}
