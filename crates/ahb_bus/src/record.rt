use lf_model::trace::{Fates, Transfers};
use order_log::Log;

/// Who makes a transfer.
#[derive(Clone, Copy, Debug)]
pub struct Who {
    /// The core's number, or 8 for the scrubber.
    pub master: u32,
    /// The core's step, or how many turns the scrubber made before.
    pub step: u32,
}

/// What the bus leaves of its run.
#[derive(Drop)]
pub struct BusRecord {
    /// The stores and atomics that reached memory.
    pub log: Log,
    pub transfers: Transfers,
    /// The AHB failing address register.
    pub ahb_addr: u32,
    /// The AHB status register.
    pub ahb_status: u32,
    /// One fate per flip of the script, `Late` for the flips of cores.
    pub fates: Fates,
}
