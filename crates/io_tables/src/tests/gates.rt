use lf_io::{Gate, NoGate};

/// A gate is shared by threads.
fn pass<G: Gate + Sync>(gate: &G) {
    gate.at(0, 1);
}

#[test]
fn no_gate_is_shared() {
    pass(&NoGate);
}
