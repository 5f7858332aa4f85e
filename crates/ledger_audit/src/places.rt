ghost use Rattle.std.specs.Prelude.{◌<◌, ◌≤◌, ◌^◌, length};
ghost use Rattle.lf_model.specs.Ledger.Account.{account_as_reported};
ghost use Rattle.lf_model.specs.Ledger.Rule.{DifferFirst};
ghost use Rattle.lf_model.specs.Once.{OnceAtCore};
ghost use Rattle.lf_model.specs.Places.{FailsNowhere};
ghost use Rattle.ledger_audit.specs.Account.{account_given};

use crate::cores::first_other_core;
use crate::final_place::is_same_final;
use crate::flips::first_other_fate;
use crate::given::Given;
use crate::order::first_other_operation;
use crate::transfers::first_other_turn;
use lf_model::place::Place;
use lf_model::setup::Setup;
use lf_model::trace::Trace;

/// The first place at which the trace reports other than is given: of the cores, then of the memory order, of the transfers, of the flips,
/// and last of the whole trace.
///
/// It takes time by operations and, for each core, transfers, and no memory.
pub fn first_difference(setup: &Setup, trace: &Trace, given: &Given) -> Option<Place>
    requires cores { setup.now.config.cores ≤ 8 }
    requires numbered { FailsNowhere setup.now.config.cores (OnceAtCore trace.now.order) }
    requires few_operations { length trace.now.order < 2 ^ 32 }
    requires few_transfers { length trace.now.transfers < 2 ^ 32 }
    requires few_fates { length trace.now.fates < 2 ^ 32 }
    ensures first { DifferFirst setup.now trace.now (account_given setup.now trace.now.order given.now) (account_as_reported trace.now) result }
{
    let cores = given.cores.as_slice();
    if let Some(core) = first_other_core(cores, trace, setup.config.cores) {
        return Some(Place::Core(core));
    }
    if let Some(place) = first_other_operation(
        cores,
        given.log.as_slice(),
        trace.order.as_slice(),
    ) {
        return Some(Place::Order(place as u32));
    }
    if let Some(turn) = first_other_turn(given.turns.as_slice(), trace.transfers.as_slice()) {
        return Some(Place::Transfer(turn as u32));
    }
    if let Some(flip) = first_other_fate(given.fates.as_slice(), trace.fates.as_slice()) {
        return Some(Place::Flip(flip as u32));
    }
    if is_same_final(setup, trace, given) {
        None
    } else {
        Some(Place::Final)
    }
}
