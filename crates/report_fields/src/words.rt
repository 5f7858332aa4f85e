ghost use Rattle.std.specs.Prelude.{◌≡◌};

use super::texts::Word;
use lf_model::bus::{OpKind, TurnKind, Why};
use lf_model::trace::Fate;

impl Word for TurnKind {
    ghost use Rattle.lf_model.specs.TransferLines.{kind_word};

    ghost text = { kind_word };

    fn text(self) -> &'static [u8] {
        match self {
            TurnKind::Fetch => b"fetch ",
            TurnKind::Load => b"load ",
            TurnKind::Store => b"store ",
            TurnKind::Atomic => b"atomic ",
            TurnKind::Snoop => b"snoop ",
            TurnKind::Look => b"look ",
            TurnKind::Fix => b"fix ",
        }
    }
}

impl Word for Why {
    ghost use Rattle.lf_model.specs.TransferLines.{why_word};

    ghost text = { why_word };

    fn text(self) -> &'static [u8] {
        match self {
            Why::None => b"- ",
            Why::Absent => b"absent ",
            Why::Word => b"word ",
            Why::Tag => b"tag ",
            Why::Byte => b"data ",
            Why::Full => b"full ",
            Why::Miss => b"miss ",
            Why::Stbar => b"stbar ",
            Why::Atomic => b"atomic ",
            Why::Flush => b"flush ",
            Why::Window => b"window ",
            Why::End => b"end ",
            Why::Sched => b"sched ",
        }
    }
}

impl Word for OpKind {
    ghost use Rattle.lf_model.specs.Report.{letter_of};

    ghost text = { letter_of };

    fn text(self) -> &'static [u8] {
        match self {
            OpKind::Load => b"L ",
            OpKind::Store => b"S ",
            OpKind::Atomic => b"A ",
            OpKind::Lost => b"X ",
        }
    }
}

impl Word for Fate {
    ghost use Rattle.lf_model.specs.Report.{fate_word};

    ghost text = { fate_word };

    fn text(self) -> &'static [u8] {
        match self {
            Fate::Late => b"late\n",
            Fate::Declined => b"declined\n",
            Fate::Repaired => b"repaired\n",
            Fate::Discarded => b"discarded\n",
            Fate::Stopped => b"stopped\n",
            Fate::Overwritten => b"overwritten\n",
            Fate::Dormant => b"dormant\n",
        }
    }
}
