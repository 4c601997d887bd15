//! The registers that a kernel call reads.
ghost use Rattle.std.specs.Prelude.{◌≡◌, ◌≤◌, take};
ghost use Rattle.lifeguard.specs.Calls.{call_registers as registers_of_call};

use crate::guard::CheckedRegs;
use pl_event::Kind;

/// The registers that a kernel call reads, in the order in which they are checked: its arguments, from register 10 on,
/// and its number, in register 17. An event of no call reads none.
#[inline]
pub fn call_registers(kind: &Kind) -> CheckedRegs
    ensures few { result.count ≤ 3 }
    ensures regs { take result.count result.regs ≡ registers_of_call kind.now }
{
    match kind {
        Kind::Al { .. } | Kind::Fr { .. } | Kind::Bf { .. } | Kind::Ex => CheckedRegs {
            count: 2,
            regs: [10, 17, 0],
        },
        Kind::Mp { .. } | Kind::Um { .. } => CheckedRegs {
            count: 3,
            regs: [10, 11, 17],
        },
        Kind::Rd { .. } | Kind::Wr { .. } => CheckedRegs {
            count: 3,
            regs: [11, 12, 17],
        },
        Kind::Ld { .. }
        | Kind::St { .. }
        | Kind::Op { .. }
        | Kind::Mv { .. }
        | Kind::Im { .. }
        | Kind::Br { .. }
        | Kind::Jr { .. }
        | Kind::Ft { .. } => CheckedRegs {
            count: 0,
            regs: [0; 3],
        },
    }
}
