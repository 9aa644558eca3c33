//! The interrupt lines of a vCPU.
use floor_registers::{Candidate, CpuRec, Group};
use gic_line::Lines;

/// It listens to both groups, with the mask 0xF0.
const LISTENING: CpuRec = CpuRec {
    pmr: 0xF0,
    bpr0: 2,
    bpr1: 3,
    cbpr: false,
    eoimode: false,
    en0: true,
    en1: true,
    lpis: false,
    ap0: 0,
    ap1: 0,
};

fn candidate(group: Group) -> Option<Candidate> {
    Some(Candidate {
        id: 40,
        prio: 0xA0,
        group,
    })
}

#[test]
fn the_group_picks_the_line(rt: HostRuntime) {
    let masked = CpuRec {
        pmr: 0xA0,
        ..LISTENING
    };
    let running = CpuRec {
        ap1: 1 << 20,
        ..LISTENING
    };
    let rows = [
        (candidate(Group::G1), LISTENING, (true, false)),
        (candidate(Group::G0), LISTENING, (false, true)),
        (None, LISTENING, (false, false)),
        (candidate(Group::G1), masked, (false, false)),
        (candidate(Group::G1), running, (false, false)),
    ];
    for (first, cpu, (irq, fiq)) in rows {
        assert_eq!(rt; Lines::of(first, &cpu), Lines { irq, fiq });
    }
}
