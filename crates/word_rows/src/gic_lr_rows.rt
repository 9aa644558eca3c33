//! List registers as words.
use gic_lr::{LrEntry, LrState, pack, unpack};
use gic_prio::Group;

/// The state, the INTID, the priority, whether EOI is set, and the list register, all in group 1.
const ROWS: [(LrState, u32, u8, bool, u64); 5] = [
    (LrState::Pending, 40, 0xA0, false, 0x50a0_0000_0000_0028),
    (LrState::Pending, 40, 0xA0, true, 0x50a0_0200_0000_0028),
    (LrState::Both, 40, 0xA0, false, 0xd0a0_0000_0000_0028),
    (LrState::Active, 40, 0xA0, true, 0x90a0_0200_0000_0028),
    (LrState::Pending, 42, 0x20, false, 0x5020_0000_0000_002a),
];

#[test]
fn list_registers(rt: HostRuntime) {
    for (state, id, prio, eoi, word) in ROWS {
        let entry = LrEntry {
            id,
            prio,
            group: Group::G1,
            state,
            eoi,
            hw: None,
        };
        assert_eq!(rt; pack(&entry), word);
        assert_eq!(rt; unpack(word), entry);
    }
}
