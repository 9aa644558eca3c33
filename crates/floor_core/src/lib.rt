//! The floor of the core: passes on port_core, core_proper.
#![tactic(auto)]

pub use core_proper::{
    CAND_WORDS, CallPart, Cands, Choice, Chooser, CmdFault, Command, CoreStep, CtlrWord, DeviceOp,
    DistReg, DistRegRef, Enables, FIRST_LPI, Field, Fill, Frame, GuestOp, GuestShape, Half, IIDR,
    Irq, ItsReg, ItsRegRef, ItsTables, Key, Kind, Line, Local, LrList, MemoryPart, NO_VCPUS,
    NoMemory, Offer, Outcome, PIDR2, PlainWord, Port, RedistReg, RedistRegRef, Table, Targets,
    Touching, UNKNOWN_NUMBER, VcpuWord, WordId, access, advance, baser, baser_after, cbaser_after,
    config_address, config_of, creadr, dist_access, dist_ctlr, dist_typer, enable_lpis_after,
    enabled_in, enables_in, encode, extract, fresh, has_bit, index_bits, index_words, insert,
    interrupt_count, irq_unpack, its_access, its_ctlr, its_decode, its_typer, key_at, key_of_bit,
    line_count, message_intid, offset_in, part_in, part_key, pendbaser_after, pendbaser_read,
    pending_address, place_of_plain, propbaser_after, queue_bytes, queue_decode, queue_unpack,
    read_part, redist_access, redist_ctlr, redist_typer, retries, sgi_intid, sgi_targets, split,
    target_in, unpack_line, with_part,
};
