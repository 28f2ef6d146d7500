//! The faults, with their numbers.

use monk_audit::AuditFault;
use monk_commands::{LineFault, StreamFault};
use monk_floor::MakeFault;
use monk_history::{ReadFault, WriteFault};
use monk_object::ObjectFault;
use monk_samples::RunFault;
use std::error::Error;
use std::fmt::Debug;

pub fn object_fault(fault: ObjectFault) {
    let number = match fault {
        ObjectFault::Size => 1,
        ObjectFault::Memory => 2,
    };
    let told = fault.number();
    prove!(told == number);
}

pub fn make_fault(fault: MakeFault) {
    let number = match fault {
        MakeFault::Seats => 1,
        MakeFault::Conds => 2,
        MakeFault::Budget => 3,
        MakeFault::Memory => 4,
    };
    let told = fault.number();
    prove!(told == number);
}

pub fn audit_fault(fault: AuditFault) {
    let number = match fault {
        AuditFault::Object => 1,
        AuditFault::Memory => 2,
    };
    let told = fault.number();
    prove!(told == number);
}

pub fn run_fault(fault: &RunFault) {
    let number = match fault {
        RunFault::Range => 1,
        RunFault::Memory => 2,
        RunFault::Tired => 3,
        RunFault::Late => 4,
        RunFault::Busy => 5,
        RunFault::Thread => 6,
    };
    let told = fault.number();
    prove!(told == number);
}

pub fn stream_fault(fault: StreamFault) {
    let number = match fault {
        StreamFault::Memory => 1,
        StreamFault::File => 2,
    };
    let told = fault.number();
    prove!(told == number);
}

pub fn line_fault(fault: &LineFault) {
    let number = match fault {
        LineFault::Words(_) => 1,
        LineFault::Memory => 2,
    };
    let told = fault.number();
    prove!(told == number);
}

/// Returns the number of a fault of a text, and its line.
pub fn parts_of_read_fault(fault: ReadFault) -> (u8, u32) {
    let ReadFault { number, line } = fault;
    (number, line)
}

/// The six numbers of a text's fault.
pub fn read_faults() {
    prove!(ReadFault::HEADER == 1);
    prove!(ReadFault::WORD == 2);
    prove!(ReadFault::NUMBER == 3);
    prove!(ReadFault::END == 4);
    prove!(ReadFault::LONG == 5);
    prove!(ReadFault::MEMORY == 6);
}

pub fn eight_faults() {
    is_fault::<ObjectFault>();
    is_fault::<ReadFault>();
    is_fault::<WriteFault>();
    is_fault::<MakeFault>();
    is_fault::<AuditFault>();
    is_fault::<RunFault>();
    is_fault::<LineFault>();
    is_fault::<StreamFault>();
}

pub fn is_fault<F: Debug + Drop + Error>() {}
