//! What a lifeguard finds, and at which event.

/// What a report is about.
#[derive(Clone, Copy, Debug, PartialEq, Eq)]
pub enum ReportKind {
    /// A byte that may not be touched; `addr` is its address.
    Access,
    /// A free of no block; `addr` is the address that was freed.
    BadFree,
    /// A byte that is not defined goes outside; `addr` is its address.
    Undef,
    /// The hart touched a byte on no mapped page; `addr` is the address of its access.
    Fault,
    /// The base register of an access is not defined; `addr` is the register.
    Addr,
    /// A register that a branch compares is not defined; `addr` is the register.
    Branch,
    /// A jump's register is not defined or came from outside; `addr` is the register.
    Jump,
    /// A register that a kernel call reads is not defined or came from outside; `addr` is the register.
    Arg,
}

/// What a lifeguard found at one event.
#[derive(Clone, Copy, Debug, PartialEq, Eq)]
pub struct Report {
    /// The event's place in the run, from 1, notices not counted.
    pub place: u32,
    pub hart: u8,
    /// The event's number in its hart, from 1, notices not counted.
    pub event: u32,
    pub kind: ReportKind,
    /// An address, or for reports on registers the register's number.
    pub addr: u32,
}

/// Which event of a run it is.
#[derive(Clone, Copy, Debug, PartialEq, Eq)]
pub struct EventPlace {
    /// Its place in the run, from 1, notices not counted.
    pub place: u32,
    pub hart: u8,
    /// Its number in its hart, from 1, notices not counted.
    pub number: u32,
}
