use trap_ret::AcceptedCall;

/// What is next of a space.
#[derive(Clone, Copy, Debug, PartialEq, Eq)]
pub enum Next {
    /// A local event.
    Local,
    /// A call that meets a child.
    Meet(AcceptedCall),
    /// Nothing: the space has stopped.
    Stopped,
}

/// How far a space has gone on.
#[derive(Clone, Copy, Debug, PartialEq, Eq)]
pub struct Advance {
    /// How many local events there were.
    pub ran: u32,
    /// What is next: `Local` where there were as many events as there might be, or where enough is ready of what was written to the console, and
    /// nothing is said of the next one. None where it is a local event for which there was no memory.
    pub next: Option<Next>,
}
