/// What a worker of a pool has just done.
#[derive(Clone, Copy, Debug, PartialEq, Eq)]
pub enum GateEvent {
    /// It took a job.
    Took,
    /// It handed in the result of a job.
    Committed,
    /// It carried out a call that meets children.
    Met,
    /// It found nothing to do.
    Resting,
}

/// Is told of the events of workers.
pub trait Gate: Sync {
    /// Is passed by a worker after an event. `worker` counts from 0.
    fn pass(&self, worker: usize, event: GateEvent);
}

/// A gate that does nothing.
#[derive(Clone, Copy, Debug)]
pub struct OpenGate;

impl Gate for OpenGate {
    fn pass(&self, _worker: usize, _event: GateEvent) {}
}
