//! Gates: what stands round each row that a worker does, so that tests can order the rows of several workers.

/// Stands round each row that `load_links` does. A worker is named by its job's place in the list, a row by its place in its job,
/// both from 0. Where the row stops the job, `after` is called, too.
pub trait Gate {
    fn before(&self, worker: u32, row: u64);

    fn after(&self, worker: u32, row: u64);
}

/// A gate that does nothing.
#[derive(Drop)]
pub struct NoGate;

impl Gate for NoGate {
    fn before(&self, _worker: u32, _row: u64) {}

    fn after(&self, _worker: u32, _row: u64) {}
}
