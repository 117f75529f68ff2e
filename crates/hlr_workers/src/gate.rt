//! The gate, which a worker calls around each job.

/// A type of the caller's that the thread which does a job calls before and after the job. With a gate, a test sees
/// which threads work, and can hold one up. A gate must not wait for the thread that submits events, because that
/// thread may wait for a place in the queue of this part, or for this part to come home, and then neither continues.
pub trait Gate: Sync + Send + Drop {
    /// Runs before the job with the number `seq`, on this part.
    fn before(&self, part: u8, seq: u64);

    /// Runs after the job with the number `seq`, on this part.
    fn after(&self, part: u8, seq: u64);
}
