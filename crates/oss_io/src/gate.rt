//! Gates: who runs a program sees by one which worker begins a task, before the first step of the task.

/// What is called before a task begins. It sees which worker begins it and where the task stands, and the first
/// step is made when it returns. It promises nothing, and no answer depends on it.
pub trait Gate: Sync {
    /// Called once for each task that is not included in another, directly before its first step: by the worker
    /// that makes this step, with its number and the numbers of the task's point, from main's 0 down.
    fn pass(&self, worker: u32, point: &[u16]);
}

/// A gate that does nothing.
pub struct NoGate;

impl Gate for NoGate {
    fn pass(&self, _worker: u32, _point: &[u16]) {}
}

#[cfg(test)]
mod tests {
    use super::*;
    use std::test::Fail;

    /// Lets two workers pass with a task each.
    fn let_pass<G: Gate>(gate: &G) {
        gate.pass(0, &[0]);
        gate.pass(63, &[0, 65_535, 1]);
    }

    #[test]
    fn no_gate_lets_all_pass(_rt: HostRuntime) -> Result<(), Fail> {
        let_pass(&NoGate);
        Ok(())
    }
}
