// Writing to standard output.
use crate::problem::{Problem, Task};
use std::io::Write;

pub(crate) fn print(rt: &HostRuntime, bytes: &[u8]) -> Result<(), Problem> {
    match rt.stdout().write_all(bytes) {
        Ok(()) => Ok(()),
        Err(error) => Err(Problem::Undone(Task::Write, error)),
    }
}
