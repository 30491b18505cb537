// Reading a plan's file, or a script, in bounded memory.
use crate::problem::{Problem, Source, Task};
use plan::oversize::LONGEST;
use session::script::MOST_SCRIPT_BYTES;
use std::alloc::Global;
use std::fs::File;
use std::io;
use std::io::{ErrorKind, Read};

// What is read of an input.
#[derive(Clone, Copy)]
pub(crate) enum Extent {
    // All: a front that is no longer than the longest plan is kept, and the bytes behind it are counted.
    Plan,
    // A front that is no longer than the longest script and one byte.
    Script,
}

impl Extent {
    // The most bytes that are kept.
    fn most(self) -> usize {
        match self {
            Extent::Plan => LONGEST,
            Extent::Script => MOST_SCRIPT_BYTES + 1,
        }
    }
}

// An input: where it is from, its front, and the number of bytes behind it, 0 where they are not read.
#[derive(Drop)]
pub(crate) struct Input {
    pub(crate) source: Source,
    pub(crate) front: Vec<u8>,
    pub(crate) behind: usize,
}

// Reads to that extent, and not beyond the end: the front, and the number of bytes behind it.
fn read_all<R: Read + Drop>(heap: Global, reader: R, extent: Extent) -> io::Result<(Vec<u8>, u64)> {
    let most = extent.most();
    let mut front = Vec::new(heap);
    let mut limited = reader.take(most as u64);
    limited.read_to_end(&mut front)?;
    if front.len() < most || matches!(extent, Extent::Script) {
        return Ok((front, 0));
    }
    let behind = io::copy(limited.get_mut(), &mut io::sink())?;
    Ok((front, behind))
}

fn read_from<R: Read + Drop>(
    heap: Global,
    reader: R,
    source: Source,
    extent: Extent,
) -> Result<Input, Problem> {
    match read_all(heap, reader, extent) {
        Ok((front, behind)) => Ok(Input {
            source,
            front,
            behind: usize::try_from(behind).unwrap_or(usize::MAX),
        }),
        // Want of memory for the front; what the system says of reading has a number.
        Err(error) if error.kind() == ErrorKind::OutOfMemory && error.raw_os_error().is_none() => {
            Err(Problem::NoMemory)
        }
        Err(error) => Err(Problem::Undone(Task::Read(source), error)),
    }
}

// Reads the file of that name, or standard input, to that extent.
pub(crate) fn read_source(
    rt: &HostRuntime,
    source: Source,
    extent: Extent,
) -> Result<Input, Problem> {
    let heap = rt.alloc();
    match source {
        Source::Stdin => read_from(heap, rt.stdin(), Source::Stdin, extent),
        Source::File(name) => match File::open(rt, &name) {
            Ok(file) => read_from(heap, file, Source::File(name), extent),
            Err(error) => Err(Problem::Undone(Task::Open(name), error)),
        },
    }
}
