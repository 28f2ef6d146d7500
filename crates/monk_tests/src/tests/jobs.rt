//! An input of a command, and the answer to it. All tests of streams share one reader and one writer, because a check
//! proves and compiles each stream once for each pair of them.

use monk_commands::{StreamFault, Task};
use monk_history::Device;
use std::io;
use std::io::{Read, Write};
use std::test::Fail;

/// An input, what is done with it, and the answer.
#[derive(Clone, Copy)]
pub(crate) struct Job<'a> {
    pub(crate) name: &'static str,
    pub(crate) task: Task<'static>,
    pub(crate) input: &'a [u8],
    pub(crate) status: u8,
    pub(crate) answer: &'a [u8],
}

/// A reader that gives a few bytes at a time and fails at one of its reads.
#[derive(Drop)]
pub(crate) struct Slow<'a> {
    rest: &'a [u8],
    step: usize,
    /// Counts down to the read that fails; at 0 no read will fail.
    reads_left: usize,
}

impl<'a> Slow<'a> {
    /// Returns one that gives all that it is asked for.
    pub(crate) fn new(input: &'a [u8]) -> Self {
        Slow::failing(input, usize::MAX, 0)
    }

    /// Returns one that gives `step` bytes at a time. At read `reads_left` it fails.
    pub(crate) fn failing(input: &'a [u8], step: usize, reads_left: usize) -> Self {
        Slow {
            rest: input,
            step,
            reads_left,
        }
    }
}

impl Read for Slow<'_> {
    fn read(&mut self, buf: &mut [u8]) -> io::Result<usize> {
        if self.reads_left == 1 {
            self.reads_left = 0;
            return Err(io::Error::from(io::ErrorKind::Interrupted));
        }
        self.reads_left = self.reads_left.saturating_sub(1);
        let taken = self.step.min(buf.len()).min(self.rest.len());
        let (front, rest) = self.rest.split_at(taken);
        buf[..taken].copy_from_slice(front);
        self.rest = rest;
        Ok(taken)
    }
}

/// A writer that keeps nothing: it compares what it gets with what is still expected. It takes a few bytes
/// at a time, and at one of its writes it fails or takes none.
#[derive(Drop)]
pub(crate) struct Expected<'a> {
    rest: &'a [u8],
    differs: bool,
    /// How many bytes it took.
    pub(crate) taken: usize,
    step: usize,
    /// Counts down to the write that fails; at 0 no write will fail.
    writes_left: usize,
    refuses: bool,
}

impl<'a> Expected<'a> {
    /// Returns one that takes all that it gets.
    pub(crate) fn new(answer: &'a [u8]) -> Self {
        Expected {
            rest: answer,
            differs: false,
            taken: 0,
            step: usize::MAX,
            writes_left: 0,
            refuses: false,
        }
    }

    /// Returns one that takes `step` bytes at a time. At write `writes_left` it fails, or takes none if `refuses`.
    pub(crate) fn failing(
        answer: &'a [u8],
        step: usize,
        writes_left: usize,
        refuses: bool,
    ) -> Self {
        Expected {
            rest: answer,
            differs: false,
            taken: 0,
            step,
            writes_left,
            refuses,
        }
    }

    /// Whether what it took begins with the answer, or is the front of it.
    pub(crate) fn agrees(&self) -> bool {
        !self.differs
    }
}

impl Write for Expected<'_> {
    fn write(&mut self, buf: &[u8]) -> io::Result<usize> {
        if self.writes_left == 1 {
            self.writes_left = 0;
            return if self.refuses {
                Ok(0)
            } else {
                Err(io::Error::from(io::ErrorKind::Interrupted))
            };
        }
        self.writes_left = self.writes_left.saturating_sub(1);
        let taken = self.step.min(buf.len());
        let known = taken.min(self.rest.len());
        let (front, rest) = self.rest.split_at(known);
        if front != &buf[..known] {
            self.differs = true;
        }
        self.rest = rest;
        self.taken = self.taken.saturating_add(taken);
        Ok(taken)
    }

    fn flush(&mut self) -> io::Result<()> {
        Ok(())
    }
}

/// Whether exactly the expected answer was written, with its status. A fault, such as refused
/// memory, is returned if nothing was written.
pub(crate) fn is_answered(rt: &HostRuntime, job: &Job<'_>) -> Result<bool, StreamFault> {
    let mut answer = Expected::new(job.answer);
    let mut reader = Device::new(Slow::new(job.input));
    let told = job
        .task
        .stream(rt.alloc(), &mut reader, &mut Device::new(&mut answer));
    match told {
        Ok(status) => {
            Ok(status == job.status && answer.agrees() && answer.taken == job.answer.len())
        }
        Err(fault) if answer.taken == 0 => Err(fault),
        Err(_) => Ok(false),
    }
}

/// Tests that each job has its answer. Names the first that has another.
pub(crate) fn are_answered(rt: &HostRuntime, jobs: &[Job<'static>]) -> Result<(), Fail> {
    for job in jobs {
        if !is_answered(rt, job)? {
            return Err(job.name)?;
        }
    }
    Ok(())
}
