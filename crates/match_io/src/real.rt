// The real outside: std's files and the standard output. Nothing is told of their content.
ghost use Rattle.std.specs.Prelude.{◌≡◌, ◌^◌, ◌<◌};
ghost use Rattle.std.specs.Io.{WritesAtMost};

use crate::traits::fault;
use crate::{Failed, Files, Sink};
use std::io::{Read, Write};
use std::{fs, io, rt};

/// Files by their paths. They tell nothing of content and are never sure.
#[derive(Drop)]
pub struct RealFiles<'a, R: rt::Files> {
    rt: &'a R,
    file: Option<R::File>,
    faults: u64,
    ghost counted: { faults < 2 ^ 64 },
}

impl<'a, R: rt::Files> RealFiles<'a, R> {
    /// The files of the runtime, none of them begun, the count of faults at 0. It takes no memory.
    pub fn new(rt: &'a R) -> RealFiles<'a, R>
        ensures { ⟦<RealFiles<'a, R> as Files>⟧.faults result ≡ 0 }
    {
        RealFiles {
            rt,
            file: None,
            faults: 0,
        }
    }
}

impl<'a, R: rt::Files> Files for RealFiles<'a, R> {
    ghost use Rattle.std.specs.Prelude.{None};

    ghost faults = { λ files. files.faults };

    ghost holds = { λ _ _. None };

    ghost left = { λ _. None };

    ghost sure = { λ _. ⊥ };

    ghost counts = { λ files. files.counted };

    fn begin(&mut self, name: &str) -> Result<(), Failed> {
        match fs::open(self.rt, name) {
            Ok(file) => {
                self.file = Some(file);
                Ok(())
            }
            Err(_) => Err(fault(&mut self.faults)),
        }
    }

    fn read(&mut self, into: &mut [u8]) -> Result<usize, Failed> {
        match &mut self.file {
            None => Ok(0),
            Some(file) => match file.read(into) {
                Ok(count) => Ok(count),
                Err(_) => Err(fault(&mut self.faults)),
            },
        }
    }
}

/// The standard output. Each write is flushed. It tells nothing of content.
#[derive(Drop)]
pub struct RealOut<'a, R: Print> {
    rt: &'a R,
    faults: u64,
    ghost counted: { faults < 2 ^ 64 },
}

impl<'a, R: Print> RealOut<'a, R> {
    /// The standard output of the runtime, the count of faults at 0. It takes no memory.
    pub fn new(rt: &'a R) -> RealOut<'a, R>
        ensures { ⟦<RealOut<'a, R> as Sink>⟧.faults result ≡ 0 }
    {
        RealOut { rt, faults: 0 }
    }
}

// Writes some of the piece and flushes it.
fn write_out(rt: &impl Print, piece: &[u8]) -> io::Result<usize>
    ensures { WritesAtMost result piece.now }
{
    let mut out = io::writer(rt);
    let count = out.write(piece)?;
    out.flush()?;
    Ok(count)
}

impl<'a, R: Print> Sink for RealOut<'a, R> {
    ghost use Rattle.std.specs.Prelude.{None};

    ghost faults = { λ sink. sink.faults };

    ghost written = { λ _. None };

    ghost counts = { λ sink. sink.counted };

    fn write(&mut self, piece: &[u8]) -> Result<usize, Failed> {
        match write_out(self.rt, piece) {
            Ok(0) if !piece.is_empty() => Err(fault(&mut self.faults)),
            Ok(count) => Ok(count),
            Err(_) => Err(fault(&mut self.faults)),
        }
    }
}
