//! A machine that has another clock.

use std::alloc::{Allocator, Global};
use std::fs::{File, Metadata, OpenOptions};
use std::io;
use std::net::{Net, SocketAddr};
use std::random::RandomSource;
use std::rt::{Clock, Files};
use std::time::Duration;

/// The machine, with this clock in the place of its own.
#[derive(Drop)]
pub struct World<'m, R, C> {
    /// The machine.
    pub machine: &'m R,
    /// The clock.
    pub clock: C,
}

impl<R: AllocGlobal, C> Alloc for World<'_, R, C> {
    type A = Global;

    fn alloc(&self) -> Global {
        self.machine.alloc()
    }
}

impl<R: RandomSource, C> RandomSource for World<'_, R, C> {
    fn fill_bytes(&self, buf: &mut [u8]) -> io::Result<()> {
        self.machine.fill_bytes(buf)
    }
}

impl<R, C: Clock> Clock for World<'_, R, C> {
    fn monotonic(&self) -> io::Result<Duration> {
        self.clock.monotonic()
    }

    fn since_1970(&self) -> io::Result<Duration> {
        self.clock.since_1970()
    }
}

impl<R: Files, C> Files for World<'_, R, C> {
    type File = R::File;

    type Dir = R::Dir;

    fn open_file(&self, how: &OpenOptions, path: &str) -> io::Result<R::File> {
        self.machine.open_file(how, path)
    }

    fn open_dir(&self, path: &str) -> io::Result<R::Dir> {
        self.machine.open_dir(path)
    }

    fn metadata(&self, path: &str) -> io::Result<Metadata> {
        self.machine.metadata(path)
    }

    fn symlink_metadata(&self, path: &str) -> io::Result<Metadata> {
        self.machine.symlink_metadata(path)
    }

    fn copy(&self, from: &str, to: &str) -> io::Result<u64> {
        self.machine.copy(from, to)
    }

    fn rename(&self, from: &str, to: &str) -> io::Result<()> {
        self.machine.rename(from, to)
    }

    fn remove_file(&self, path: &str) -> io::Result<()> {
        self.machine.remove_file(path)
    }

    fn create_dir(&self, path: &str) -> io::Result<()> {
        self.machine.create_dir(path)
    }

    fn remove_dir(&self, path: &str) -> io::Result<()> {
        self.machine.remove_dir(path)
    }

    fn remove_dir_all<B: Allocator>(&self, alloc: B, path: &str) -> io::Result<()> {
        self.machine.remove_dir_all(alloc, path)
    }
}

impl<R: Net, C> Net for World<'_, R, C> {
    type Stream = R::Stream;

    type Listener = R::Listener;

    fn bind(&self, addr: SocketAddr) -> io::Result<R::Listener> {
        self.machine.bind(addr)
    }

    fn connect(&self, addr: SocketAddr) -> io::Result<R::Stream> {
        self.machine.connect(addr)
    }
}
