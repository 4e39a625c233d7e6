ghost use Rattle.std.specs.Prelude.{None};

use crate::FileReader;
use std::fs::File;
use std::io;
use std::io::Read;

/// The files of the operating system by their paths. They tell no bytes.
#[derive(Drop)]
pub struct SystemFiles {
    rt: HostRuntime,
    file: Option<File>,
}

impl SystemFiles {
    /// No file is open yet.
    pub fn new(rt: HostRuntime) -> SystemFiles {
        SystemFiles { rt, file: None }
    }
}

impl FileReader for SystemFiles {
    ghost held = { λ s name. None };

    ghost left = { λ s. None };

    fn open(&mut self, name: &str) -> io::Result<()> {
        self.file = Some(File::open(&self.rt, name)?);
        Ok(())
    }

    fn read(&mut self, buffer: &mut [u8]) -> io::Result<usize> {
        match &mut self.file {
            Some(file) => file.read(buffer),
            None => Ok(0),
        }
    }
}
