//! Why the program ends without a whole reply.

use leastfault::BytesFault;
use lf_words::MOST_WORKERS;
use std::alloc::Global;
use std::io;
use std::io::ErrorKind;

/// Why the program ends without a whole reply, and which device it was, where that is known.
#[derive(Drop)]
pub(crate) struct Stop {
    fault: BytesFault,
    /// The device, and the system's reason where it is known.
    device: Option<String>,
}

impl From<BytesFault> for Stop {
    fn from(fault: BytesFault) -> Stop {
        Stop {
            fault,
            device: None,
        }
    }
}

impl Stop {
    /// The fault that a device of this name made. Where memory ran out it is that.
    pub(crate) fn at(alloc: Global, fault: BytesFault, name: &str, error: &io::Error) -> Stop {
        if error.kind() == ErrorKind::OutOfMemory {
            return Stop::from(BytesFault::Memory);
        }
        Stop {
            fault,
            device: format!(in alloc; "{name}: {error}").ok(),
        }
    }

    /// Whether memory ran out.
    pub(crate) fn is_memory(&self) -> bool {
        self.fault == BytesFault::Memory
    }

    /// Tells on standard error the word of the fault, and then the device.
    pub(crate) fn tell(&self, rt: &impl Eprint) {
        let printed = match self.fault {
            BytesFault::Read => eprintln!(rt; "read"),
            BytesFault::Write => eprintln!(rt; "write"),
            BytesFault::Memory => eprintln!(rt; "memory"),
            BytesFault::Pool(1) => {
                eprintln!(rt; "pool 1\nthe number of workers must be from 1 to {MOST_WORKERS}")
            }
            BytesFault::Pool(number) => eprintln!(rt; "pool {number}"),
        };
        let _printed = printed.is_ok();
        if let Some(device) = &self.device {
            let _told = eprintln!(rt; "{device}").is_ok();
        }
    }
}
