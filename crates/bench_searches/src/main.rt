//! What only a loop inside can count of searches, and books that are to be looked at where memory runs out:
//!
//!     bench_searches books COUNT search|runs|plain|drive <SCENARIO
//!     bench_searches pools WORKERS [shares] <SCENARIO
//!
//! The first word names a module here, which says what is done.
//!
//! The status is 2 where the words name none of these, where there is no scenario, or where the number of workers is refused. It is 3
//! where memory runs out: then standard error has the line `memory`.
#![tactic(auto)]

mod books;
mod input;
mod pools;
mod running;
mod words;

use std::alloc::AllocError;
use std::process::ExitCode;
use std::rt::Clock;
use std::sync::Wait;
use std::thread::Threads;
use words::Module;

fn main(rt: HostRuntime) -> ExitCode {
    match status(&rt, &rt) {
        Ok(status) => ExitCode::from(status),
        Err(_) => {
            let _printed = eprintln!(rt; "memory").is_ok();
            ExitCode::from(3)
        }
    }
}

/// Does what the words ask for. The answer is the status.
fn status(
    rt: &HostRuntime,
    threads: &(impl Threads + Wait + Clock + Sync),
) -> Result<u8, AllocError> {
    let asked = words::parsed(rt)?;
    let Some(scenario) = input::scenario(rt)? else {
        return Ok(2);
    };
    match asked.module {
        Module::Books => books::measure(rt, asked, &scenario),
        Module::Pools => pools::measure(rt, threads, asked, scenario),
        Module::Other => Ok(2),
    }
}
