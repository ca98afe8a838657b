//! A kernel at the start of a run: its chosen thread, and one instruction.

ghost use Rattle.std.specs.Prelude.{◌≡◌, []};

use crate::Kernel;
use elf_image::EntryPoint;
use posix_model::Settings;
use ready_queues::{PlainReady, Ready};
use rv_exec::{Event, Memory};
use std::alloc::Global;
use std::test::Fail;
use thread_base::{NoMemory, Sig, Tid};

const SETTINGS: Settings = Settings {
    budget: 10,
    quantum: 4,
};

/// The chosen thread, and the event of its first instruction over a memory of zeros.
fn first_event<R: Ready + Drop>(alloc: Global, ready: R) -> Result<(Option<Tid>, Event), NoMemory>
    requires { R.order ready ≡ [] }
{
    let memory = Memory::new(alloc, 65_536)?;
    let mut k = Kernel::new(alloc, ready, memory, EntryPoint(0x10000), SETTINGS)?;
    let chosen = k.chosen();
    k.place(Tid::at(0));
    Ok((chosen, k.execute()))
}

#[test]
fn thread_1_runs(rt: HostRuntime) -> Result<(), Fail> {
    let alloc = rt.alloc();
    let (chosen, event) = first_event(alloc, PlainReady::new(alloc)?)?;
    assert_eq!(rt; chosen, Some(Tid::at(0)));
    assert_eq!(rt; event, Event::Fault(Sig::of(4)));
    Ok(())
}
