//! The host over files, standard input and standard output: it keeps its counts alone, and tells nothing of content.
ghost use Rattle.std.specs.Prelude.{◌≡◌, ◌≤◌, [], IfOk, OnErr, OnOk, Ok};
ghost use Rattle.abc_outside.specs.Outside.{RoseByOne};

use crate::files::{open_input, open_store, read_some, write_some};
use crate::host::{ChooseFault, Failed, Host};
use std::fs::File;
use std::io;
use std::os::unix::fs::FileExt;

/// The host of the system: a store file, standard input or a named file, and standard output.
///
/// It tells nothing of what stands in them. What it keeps for its contracts are its counts of faults,
/// each of which rises at an Err and stays at 2^64 - 1, and the count of the bytes taken.
///
/// No other run of this program opens the store while this host has it: the lock is one that other programs
/// need not ask for. Store, input and output are three files: where two of them are one, `choose` answers
/// [`ChooseFault::Store`]. Only input and output may be one, where they are no regular file: a terminal, say.
/// A read or a `say` waits until the stream is ready, also where whoever started the run asked for no wait.
#[derive(Drop)]
pub struct RealHost {
    rt: HostRuntime,
    store: Option<File>,
    /// The input where one is named. Without it the input is standard input.
    input: Option<File>,
    taken: u64,
    input_faults: u64,
    store_faults: u64,
    sink_faults: u64,
}

impl RealHost {
    /// A host for which nothing is chosen yet: calls on the store fail until `choose`.
    pub fn new(rt: HostRuntime) -> RealHost
        ensures taken { (⟦<RealHost as Host>⟧.now result).taken ≡ 0 }
        ensures input_faults { (⟦<RealHost as Host>⟧.now result).input_faults ≡ 0 }
        ensures store_faults { (⟦<RealHost as Host>⟧.now result).store_faults ≡ 0 }
        ensures sink_faults { (⟦<RealHost as Host>⟧.now result).sink_faults ≡ 0 }
    {
        RealHost {
            rt,
            store: None,
            input: None,
            taken: 0,
            input_faults: 0,
            store_faults: 0,
            sink_faults: 0,
        }
    }
}

fn store_size(store: &Option<File>) -> io::Result<u64> {
    let file = store.as_ref().ok_or(io::ErrorKind::NotFound)?;
    Ok(file.metadata()?.len())
}

fn read_store(store: &Option<File>, at: u64, buf: &mut [u8]) -> io::Result<()> {
    let file = store.as_ref().ok_or(io::ErrorKind::NotFound)?;
    file.read_exact_at(buf, at)
}

fn write_store(store: &Option<File>, at: u64, bytes: &[u8]) -> io::Result<()> {
    let file = store.as_ref().ok_or(io::ErrorKind::NotFound)?;
    file.write_all_at(bytes, at)
}

fn cut_store(store: &Option<File>, size: u64) -> io::Result<()> {
    let file = store.as_ref().ok_or(io::ErrorKind::NotFound)?;
    file.set_len(size)
}

fn sync_store(store: &Option<File>) -> io::Result<()> {
    let file = store.as_ref().ok_or(io::ErrorKind::NotFound)?;
    file.sync_data()
}

/// Raises the count where the call failed.
fn counted<T>(answer: io::Result<T>, faults: &mut u64) -> Result<T, Failed>
    ensures value { IfOk result (λ x. answer ≡ Ok x) }
    ensures same { OnOk result (faults.new ≡ faults.old) }
    ensures rose { OnErr result (RoseByOne faults.old faults.new) }
    ensures never_falls { faults.old ≤ faults.new }
{
    match answer {
        Ok(x) => Ok(x),
        Err(_) => {
            *faults = faults.saturating_add(1);
            Err(Failed)
        }
    }
}

impl Host for RealHost {
    ghost tells_chosen = { ⊥ };

    ghost tells_image = { ⊥ };

    ghost tells_input = { ⊥ };

    ghost tells_said = { ⊥ };

    ghost now = { λ h. record {
      chosen = [];
      taken = h.taken;
      left = [];
      image = [];
      said = [];
      asked = [];
      input_faults = h.input_faults;
      store_faults = h.store_faults;
      sink_faults = h.sink_faults;
    } };

    ghost clock = { λ _. 0 };

    ghost stopped = { λ _ _ _ _. ⊥ };

    ghost since = { λ h earlier later c s le stop. absurd stop };

    ghost says_now = { λ h c s stop. absurd stop };

    ghost reads_now = { λ h told told_said. absurd told };

    fn choose(&mut self, store: &str, input: Option<&str>) -> Result<(), ChooseFault> {
        let input = match input {
            None => None,
            Some(name) => match counted(open_input(&self.rt, name), &mut self.input_faults) {
                Ok(file) => Some(file),
                Err(Failed) => return Err(ChooseFault::Input),
            },
        };
        let file = open_store(&self.rt, store, &input, &self.store);
        let Ok(file) = counted(file, &mut self.store_faults) else {
            return Err(ChooseFault::Store);
        };
        self.store = Some(file);
        self.input = input;
        self.taken = 0;
        Ok(())
    }

    fn read(&mut self, buf: &mut [u8]) -> Result<usize, Failed> {
        let got = match &mut self.input {
            Some(file) => read_some(&self.rt, file, buf),
            None => read_some(&self.rt, &mut self.rt.stdin(), buf),
        };
        let n = counted(got, &mut self.input_faults)?;
        self.taken = self.taken.saturating_add(n as u64);
        Ok(n)
    }

    fn size(&mut self) -> Result<u64, Failed> {
        counted(store_size(&self.store), &mut self.store_faults)
    }

    fn read_at(&mut self, at: u64, buf: &mut [u8]) -> Result<(), Failed> {
        counted(read_store(&self.store, at, buf), &mut self.store_faults)
    }

    fn write_at(&mut self, at: u64, bytes: &[u8]) -> Result<(), Failed> {
        counted(write_store(&self.store, at, bytes), &mut self.store_faults)
    }

    fn cut(&mut self, size: u64) -> Result<(), Failed> {
        counted(cut_store(&self.store, size), &mut self.store_faults)
    }

    fn sync(&mut self) -> Result<(), Failed> {
        counted(sync_store(&self.store), &mut self.store_faults)
    }

    fn say(&mut self, bytes: &[u8]) -> Result<usize, Failed> {
        counted(
            write_some(&self.rt, &mut self.rt.stdout(), bytes),
            &mut self.sink_faults,
        )
    }
}
