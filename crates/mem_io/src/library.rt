//! A library in memory, which states its files.
ghost use Rattle.std.specs.Prelude.{◌≡◌, ◌≢◌, ◌≤◌, ◌+◌, ◌-◌, ◌^◌, ◌++◌, ◌∷◌, [], List, ℕ, OnOk, OnErr, IfOk, IfErr, IfSome, find, min, Contains, vec_len};
ghost use Rattle.std.specs.declared.option.Option.TheVariants.{Some, None};
ghost use Rattle.std.specs.Option.{option_copied};
ghost use Rattle.std.specs.Str.{bytes_eq};
ghost use Rattle.std.specs.String.{string_bytes};

use octet_text::copied;
use road_io::{Library, LoadError, Record};
use std::alloc::{AllocError, Global};

/// A file of a library in memory.
#[derive(Drop)]
pub struct NamedFile {
    name: String,
    octets: Vec<u8>,
}

/// A library in memory. Its calls are numbered from 0. A call fails if it is planned to fail.
#[derive(Drop)]
pub struct MemLibrary {
    alloc: Global,
    files: Vec<NamedFile>,
    fails: Vec<u64>,
    calls: u64,
    faults: u64,
    names: Record,
}

impl MemLibrary {
    ghost use Rattle.mem_io.specs.MemLibrary.{files_of, HasSamePlan, IsPlannedLoad, IsNewLibrary};

    /// Makes a library without files. The loads with the numbers in `fails` will fail.
    pub fn new(alloc: Global, fails: Vec<u64>) -> MemLibrary
        ensures { IsNewLibrary fails.items result }
    {
        MemLibrary {
            alloc,
            files: Vec::new(alloc),
            fails,
            calls: 0,
            faults: 0,
            names: Record::new(),
        }
    }

    /// Stores a file under a name. Replaces any file that has this name.
    pub fn put(&mut self, name: &str, octets: &[u8]) -> Result<(), AllocError>
        ensures ok { OnOk result (files_of self.new name.now ≡ Some octets.now) }
        ensures others { (other : List ℕ) → other ≢ name.now →
            files_of self.new other ≡ files_of self.old other }
        ensures err { OnErr result (files_of self.new ≡ files_of self.old) }
        ensures plan { HasSamePlan self.old self.new }
    {
        let Ok(name) = String::from_str(self.alloc, name) else {
            return Err(AllocError);
        };
        let Ok(octets) = octets.to_vec(self.alloc) else {
            return Err(AllocError);
        };
        match self.files.insert(0, NamedFile { name, octets }) {
            Ok(()) => Ok(()),
            Err(_) => Err(AllocError),
        }
    }
}

fn first_named<'a>(files: &'a [NamedFile], name: &str) -> Option<&'a NamedFile>
    ensures { option_copied result ≡ find
        (λ file. bytes_eq (string_bytes file.name) name.now) files.now }
{
    files.iter().find(|file| file.name.as_str() == name)
}

impl Library for MemLibrary {
    ghost use Rattle.mem_io.specs.MemLibrary.{files_of, CountsLoad, IsPlannedLoad};
    ghost use Rattle.road_io.specs.Contents.{Gives};
    ghost use Rattle.road_io.specs.Causes.{HasFailed, HasLoadCause};
    ghost use Rattle.road_io.specs.Shelves.{asked_for};

    ghost files = { λ l. Some (files_of l) };

    ghost asked = { λ l. asked_for l.names.events };

    ghost faults = { λ l. l.faults };

    ghost failures = { λ l. l.faults };

    fn load(&mut self, alloc: Global, name: &str, most: usize) -> Result<Vec<u8>, LoadError>
        ensures most { IfOk result (λ octets. vec_len octets ≤ most) }
        ensures file { IfSome (Some (files_of self.new))
            (λ folder. Gives (folder name.now) most result) }
        ensures same { Some (files_of self.new) ≡ Some (files_of self.old) }
        ensures asked { asked_for self.new.names.events ≡
            asked_for self.old.names.events ++ name.now ∷ [] }
        ensures later { self.old.faults ≤ self.new.faults }
        ensures kept { OnOk result (self.new.faults ≡ self.old.faults) }
        ensures cause { IfErr result
            (HasLoadCause (Some (files_of self.new)) self.old.faults self.new.faults) }
        ensures failed { IfErr result
            (HasFailed (Some (files_of self.new)) self.old.faults self.new.faults) }
        ensures planned { IsPlannedLoad self.old → result ≡ Err LoadError.Failed }
        ensures only_planned { result ≡ Err LoadError.Failed → IsPlannedLoad self.old }
        ensures counts { CountsLoad self.old self.new }
        ensures faulted { IsPlannedLoad self.old →
            self.new.faults ≡ min (self.old.faults + 1) (2 ^ 64 - 1) }
        ensures unfaulted { ¬ IsPlannedLoad self.old → self.new.faults ≡ self.old.faults }
    {
        let call = self.calls;
        self.calls = call.saturating_add(1);
        self.names.note(&[], name.as_bytes());
        if self.fails.contains(&call) {
            self.faults = self.faults.saturating_add(1);
            return Err(LoadError::Failed);
        }
        let Some(file) = first_named(&self.files, name) else {
            return Err(LoadError::Missing);
        };
        if file.octets.len() > most {
            return Err(LoadError::TooLong);
        }
        match copied(alloc, &file.octets) {
            Ok(octets) => Ok(octets),
            Err(none) => Err(LoadError::Memory(none)),
        }
    }
}
