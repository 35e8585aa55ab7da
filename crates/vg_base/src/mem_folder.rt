// Folders of files that are kept in memory. They tell everything.

ghost use Rattle.std.specs.Prelude.{◌≡◌, ◌≤◌, refl, [], IfOk, OnOk, OnErr, bytes_eq, position, length, option_map};
ghost use Rattle.vg_base.specs.Memory.{bytes_of, Adds, StoreReads, StoreWrites, Stores, MemReads, MemWrites, next_fails, fail_call, add_call, tell_store, tell_folder};
ghost use Rattle.vg_base.specs.Outside.{IsRead, IsWrite, read_answer, write_answer};

use crate::event::{Bytes, Memory};
use crate::memory::{copy_of, is_listed};
use crate::outside::{Call, Folder, FolderFault};
use std::alloc::Global;
use std::marker::Model;

/// A file by its name.
#[derive(Drop)]
struct File {
    name: Bytes,
    bytes: Bytes,
}

/// The files, the calls so far, and how many of them found no file.
#[derive(Drop)]
struct Store {
    files: Vec<File>,
    calls: Vec<Call>,
    misses: u64,
}

impl Model for Store {
    ghost use Rattle.vg_base.specs.Memory.{StoreState};

    ghost Value = { StoreState };

    ghost view = { λ s. record { files = s.files.items; calls = s.calls.items; misses = s.misses } };
}

/// A folder in memory no call of which fails.
#[derive(Drop)]
pub struct GoodFolder {
    store: Store,
}

impl Model for GoodFolder {
    ghost use Rattle.vg_base.specs.Memory.{StoreState};

    ghost Value = { StoreState };

    ghost view = { λ f. f.store };
}

/// A folder in memory of which the listed calls fail, counted from 1.
#[derive(Drop)]
pub struct MemFolder {
    store: Store,
    faults: u64,
    fails: Vec<u32>,
}

impl Model for MemFolder {
    ghost use Rattle.vg_base.specs.Memory.{MemFolderState};

    ghost Value = { MemFolderState };

    ghost view = { λ f. record { store = f.store; faults = f.faults; fails = f.fails.items } };
}

impl From<Memory> for FolderFault {
    ghost use Rattle.std.specs.Prelude.{◌≡◌};
    ghost use Rattle.vg_base.specs.declared.outside.FolderFault.TheVariants as fault;

    ghost from_gives = { λ _ e. e ≡ fault.Memory };

    fn from(_memory: Memory) -> FolderFault {
        FolderFault::Memory
    }
}

/// The bytes, in a list of their own.
fn bytes_in(alloc: Global, bytes: &[u8]) -> Result<Bytes, Memory>
    ensures { IfOk result (λ b. b ≡ bytes.now) }
{
    let list = copy_of(alloc, bytes)?;
    Ok(Bytes { list })
}

impl File {
    fn new(alloc: Global, name: &[u8], bytes: &[u8]) -> Result<File, Memory>
        ensures name { IfOk result (λ file. file.name ≡ name.now) }
        ensures bytes { IfOk result (λ file. file.bytes ≡ bytes.now) }
    {
        let name = bytes_in(alloc, name)?;
        let bytes = bytes_in(alloc, bytes)?;
        Ok(File { name, bytes })
    }

    fn has_name(&self, name: &[u8]) -> bool
        ensures { result ≡ bytes_eq self.now.name name.now }
    {
        let own = &self.name;
        own.list.as_slice() == name
    }

    /// A copy of its bytes.
    fn copy(&self, alloc: Global) -> Result<Vec<u8>, Memory>
        ensures { IfOk result (λ v. v.items ≡ self.now.bytes) }
    {
        let bytes = &self.bytes;
        copy_of(alloc, &bytes.list)
    }
}

/// Where the first file of that name stands.
fn place_of(files: &[File], name: &[u8]) -> Option<usize>
    ensures { result ≡ position (λ file. bytes_eq file.name name.now) files.now }
{
    files.iter().position(|file| file.has_name(name))
}

/// A copy of the bytes of the first file of that name.
fn find_copy(alloc: Global, files: &[File], name: &[u8]) -> Result<Option<Vec<u8>>, Memory>
    ensures { IfOk result (λ found. option_map (λ v. v.items) found ≡ bytes_of files.now name.now) }
{
    match place_of(files, name) {
        Some(place) => Ok(Some(files[place].copy(alloc)?)),
        None => Ok(None),
    }
}

impl Store {
    fn new(alloc: Global) -> Store
        ensures { result ≡ record { files = []; calls = []; misses = 0 } }
    {
        Store {
            files: Vec::new(alloc),
            calls: Vec::new(alloc),
            misses: 0,
        }
    }

    /// Makes a file of these bytes, in place of one that has the name.
    fn add(&mut self, alloc: Global, name: &[u8], bytes: &[u8]) -> Result<(), Memory>
        ensures ok { OnOk result (Adds self.old name.now bytes.now self.new) }
        ensures err { OnErr result (self.new ≡ self.old) }
    {
        let file = File::new(alloc, name, bytes)?;
        match place_of(&self.files, name) {
            Some(place) => self.files[place] = file,
            None => self.files.push(file).map_err(|_| Memory)?,
        }
        Ok(())
    }

    /// How many calls were answered.
    fn count(&self) -> u64
        ensures { result ≡ length self.now.calls }
    {
        self.calls.len() as u64
    }

    /// Adds a call that was answered.
    fn note(&mut self, call: Call) -> Result<(), Memory>
        ensures ok { OnOk result (self.new ≡ add_call self.old call) }
        ensures err { OnErr result (self.new ≡ self.old) }
    {
        self.calls.push(call).map_err(|_| Memory)
    }

    fn read(&mut self, alloc: Global, name: &[u8]) -> Result<Vec<u8>, FolderFault>
        ensures reads { StoreReads self.old name.now (read_answer result) self.new }
        ensures misses { self.old.misses ≤ self.new.misses }
    {
        let told = bytes_in(alloc, name)?;
        let Some(bytes) = find_copy(alloc, &self.files, name)? else {
            self.note(Call::Read(told, Err(FolderFault::Missing)))?;
            self.misses = self.misses.saturating_add(1);
            return Err(FolderFault::Missing);
        };
        let list = copy_of(alloc, &bytes)?;
        self.note(Call::Read(told, Ok(Bytes { list })))?;
        Ok(bytes)
    }

    fn write(&mut self, alloc: Global, name: &[u8], bytes: &[u8]) -> Result<(), FolderFault>
        ensures { StoreWrites self.old name.now bytes.now result self.new }
    {
        let told = bytes_in(alloc, name)?;
        let given = bytes_in(alloc, bytes)?;
        self.add(alloc, name, bytes)?;
        self.note(Call::Write(told, given, Ok(())))?;
        Ok(())
    }
}

impl GoodFolder {
    /// A folder with no files.
    pub fn new(alloc: Global) -> GoodFolder
        ensures { result ≡ record { files = []; calls = []; misses = 0 } }
    {
        GoodFolder {
            store: Store::new(alloc),
        }
    }

    /// Makes a file of these bytes, in place of one that has the name. It is no call.
    pub fn add(&mut self, alloc: Global, name: &str, bytes: &[u8]) -> Result<(), Memory>
        ensures ok { OnOk result (Adds self.old name.now bytes.now self.new) }
        ensures err { OnErr result (self.new ≡ self.old) }
    {
        self.store.add(alloc, name.as_bytes(), bytes)
    }
}

impl Folder for GoodFolder {
    ghost seen = { tell_store };

    ghost tells = { λ f told. refl };

    fn read_file(&mut self, alloc: Global, name: &str) -> Result<Vec<u8>, FolderFault>
        ensures is_read { IsRead (tell_store self.old) name.now (read_answer result) (tell_store self.new) }
        ensures exact { StoreReads self.old name.now (read_answer result) self.new }
    {
        self.store.read(alloc, name.as_bytes())
    }

    fn write_file(&mut self, alloc: Global, name: &str, bytes: &[u8]) -> Result<(), FolderFault>
        ensures is_write { IsWrite (tell_store self.old) name.now bytes.now (write_answer result) (tell_store self.new) }
        ensures exact { StoreWrites self.old name.now bytes.now result self.new }
    {
        self.store.write(alloc, name.as_bytes(), bytes)
    }
}

impl MemFolder {
    /// A folder with no files.
    pub fn new(alloc: Global, fails: Vec<u32>) -> MemFolder
        ensures { result ≡ record { store = record { files = []; calls = []; misses = 0 }; faults = 0; fails = fails.items } }
    {
        MemFolder {
            store: Store::new(alloc),
            faults: 0,
            fails,
        }
    }

    /// Makes a file of these bytes, in place of one that has the name. It is no call.
    pub fn add(&mut self, alloc: Global, name: &str, bytes: &[u8]) -> Result<(), Memory>
        ensures ok { OnOk result (Stores self.old self.new (λ s t. Adds s name.now bytes.now t)) }
        ensures err { OnErr result (self.new ≡ self.old) }
    {
        self.store.add(alloc, name.as_bytes(), bytes)
    }

    /// Whether the next call is listed.
    fn is_due(&self) -> bool
        ensures { result ≡ next_fails self.now }
    {
        is_listed(&self.fails, self.store.count())
    }

    /// Adds a call that failed.
    fn fail(&mut self, call: Call) -> Result<(), Memory>
        ensures ok { OnOk result (self.new ≡ fail_call self.old call) }
        ensures err { OnErr result (self.new ≡ self.old) }
        ensures faults { self.old.faults ≤ self.new.faults }
    {
        self.store.note(call)?;
        self.faults = self.faults.saturating_add(1);
        Ok(())
    }
}

impl Folder for MemFolder {
    ghost seen = { tell_folder };

    ghost tells = { λ f told. refl };

    fn read_file(&mut self, alloc: Global, name: &str) -> Result<Vec<u8>, FolderFault>
        ensures is_read { IsRead (tell_folder self.old) name.now (read_answer result) (tell_folder self.new) }
        ensures exact { MemReads self.old name.now (read_answer result) self.new }
    {
        if self.is_due() {
            let told = bytes_in(alloc, name.as_bytes())?;
            self.fail(Call::Read(told, Err(FolderFault::Failed)))?;
            return Err(FolderFault::Failed);
        }
        self.store.read(alloc, name.as_bytes())
    }

    fn write_file(&mut self, alloc: Global, name: &str, bytes: &[u8]) -> Result<(), FolderFault>
        ensures is_write { IsWrite (tell_folder self.old) name.now bytes.now (write_answer result) (tell_folder self.new) }
        ensures exact { MemWrites self.old name.now bytes.now result self.new }
    {
        if self.is_due() {
            let told = bytes_in(alloc, name.as_bytes())?;
            let given = bytes_in(alloc, bytes)?;
            self.fail(Call::Write(told, given, Err(FolderFault::Failed)))?;
            return Err(FolderFault::Failed);
        }
        self.store.write(alloc, name.as_bytes(), bytes)
    }
}
