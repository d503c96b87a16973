//! The files of a folder.

ghost use Rattle.std.specs.Prelude.{◌≡◌, ◌≤◌, ◌<◌, ◌+◌, ◌^◌, [], ◌∷◌, ◌++◌, IfOk, OnOk, OnErr, IfSome, length, take, vec_len, string_bytes, encode_utf8_all};
ghost use Rattle.std.specs.Io.KnownBytes.{Consumes, IsAtEnd};
ghost use Rattle.jats_io.specs.StoredBy.{names_asked};

use crate::store::{LoadFault, Loaded, Store};
use jats_chars::{NoMemory, Text, TextList};
use std::alloc::{AllocError, Global};
use std::fs::{self, Files};
use std::io::{ErrorKind, Read};

/// How many bytes are read at once.
const PIECE: usize = 65_536;

/// The files below a folder. It tells nothing of what they hold, and counts each load that fails and each file that is
/// absent.
pub struct FolderStore<'a, R: Files> {
    rt: &'a R,
    folder: Text,
    faults: u64,
    absences: u64,
    asked: Option<TextList>,
}

impl<'a, R: Files> FolderStore<'a, R> {
    /// The files below this folder, with counts of 0.
    pub fn new(rt: &'a R, folder: Text) -> FolderStore<'a, R>
        ensures folder { result.folder ≡ folder }
        ensures faults { result.faults ≡ 0 }
        ensures absences { result.absences ≡ 0 }
    {
        FolderStore {
            rt,
            folder,
            faults: 0,
            absences: 0,
            asked: None,
        }
    }

    /// Lists the name as asked for.
    fn ask(&mut self, alloc: Global, name: &Text) -> Result<(), NoMemory>
        ensures ok { OnOk result (names_asked self.new.asked ≡ names_asked self.old.asked ++ name.now ∷ []) }
        ensures err { OnErr result (names_asked self.new.asked ≡ names_asked self.old.asked) }
        ensures faults { self.new.faults ≡ self.old.faults }
        ensures absences { self.new.absences ≡ self.old.absences }
    {
        let name = name.copy(alloc)?;
        match &mut self.asked {
            Some(names) => names.push(name),
            None => {
                let mut names = TextList::new(alloc);
                names.push(name)?;
                self.asked = Some(names);
                Ok(())
            }
        }
    }
}

impl<'a, R: Files> Drop for FolderStore<'a, R> {
    fn drop(self) {
        let FolderStore {
            rt: _,
            folder: _,
            faults: _,
            absences: _,
            asked: _,
        } = self;
    }
}

/// The name below the folder.
fn path_of(alloc: Global, folder: &Text, name: &Text) -> Result<String, NoMemory>
    ensures { IfOk result (λ path. string_bytes path ≡ encode_utf8_all (folder.now ++ 0x2F ∷ name.now)) }
{
    let mut path = folder.copy(alloc)?;
    path.push('/')?;
    path.push_slice(name.as_slice())?;
    let path = path.as_slice().iter().copied().collect(alloc)?;
    Ok(path)
}

/// One read, of which the bytes are appended. It answers how many they are: none only at the end.
fn read_piece<F: Read>(
    file: &mut F,
    piece: &mut [u8],
    bytes: &mut Vec<u8>,
) -> Result<usize, LoadFault>
    requires { 0 < length piece.old }
    ensures count { IfOk result (λ count. count ≤ length piece.new) }
    ensures appends { IfOk result (λ count. bytes.new.items ≡ bytes.old.items ++ take count piece.new) }
    ensures grows { IfOk result (λ count. vec_len bytes.new ≡ vec_len bytes.old + count) }
    ensures reads { IfOk result (λ count. Consumes (F.remaining file.old) (F.remaining file.new) (take count piece.new)) }
    ensures end { IfOk result (λ count. count ≡ 0 → IsAtEnd (F.remaining file.new)) }
{
    let Ok(count) = file.read(piece) else {
        return Err(LoadFault::Failed);
    };
    match bytes.extend_from_slice(&piece[..count]) {
        Ok(()) => Ok(count),
        Err(_) => Err(LoadFault::NoMemory),
    }
}

/// The first `limit` + 1 bytes of a file, or all where there are fewer, read by way of the buffer, which holds a piece at a
/// time. `Failed` where a read fails, and `NoMemory` where memory runs out.
pub fn read_bytes<F: Read>(
    alloc: Global,
    file: &mut F,
    buffer: &mut [u8],
    limit: usize,
) -> Result<Vec<u8>, LoadFault>
    requires limit { limit < 2 ^ 31 }
    requires buffer { 0 < length buffer.old }
    ensures { IfOk result (λ bytes. IfSome (F.remaining file.old) (λ rest. bytes.items ≡ take (limit + 1) rest)) }
{
    let mut bytes = Vec::new(alloc);
    'pieces: while bytes.len() <= limit {
        let most = buffer.len().min(limit + 1 - bytes.len());
        match read_piece(file, &mut buffer[..most], &mut bytes) {
            Ok(0) => return Ok(bytes),
            Ok(_) => {}
            Err(fault) => return Err(fault),
        }
    }
    Ok(bytes)
}

/// A buffer of this many bytes.
fn zeros(alloc: Global, len: usize) -> Result<Vec<u8>, AllocError>
    ensures { IfOk result (λ buffer. vec_len buffer ≡ len) }
{
    vec![in alloc; 0u8; len]
}

enum Opened<F> {
    File(F),
    Absent,
    Failed,
}

fn open<R: Files>(rt: &R, path: &str) -> Opened<R::File> {
    match fs::open(rt, path) {
        Ok(file) => Opened::File(file),
        Err(e) => {
            if e.kind() == ErrorKind::NotFound {
                Opened::Absent
            } else {
                Opened::Failed
            }
        }
    }
}

impl<'a, R: Files> Store for FolderStore<'a, R> {
    ghost use Rattle.std.specs.Prelude.{None};

    ghost holds = { λ s. None };

    ghost faults = { λ s. s.faults };

    ghost absences = { λ s. s.absences };

    ghost asked = { λ s. names_asked s.asked };

    fn load(&mut self, alloc: Global, name: &Text, limit: usize) -> Result<Loaded, LoadFault> {
        if self.ask(alloc, name).is_err() {
            return Err(LoadFault::NoMemory);
        }
        let path = match path_of(alloc, &self.folder, name) {
            Ok(path) => path,
            Err(_) => return Err(LoadFault::NoMemory),
        };
        match open(self.rt, path.as_str()) {
            Opened::Absent => {
                self.absences = self.absences.saturating_add(1);
                Ok(Loaded::Absent)
            }
            Opened::Failed => {
                self.faults = self.faults.saturating_add(1);
                Err(LoadFault::Failed)
            }
            Opened::File(mut file) => {
                let Ok(mut buffer) = zeros(alloc, PIECE) else {
                    return Err(LoadFault::NoMemory);
                };
                match read_bytes(alloc, &mut file, buffer.as_mut_slice(), limit) {
                    Ok(bytes) => Ok(Loaded::Bytes(bytes)),
                    Err(LoadFault::NoMemory) => Err(LoadFault::NoMemory),
                    Err(LoadFault::Failed) => {
                        self.faults = self.faults.saturating_add(1);
                        Err(LoadFault::Failed)
                    }
                }
            }
        }
    }
}
