// The files of a call are read, in order.

ghost use Rattle.std.specs.Prelude.{◌≡◌, [], map, get_or, MatchResult, Some};
ghost use Rattle.std.specs.String.{string_bytes};
ghost use Rattle.std.specs.Option.{option_map};
ghost use Rattle.command_line.specs.Answers.{meaning_of};
ghost use Rattle.vala2c.specs.Course.{AreBytes, files_read};
ghost use Rattle.vala2c.specs.Stages.{GivenRead, InputRead, InputUnread, ReadStopped, SourcesRead, read_kind};

use crate::status::Kind;
use command_line::Asked;
use std::alloc::Global;
use vg_base::{Folder, FolderFault};

/// Why the files were not read: the status, and the file that its message line names.
#[derive(Drop)]
pub struct Unread<'a> {
    pub kind: Kind,
    pub file: &'a str,
}

/// The status of a read that was refused.
pub fn kind_of_read(fault: FolderFault) -> Kind
    ensures { result ≡ read_kind fault }
{
    match fault {
        FolderFault::Missing => Kind::NoFile,
        FolderFault::Failed => Kind::ReadFault,
        FolderFault::Memory => Kind::Memory,
    }
}

/// The bytes of the files, in order. It stops at the first that is not read.
pub fn read_files<'a, F: Folder>(
    alloc: Global,
    files: &'a [String],
    folder: &mut F,
) -> Result<Vec<Vec<u8>>, Unread<'a>>
    ensures { MatchResult result (λ sources. SourcesRead (map string_bytes files.now) (map (λ s. s.items) sources.items) (F.seen folder.old) (F.seen folder.new)) (λ unread. ReadStopped (map string_bytes files.now) unread.kind unread.file.now (F.seen folder.old) (F.seen folder.new)) }
{
    let mut sources = Vec::new(alloc);
    for word in files {
        let file = word.as_str();
        match folder.read_file(alloc, file) {
            Ok(source) => {
                if sources.push(source).is_err() {
                    let kind = Kind::Memory;
                    return Err(Unread { kind, file: "" });
                }
            }
            Err(fault) => {
                let kind = kind_of_read(fault);
                return Err(Unread { kind, file });
            }
        }
    }
    Ok(sources)
}

/// What the files that a call names hold: the sources, and the input of a run.
#[derive(Drop)]
pub struct Given {
    pub sources: Vec<Vec<u8>>,
    pub input: Vec<u8>,
}

/// The files of a call are read in order, and then the file of the input.
pub fn read_given<'a, F: Folder>(
    alloc: Global,
    asked: &'a Asked,
    folder: &mut F,
) -> Result<Given, Unread<'a>>
    ensures { MatchResult result (λ given. GivenRead (meaning_of asked.now) (map (λ s. s.items) given.sources.items) given.input.items (F.seen folder.old) (F.seen folder.new)) (λ unread. ReadStopped (files_read (meaning_of asked.now)) unread.kind unread.file.now (F.seen folder.old) (F.seen folder.new)) }
{
    let sources = match read_files(alloc, asked.files.as_slice(), folder) {
        Ok(sources) => sources,
        Err(unread) => return Err(unread),
    };
    match read_input(alloc, &asked.input, folder) {
        Ok(input) => Ok(Given { sources, input }),
        Err(unread) => Err(unread),
    }
}

// The file of the input is read, where there is one. Without it the input is empty.
fn read_input<'a, F: Folder>(
    alloc: Global,
    input: &'a Option<String>,
    folder: &mut F,
) -> Result<Vec<u8>, Unread<'a>>
    ensures { MatchResult result (λ bytes. InputRead (option_map string_bytes input.now) bytes.items (F.seen folder.old) (F.seen folder.new)) (λ unread. InputUnread (option_map string_bytes input.now) unread.kind unread.file.now (F.seen folder.old) (F.seen folder.new)) }
{
    match input {
        None => Ok(Vec::new(alloc)),
        Some(word) => read_named(alloc, word.as_str(), folder),
    }
}

// The bytes of a file.
fn read_named<'a, F: Folder>(
    alloc: Global,
    file: &'a str,
    folder: &mut F,
) -> Result<Vec<u8>, Unread<'a>>
    ensures { MatchResult result (λ bytes. InputRead (Some file.now) bytes.items (F.seen folder.old) (F.seen folder.new)) (λ unread. InputUnread (Some file.now) unread.kind unread.file.now (F.seen folder.old) (F.seen folder.new)) }
{
    match folder.read_file(alloc, file) {
        Ok(bytes) => {
            are_bytes(&bytes);
            Ok(bytes)
        }
        Err(fault) => {
            let kind = kind_of_read(fault);
            Err(Unread { kind, file })
        }
    }
}

// A law: what is a slice of bytes holds no greater number.
fn are_bytes(bytes: &[u8])
    ensures { AreBytes bytes.now }
{}

/// The word of the file that has a number. There is none behind the last.
pub fn word_at(files: &[String], number: u32) -> &str
    ensures { result.now ≡ get_or (map string_bytes files.now) number [] }
{
    match files.get(number as usize) {
        Some(file) => file.as_str(),
        None => "",
    }
}

/// The source of the file that has a number. There is none behind the last.
pub fn source_at(sources: &[Vec<u8>], number: u32) -> &[u8]
    ensures { result.now ≡ get_or (map (λ s. s.items) sources.now) number [] }
{
    match sources.get(number as usize) {
        Some(source) => source,
        None => &[],
    }
}
