//! The files of the system.

ghost use Rattle.std.specs.Prelude.{◌≡◌, None};

use crate::counts::count_fault;
use crate::folder::{Failed, Folder};
use crate::kept::Kept;
use crate::tries::{read_whole, write_whole};
use std::fs::{self, Metadata, OpenFile, OpenOptions};
use std::io::{self, ErrorKind, Seek, SeekFrom};
use std::marker::Model;
use std::os::unix::fs::MetadataExt;
use std::rt::Files;

/// The files of the system, by their paths. It does not tell what they hold.
///
/// It keeps the file that it read last open, and the one that it created or appended to last, so
/// that calls for one name after the other do not open it anew. A file that is kept open is the one
/// that its name had when it was opened, also where others have moved it since. A call that fails
/// closes the file that it worked on. Where the system interrupts a call, it is made again.
///
/// A name that is another name of the file that is open for reading (`./a` beside `a`, or a link)
/// is not created: `create` fails, and the file stays as it was. Its own name is created anew.
///
/// It is the trusted edge: no clause says which bytes reach a file or come from it. What is proved
/// of it is that each failure raises its count.
#[derive(Drop)]
pub struct DiskFolder<'a, H: Files> {
    rt: &'a H,
    reading: Kept<H::File>,
    appending: Kept<H::File>,
    read_faults: u64,
    write_faults: u64,
}

impl<'a, H: Files> Model for DiskFolder<'a, H> {
    ghost use Rattle.gh_outside.specs.Causes.{FaultCounts, IsCount};

    ghost Value = { FaultCounts };

    ghost view = { λ a. record { read_faults = a.read_faults; write_faults = a.write_faults } };

    ghost invariant = { λ a. IsCount a.read_faults × IsCount a.write_faults };
}

impl<'a, H: Files> DiskFolder<'a, H> {
    /// The files that the runtime reaches, with no fault counted yet.
    pub fn new(rt: &'a H) -> DiskFolder<'a, H>
        ensures reads { ⟦<DiskFolder<'a, H> as Folder>⟧.read_faults result ≡ 0 }
        ensures writes { ⟦<DiskFolder<'a, H> as Folder>⟧.write_faults result ≡ 0 }
    {
        DiskFolder {
            rt,
            reading: Kept::new(),
            appending: Kept::new(),
            read_faults: 0,
            write_faults: 0,
        }
    }
}

impl<'a, H: Files> Folder for DiskFolder<'a, H> {
    ghost held = { λ _. None };

    ghost read_faults = { λ d. d.read_faults };

    ghost write_faults = { λ d. d.write_faults };

    fn length(&mut self, name: &str) -> Result<u64, Failed> {
        match length_of(self.rt, &self.reading, name) {
            Ok(length) => Ok(length),
            Err(_) => {
                self.reading.close_named(name);
                Err(count_fault(&mut self.read_faults))
            }
        }
    }

    fn read_exact_at(&mut self, name: &str, from: u64, into: &mut [u8]) -> Result<(), Failed> {
        match read_at(self.rt, &mut self.reading, name, from, into) {
            Ok(()) => Ok(()),
            Err(_) => Err(count_fault(&mut self.read_faults)),
        }
    }

    fn create(&mut self, name: &str) -> Result<(), Failed> {
        match make(self.rt, &mut self.reading, &mut self.appending, name) {
            Ok(()) => Ok(()),
            Err(_) => Err(count_fault(&mut self.write_faults)),
        }
    }

    fn append(&mut self, name: &str, bytes: &[u8]) -> Result<(), Failed> {
        match append_to(self.rt, &mut self.appending, name, bytes) {
            Ok(()) => Ok(()),
            Err(_) => Err(count_fault(&mut self.write_faults)),
        }
    }
}

/// How many bytes the file has that is open under the name, or else the one that is there.
fn length_of<H: Files>(rt: &H, reading: &Kept<H::File>, name: &str) -> io::Result<u64> {
    let found = match reading.named(name) {
        Some(file) => file.metadata()?,
        None => fs::metadata(rt, name)?,
    };
    Ok(found.len())
}

/// Reads from the offset on until `into` is full. A file that ends before that is an error.
fn read_at<H: Files>(
    rt: &H,
    reading: &mut Kept<H::File>,
    name: &str,
    from: u64,
    into: &mut [u8],
) -> io::Result<()> {
    let mut file = match reading.take(name) {
        Some(file) => file,
        None => fs::open(rt, name)?,
    };
    file.seek(SeekFrom::Start(from))?;
    read_whole(&mut file, into)?;
    reading.keep(name, file);
    Ok(())
}

/// Makes the file hold no bytes, and keeps it open.
///
/// It is emptied only when it is known that it is not the one that is open for reading.
fn make<H: Files>(
    rt: &H,
    reading: &mut Kept<H::File>,
    appending: &mut Kept<H::File>,
    name: &str,
) -> io::Result<()> {
    appending.close();
    reading.close_named(name);
    let file = OpenOptions::new().append(true).create(true).open(rt, name)?;
    let made = file.metadata()?;
    if is_open(reading, &made)? {
        return Err(io::Error::from(ErrorKind::InvalidInput));
    }
    if made.len() > 0 {
        file.set_len(0)?;
    }
    appending.keep(name, file);
    Ok(())
}

/// Adds the bytes at the end of a file that is there, also where others have added to it.
fn append_to<H: Files>(
    rt: &H,
    appending: &mut Kept<H::File>,
    name: &str,
    bytes: &[u8],
) -> io::Result<()> {
    let mut file = match appending.take(name) {
        Some(file) => file,
        None => OpenOptions::new().append(true).open(rt, name)?,
    };
    write_whole(&mut file, bytes)?;
    appending.keep(name, file);
    Ok(())
}

/// Whether the file that is kept open is the one that this tells of.
fn is_open<F: OpenFile + Drop>(kept: &Kept<F>, other: &Metadata) -> io::Result<bool> {
    match kept.any() {
        None => Ok(false),
        Some(file) => Ok(is_one_file(&file.metadata()?, other)),
    }
}

/// Whether both tell of one file: one device, and one number on it. A number of 0 tells nothing.
fn is_one_file(one: &Metadata, other: &Metadata) -> bool {
    one.ino() != 0 && one.ino() == other.ino() && one.dev() == other.dev()
}

#[cfg(test)]
mod tests {
    use super::*;
    use std::os::unix::fs::symlink;
    use std::test::Fail;

    /// The two bytes from the offset on.
    fn two<H: Files>(
        folder: &mut DiskFolder<'_, H>,
        name: &str,
        from: u64,
    ) -> Result<[u8; 2], Failed> {
        let mut read = [0u8; 2];
        folder.read_exact_at(name, from, &mut read)?;
        Ok(read)
    }

    /// Whether two bytes are read so, or the read fails so.
    fn reads<H: Files>(
        folder: &mut DiskFolder<'_, H>,
        name: &str,
        from: u64,
        wanted: &str,
    ) -> bool {
        match two(folder, name, from) {
            Ok(read) => read.as_slice() == wanted.as_bytes(),
            Err(Failed) => wanted == "failed",
        }
    }

    /// Whether a call ends as its line says: `create a`, `append a bytes`, `length a 3`, `read a 0 by` or `remove a`,
    /// and `failed` where it fails.
    fn ends_so<H: Files>(rt: &H, folder: &mut DiskFolder<'_, H>, line: &str) -> bool {
        let mut words = line.split(' ');
        let call = words.next().unwrap_or("");
        let name = words.next().unwrap_or("");
        let first = words.next().unwrap_or("");
        let second = words.next().unwrap_or("");
        match call {
            "create" => folder.create(name).is_ok() == first.is_empty(),
            "append" => folder.append(name, first.as_bytes()).is_ok() == second.is_empty(),
            "length" => folder.length(name).ok() == first.parse().ok(),
            "read" => reads(folder, name, first.parse().unwrap_or(0), second),
            _ => fs::remove_file(rt, name).is_ok(),
        }
    }

    /// Makes the calls of a script in turn, and tells the first that does not end as its line says.
    fn astray<'s, H: Files>(
        rt: &H,
        folder: &mut DiskFolder<'_, H>,
        script: &'s str,
    ) -> Option<&'s str> {
        for line in script.lines() {
            if !ends_so(rt, folder, line) {
                return Some(line);
            }
        }
        None
    }

    #[test]
    fn writes_and_reads_a_real_file(rt: HostRuntime) {
        let mut folder = DiskFolder::new(&rt);
        let script = "\
create written_by_disk_folder
append written_by_disk_folder abc
append written_by_disk_folder def
length written_by_disk_folder 6
read written_by_disk_folder 2 cd
remove written_by_disk_folder";
        assert_eq!(rt; astray(&rt, &mut folder, script), None);
        assert_eq!(rt; (folder.read_faults, folder.write_faults), (0, 0));
    }

    #[test]
    fn what_is_not_there_is_a_fault(rt: HostRuntime) {
        let mut folder = DiskFolder::new(&rt);
        let script = "\
length never_written failed
read never_written 0 failed
append never_written abc failed";
        assert_eq!(rt; astray(&rt, &mut folder, script), None);
        assert_eq!(rt; (folder.read_faults, folder.write_faults), (2, 1));
    }

    #[test]
    fn reads_and_appends_go_from_name_to_name(rt: HostRuntime) {
        let mut folder = DiskFolder::new(&rt);
        let script = "\
create first_of_two
append first_of_two ab
create second_of_two
append second_of_two ef
append first_of_two cd
append second_of_two gh
read first_of_two 2 cd
read first_of_two 0 ab
read second_of_two 1 fg
length first_of_two 4
read first_of_two 1 bc
remove first_of_two
remove second_of_two";
        assert_eq!(rt; astray(&rt, &mut folder, script), None);
    }

    #[test]
    fn a_file_stays_open_until_another_is_read(rt: HostRuntime) {
        let mut folder = DiskFolder::new(&rt);
        let script = "\
create read_and_removed
append read_and_removed abcd
read read_and_removed 0 ab
remove read_and_removed
append read_and_removed ef
read read_and_removed 4 ef
length read_and_removed 6
read another_name 0 failed
length read_and_removed failed";
        assert_eq!(rt; astray(&rt, &mut folder, script), None);
    }

    #[test]
    fn a_read_past_the_end_is_a_fault_and_the_next_one_is_right(rt: HostRuntime) {
        let mut folder = DiskFolder::new(&rt);
        let script = "\
create short_of_a_byte
append short_of_a_byte abc
read short_of_a_byte 2 failed
read short_of_a_byte 1 bc
remove short_of_a_byte";
        assert_eq!(rt; astray(&rt, &mut folder, script), None);
        assert_eq!(rt; folder.read_faults, 1);
    }

    #[test]
    fn appends_come_after_those_of_others(rt: HostRuntime) {
        let (mut one, mut other) = (DiskFolder::new(&rt), DiskFolder::new(&rt));
        let begin = "create appended_by_two\nappend appended_by_two ab";
        let end = "\
append appended_by_two ef
read appended_by_two 2 cd
read appended_by_two 4 ef
length appended_by_two 6
remove appended_by_two";
        assert_eq!(rt; astray(&rt, &mut one, begin), None);
        assert_eq!(rt; other.append("appended_by_two", b"cd"), Ok(()));
        assert_eq!(rt; astray(&rt, &mut one, end), None);
    }

    #[test]
    fn the_name_that_was_read_is_made_anew(rt: HostRuntime) {
        let mut folder = DiskFolder::new(&rt);
        let script = "\
create read_and_made_anew
append read_and_made_anew abcdef
read read_and_made_anew 0 ab
create read_and_made_anew
append read_and_made_anew ghi
length read_and_made_anew 3
read read_and_made_anew 1 hi
remove read_and_made_anew";
        assert_eq!(rt; astray(&rt, &mut folder, script), None);
    }

    /// What creating the other name gives after the name was read, and how many writes failed.
    fn create_beside<H: Files>(rt: &H, name: &str, other: &str) -> (Result<(), Failed>, u64) {
        let mut folder = DiskFolder::new(rt);
        let _ = two(&mut folder, name, 0);
        let created = folder.create(other);
        (created, folder.write_faults)
    }

    #[test]
    fn another_name_of_the_file_that_was_read_is_refused(rt: HostRuntime) -> Result<(), Fail> {
        let name = "read_by_its_name";
        fs::write(&rt, name, b"abc")?;
        fs::hard_link(&rt, name, "hard_link")?;
        symlink(&rt, name, "symbolic_link")?;
        for other in ["./read_by_its_name", "hard_link", "symbolic_link"] {
            assert_eq!(rt;
                create_beside(&rt, name, other),
                (Err(Failed), 1),
                "{other}"
            );
        }
        assert_eq!(rt; fs::read(&rt, name)?.as_slice(), b"abc".as_slice());
        fs::remove_file(&rt, "symbolic_link")?;
        fs::remove_file(&rt, "hard_link")?;
        fs::remove_file(&rt, name)?;
        Ok(())
    }

    #[test]
    fn the_very_name_that_was_read_is_allowed(rt: HostRuntime) -> Result<(), Fail> {
        fs::write(&rt, "read_and_created", b"abc")?;
        assert_eq!(rt;
            create_beside(&rt, "read_and_created", "read_and_created"),
            (Ok(()), 0)
        );
        assert_eq!(rt;
            fs::read(&rt, "read_and_created")?.as_slice(),
            b"".as_slice()
        );
        fs::remove_file(&rt, "read_and_created")?;
        Ok(())
    }
}
