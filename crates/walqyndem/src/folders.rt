// The folders of an archive, as they lie on disk. Only names and the presence of metadata files are looked at.
use crate::failure::Failure;
use classes::found::{Found, Kind, Marks, Sight};
use classes::{found, listing};
use std::alloc::AllocError;
use std::io::ErrorKind;
use std::{fs, io};

// Each folder that is reached below the archive's own, which is that of the node `/`.
pub(crate) fn find<'a>(rt: &'a HostRuntime, archive: &'a str) -> Result<Vec<Found>, Failure> {
    let heap = rt.alloc();
    have_folder(rt, archive)?;
    let mut walk = Walk {
        rt,
        archive,
        found: Vec::new(heap),
        pending: Vec::new(heap),
    };
    walk.see_root()?;
    // Kept: every loop has to end, and the disk alone decides how many folders there are, so the turns are counted.
    for _ in 0..u64::MAX {
        let Some(folder) = walk.pending.pop() else {
            break;
        };
        walk.see_entries(folder.as_str())?;
    }
    Ok(walk.found)
}

fn have_folder(rt: &HostRuntime, archive: &str) -> Result<(), Failure> {
    let path = String::from_str(rt.alloc(), archive)?;
    match fs::metadata(rt, archive) {
        Ok(seen) if seen.is_dir() => Ok(()),
        Ok(_) => Err(Failure::NoFolder(path)),
        Err(why) if why.kind() == ErrorKind::NotFound => Err(Failure::NoFolder(path)),
        Err(why) => Err(Failure::Unreadable { path, why }),
    }
}

// What was found so far, and the nodes whose folders are still to be read, by their paths.
#[derive(Drop)]
struct Walk<'a> {
    rt: &'a HostRuntime,
    archive: &'a str,
    found: Vec<Found>,
    pending: Vec<String>,
}

impl Walk<'_> {
    // Begins with the archive's own folder, which has to be a node's.
    fn see_root(&mut self) -> Result<(), Failure> {
        let heap = self.rt.alloc();
        match self.marks("/")?.kind() {
            Some(kind) => self.enter(String::from_str(heap, "/")?, kind),
            None => Err(Failure::NoNode(String::from_str(heap, self.archive)?)),
        }
    }

    // Has the folder of a node read later, but for an array's: nothing below one is a node.
    fn enter(&mut self, path: String, kind: Kind) -> Result<(), Failure> {
        match kind {
            Kind::Array2 => {}
            Kind::Version3 | Kind::Group2 => self.pending.push(path)?,
        }
        Ok(())
    }

    // Goes through what the folder of a node holds.
    fn see_entries(&mut self, folder: &str) -> Result<(), Failure> {
        let place = self.place(folder)?;
        let entries = fs::read_dir(self.rt, place.as_str()).map_err(|why| Failure::Unreadable {
            path: place,
            why,
        })?;
        for entry in entries {
            match entry {
                Ok(entry) => self.see_entry(folder, &entry)?,
                Err(why) => self.see_unnamed(folder, why)?,
            }
        }
        Ok(())
    }

    // Notes an entry that is a folder, or a link to one.
    fn see_entry(&mut self, folder: &str, entry: &fs::DirEntry) -> Result<(), Failure> {
        let path = found::below(self.rt.alloc(), folder, entry.file_name())?;
        // Kept: a closure for `map_err` would take the path, which is still needed.
        let kind = match entry.file_type() {
            Ok(kind) => kind,
            Err(why) => return Err(Failure::Unreadable { path, why }),
        };
        if kind.is_dir() {
            self.see_folder(path)
        } else if kind.is_symlink() && self.is_folder(path.as_str())? {
            self.note(path, Sight::Link)
        } else {
            Ok(())
        }
    }

    // Notes an entry that has no name in UTF-8, which is all that is told of it; any other error ends the walk.
    fn see_unnamed(&mut self, folder: &str, why: io::Error) -> Result<(), Failure> {
        let path = String::from_str(self.rt.alloc(), folder)?;
        if why.kind() == ErrorKind::InvalidFilename {
            self.note(path, Sight::Unnamed)
        } else {
            Err(Failure::Unreadable { path, why })
        }
    }

    // Notes a folder, which is read later if it is a node's. Where no node can be, it is not looked into.
    fn see_folder(&mut self, path: String) -> Result<(), Failure> {
        if !listing::is_allowed(path.as_bytes()) {
            return self.note(path, Sight::Folder(Marks::NONE));
        }
        let marks = self.marks(path.as_str())?;
        if let Some(kind) = marks.kind() {
            self.enter(path.clone()?, kind)?;
        }
        self.note(path, Sight::Folder(marks))
    }

    fn note(&mut self, path: String, sight: Sight) -> Result<(), Failure> {
        let path = path.into_bytes();
        self.found.push(Found { path, sight })?;
        Ok(())
    }

    // Where what has the path lies on disk.
    fn place(&self, path: &str) -> Result<String, AllocError> {
        let archive = self.archive;
        format!(in self.rt.alloc(); "{archive}{path}")
    }

    fn is_folder(&self, path: &str) -> Result<bool, Failure> {
        let place = self.place(path)?;
        Ok(fs::metadata(self.rt, place.as_str()).is_ok_and(|seen| seen.is_dir()))
    }

    fn marks(&self, path: &str) -> Result<Marks, Failure> {
        Ok(Marks {
            zarr_json: self.holds(path, "zarr.json")?,
            zarray: self.holds(path, ".zarray")?,
            zgroup: self.holds(path, ".zgroup")?,
        })
    }

    // Whether the folder at the path has a file of the name.
    fn holds(&self, folder: &str, name: &str) -> Result<bool, Failure> {
        let file = found::below(self.rt.alloc(), folder, name)?;
        let path = self.place(file.as_str())?;
        match fs::metadata(self.rt, path.as_str()) {
            Ok(seen) => Ok(seen.is_file()),
            Err(why) if why.kind() == ErrorKind::NotFound => Ok(false),
            Err(why) => Err(Failure::Unreadable { path, why }),
        }
    }
}
