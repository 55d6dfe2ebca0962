// The folders that files are in, and which of them have entries that a crash may take.
use crate::files::{look, sync_folder};
use crate::paths::folder_of;
use crate::trouble::{Fault, Trouble};
use std::alloc::Global;
use std::collections::BTreeMap;
use std::fs;
use std::io::{self, ErrorKind};
use std::rt::Files;

// What is known of a folder that is there.
#[derive(Clone, Copy, PartialEq, Eq)]
enum Standing {
    // An earlier run may have made it, or entries in it, and gone down before they were stable.
    Met,
    // A crash may take entries of it. It is listed.
    Fresh,
    // Its entries are stable.
    Settled,
}

#[derive(Drop)]
struct Folder {
    full: String,
    standing: Standing,
}

// The folders that were met, by their full paths, and which of them are fresh, each once.
#[derive(Drop)]
pub struct Folders {
    list: Vec<Folder>,
    places: BTreeMap<String, usize>,
    fresh: Vec<usize>,
    // The folder that the root is in, until it was synced.
    parent: Option<String>,
}

impl Folders {
    pub fn none(alloc: Global) -> Folders {
        Folders {
            list: Vec::new(alloc),
            places: BTreeMap::new(alloc),
            fresh: Vec::new(alloc),
            parent: None,
        }
    }

    // Whether the folder of a file is there. It and those on the way from the root are looked at once,
    // or made where that is asked for. A link on the way is a fault.
    pub fn reach<R: Files>(
        &mut self,
        rt: &R,
        alloc: Global,
        root: &str,
        full: &str,
        makes: bool,
    ) -> Result<bool, Trouble> {
        let folder = folder_of(full);
        if self.places.get(folder).is_some() {
            return Ok(true);
        }
        if !self.reach_root(rt, alloc, root, makes)? {
            return Ok(false);
        }
        for end in root.len()..folder.len() {
            if let Some((way, rest)) = folder.split_at_checked(end + 1) {
                let ends = rest.is_empty() || rest.starts_with('/');
                if ends && !self.reach_next(rt, alloc, way, makes)? {
                    return Ok(false);
                }
            }
        }
        Ok(true)
    }

    // The same of one folder, where the one that it is in is known.
    fn reach_next<R: Files>(
        &mut self,
        rt: &R,
        alloc: Global,
        folder: &str,
        makes: bool,
    ) -> Result<bool, Trouble> {
        if self.places.get(folder).is_some() {
            return Ok(true);
        }
        let full = String::from_str(alloc, folder)?;
        match is_there(rt, folder, makes) {
            Ok(true) => self.add(alloc, full, Standing::Met)?,
            Ok(false) => return Ok(false),
            Err(reason) => return Err(Trouble::of(doing(makes), full, reason)),
        }
        Ok(true)
    }

    // The same of the root, which may be a link. Its entries are synced once, and those of the folder
    // that it is in: an earlier run may have made it and the log.
    fn reach_root<R: Files>(
        &mut self,
        rt: &R,
        alloc: Global,
        root: &str,
        makes: bool,
    ) -> Result<bool, Trouble> {
        if self.places.get(root).is_some() {
            return Ok(true);
        }
        let full = String::from_str(alloc, root)?;
        let parent = format!(in alloc; "{root}/..")?;
        if makes {
            self.list_above(rt, alloc, root)?;
        }
        match is_root_there(rt, root, makes) {
            Ok(true) => {}
            Ok(false) => return Ok(false),
            Err(reason) => return Err(Trouble::of(doing(makes), full, reason)),
        }
        self.add(alloc, full, Standing::Fresh)?;
        self.parent = Some(parent);
        Ok(true)
    }

    // Lists the folders above the root that get a new entry where the root is made.
    fn list_above<R: Files>(&mut self, rt: &R, alloc: Global, root: &str) -> Result<(), Trouble> {
        let mut folder = root;
        for _ in 0..root.len() {
            if !is_missing(rt, folder) {
                break;
            }
            folder = folder_of(folder);
            let full = String::from_str(alloc, folder)?;
            self.add(alloc, full, Standing::Fresh)?;
        }
        Ok(())
    }

    // Adds a folder, with room to list it.
    fn add(&mut self, alloc: Global, full: String, standing: Standing) -> Result<(), Trouble> {
        let place = self.list.len();
        let key = String::from_str(alloc, full.as_str())?;
        self.fresh.reserve(place.saturating_add(1))?;
        self.list.push(Folder { full, standing })?;
        self.places.insert(key, place)?;
        if standing == Standing::Fresh {
            let _ = self.fresh.push(place);
        }
        Ok(())
    }

    // Lists the folder of a file that was made, or that has gone. Where nothing was known of its own
    // entry, the folder that it is in is listed too, and so on up to the first that was known.
    pub fn list(&mut self, full: &str) {
        let mut folder = folder_of(full);
        for _ in 0..full.len() {
            match self.list_one(folder) {
                Some(Standing::Met) => folder = folder_of(folder),
                _ => break,
            }
        }
    }

    // Lists a folder, and answers what was known of it.
    fn list_one(&mut self, folder: &str) -> Option<Standing> {
        let place = *self.places.get(folder)?;
        let folder = self.list.get_mut(place)?;
        let standing = folder.standing;
        if standing != Standing::Fresh {
            folder.standing = Standing::Fresh;
            let _ = self.fresh.push(place);
        }
        Some(standing)
    }

    // Makes the entries of the listed folders stable, one sync each. It takes no memory but for a
    // fault's text.
    pub fn sync<R: Files>(&mut self, rt: &R, alloc: Global) -> Result<(), Fault> {
        if let Some(parent) = self.parent.take() {
            sync_parent(rt, alloc, parent)?;
        }
        for _ in 0..self.fresh.len() {
            let Some(place) = self.fresh.pop() else {
                break;
            };
            if let Some(folder) = self.list.get_mut(place) {
                let full = folder.full.as_str();
                if let Err(reason) = sync_folder(rt, full) {
                    return Err(Fault::at(alloc, "syncing", full, reason));
                }
                folder.standing = Standing::Settled;
            }
        }
        Ok(())
    }
}

fn doing(makes: bool) -> &'static str {
    if makes { "making" } else { "opening" }
}

// Syncs the folder that the root is in, unless it isn't ours to open.
fn sync_parent<R: Files>(rt: &R, alloc: Global, parent: String) -> Result<(), Fault> {
    match sync_folder(rt, parent.as_str()) {
        Ok(()) => Ok(()),
        Err(reason) => {
            if reason.kind() == ErrorKind::PermissionDenied {
                return Ok(());
            }
            Err(Fault::at(alloc, "syncing", parent.as_str(), reason))
        }
    }
}

// Whether a folder is at a path below the root. It is made where that is asked for. Anything else that
// is there is a fault, and so is a link, since it may lead out of the root.
fn is_there<R: Files>(rt: &R, folder: &str, makes: bool) -> io::Result<bool> {
    match look(rt, folder)? {
        Some(about) => {
            if about.is_dir() {
                return Ok(true);
            }
            Err(not_folder())
        }
        None => {
            if makes {
                fs::create_dir(rt, folder)?;
            }
            Ok(makes)
        }
    }
}

// The same of the root, which may be a link to a folder.
fn is_root_there<R: Files>(rt: &R, root: &str, makes: bool) -> io::Result<bool> {
    if is_missing(rt, root) {
        if makes {
            fs::create_dir_all(rt, root)?;
        }
        return Ok(makes);
    }
    if fs::metadata(rt, root)?.is_dir() {
        return Ok(true);
    }
    Err(not_folder())
}

fn not_folder() -> io::Error {
    io::Error::new(ErrorKind::InvalidInput, "it is no folder")
}

// Whether nothing is at a path.
fn is_missing<R: Files>(rt: &R, folder: &str) -> bool {
    match fs::metadata(rt, folder) {
        Ok(_) => false,
        Err(reason) => reason.kind() == ErrorKind::NotFound,
    }
}
