// What a reader of folders finds: each folder of an archive, by the text of its path, and what it saw there.
ghost use Rattle.std.specs.Prelude.{◌≡◌, IfOk, string_bytes};
ghost use Rattle.classes.specs.Sights.{kind_of, kind_name, under};

use std::alloc::{AllocError, Global};

// Which metadata files a folder holds.
#[derive(Clone, Copy, Debug)]
pub struct Marks {
    pub zarr_json: bool,
    pub zarray: bool,
    pub zgroup: bool,
}

// What a node is, by the file that marks it.
#[derive(Clone, Copy, Debug)]
pub enum Kind {
    Version3,
    Array2,
    Group2,
}

// What was seen at a path.
#[derive(Clone, Copy, Debug)]
pub enum Sight {
    Folder(Marks),
    // a symbolic link to a folder, which is not followed
    Link,
    // an entry of the folder at the path, whose name is not UTF-8
    Unnamed,
}

#[derive(Drop)]
pub struct Found {
    pub path: Vec<u8>,
    pub sight: Sight,
}

impl Marks {
    pub const NONE: Marks = Marks {
        zarr_json: false,
        zarray: false,
        zgroup: false,
    };

    // The files are looked up in the order zarr.json, .zarray, .zgroup.
    pub fn kind(&self) -> Option<Kind>
        ensures { result ≡ kind_of self.now }
    {
        if self.zarr_json {
            Some(Kind::Version3)
        } else if self.zarray {
            Some(Kind::Array2)
        } else if self.zgroup {
            Some(Kind::Group2)
        } else {
            None
        }
    }
}

impl Kind {
    // Kept: a clause knows the padded text of the library's own types alone, and the report pads this one.
    pub fn name(self) -> &'static str
        ensures { result.now ≡ kind_name self }
    {
        match self {
            Kind::Version3 => "v3 node",
            Kind::Array2 => "v2 array",
            Kind::Group2 => "v2 group",
        }
    }
}

// The path of an entry of the folder at a path.
pub fn below(heap: Global, folder: &str, name: &str) -> Result<String, AllocError>
    ensures { IfOk result (λ s. string_bytes s ≡ under folder.now name.now) }
{
    let mut path = String::new(heap);
    if folder != "/" {
        path.push_str(folder)?;
    }
    path.push('/')?;
    path.push_str(name)?;
    Ok(path)
}
