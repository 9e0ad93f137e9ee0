// The files that hold a node's metadata.
ghost use Rattle.std.specs.Prelude.{◌≡◌};
ghost use Rattle.keys.specs.MetadataKeys.{file_name};

#[derive(Clone, Copy, PartialEq, Eq, Debug)]
pub enum MetadataFile {
    ZarrJson,
    Zarray,
    Zgroup,
    Zattrs,
}

impl MetadataFile {
    // Its name, the last part of its key.
    pub fn name(self) -> &'static [u8]
        ensures { result.now ≡ file_name self }
    {
        match self {
            MetadataFile::ZarrJson => b"zarr.json",
            MetadataFile::Zarray => b".zarray",
            MetadataFile::Zgroup => b".zgroup",
            MetadataFile::Zattrs => b".zattrs",
        }
    }
}
