// The rows of a fence.
ghost use Rattle.std.specs.Prelude.{◌≡◌, length};

use keys::StorePrefix;

// A prefix, and whether it is raised.
// Kept: lower promises that a row's prefix stays, so the flag and the prefix are no Option.
#[derive(Clone, Copy)]
pub struct Row {
    pub(crate) raised: bool,
    pub(crate) prefix: StorePrefix,
}

// Sixteen rows.
#[derive(Clone, Copy)]
pub struct Rows {
    pub(crate) rows: [Row; 16],
    ghost size: { length rows ≡ 16 },
}
