// A sheet that was read, for the crates that report on it, run it or write its clauses.
ghost use Rattle.sheet.specs.Facts.{SheetRead};

use sheet::Header;

// The bytes of a sheet that was read, and its parts.
#[derive(Clone, Copy)]
pub struct ReadSheet<'a> {
    pub bytes: &'a [u8],
    pub header: Header,
    pub ghost read: { SheetRead bytes.now header },
}
