// Images of sessions, by which one is handed to another server: their types here, what an image is, which are accepted
// and what holds of them in specs/. The functions are those of crate image.
#![tactic(auto)]

// A statement as an image lists it.
#[derive(Clone, Copy)]
pub struct StmtEntry {
    pub place: u32,
    pub id: u32,
    pub placeholders: u32,
}

// A cursor as an image lists it: the id of its statement, the rows that the engine reported, the rows sent so far.
#[derive(Clone, Copy)]
pub struct CursorEntry {
    pub place: u32,
    pub id: u32,
    pub stmt: u32,
    pub rows: u32,
    pub sent: u32,
}

// The reason by which an image is not written, or 0 and its length.
#[repr(C)]
#[derive(Clone, Copy)]
pub struct Written {
    pub reason: u64,
    pub len: usize,
}
