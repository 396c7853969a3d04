// A session: words that the host owns, holding the two tables and the closed flag. What reads and changes it are
// functions on the words, since the C interface lends those; `Session`, by value, has methods that call them.
#![tactic(auto)]

ghost use Rattle.std.specs.Prelude.{◌≡◌};
ghost use Rattle.session.specs.Entry.{passes};
ghost use Rattle.session.specs.Tables.{fresh, prepared, freed, opened, fetched, ended_by, reset, closed_now};
ghost use Rattle.session.specs.Words.{session_of};

pub mod change;
pub mod count;
pub mod find;
pub mod mask;
pub mod words;

pub const MAX_STMTS: usize = 64;

pub const MAX_CURSORS: usize = 16;

// The words of a cursor's row.
pub const CURSOR_WORDS: usize = 5;

// The words of a session; the flag is the last.
pub const WORDS: usize = words::CLOSED + 1;

// An entry of the statement table. `live` is a flag: 0 for a free place, which then holds zeros. It is a number since
// any words of the host are a session (`session_of`), and none of them may be lost (`NothingLost`).
#[derive(Clone, Copy)]
pub struct Stmt {
    pub id: u32,
    pub placeholders: u32,
    pub live: u32,
}

// An entry of the cursor table: the id of its statement, the rows that the engine reported, the rows sent so far.
#[derive(Clone, Copy)]
pub struct Cursor {
    pub id: u32,
    pub stmt: u32,
    pub rows: u32,
    pub sent: u32,
    pub live: u32,
}

// A session by value.
#[repr(C)]
#[derive(Drop)]
pub struct Session {
    pub words: [u32; WORDS],
}

// A test on cursors: the live one of an id, a live one on a statement, any live one.
#[derive(Clone, Copy)]
pub enum Which {
    Id(u32),
    On(u32),
    Live,
}

// The empty entries.
pub const NO_STMT: Stmt = Stmt {
    id: 0,
    placeholders: 0,
    live: 0,
};

pub const NO_CURSOR: Cursor = Cursor {
    id: 0,
    stmt: 0,
    rows: 0,
    sent: 0,
    live: 0,
};

impl Session {
    pub fn fresh() -> Session
        ensures { session_of result.words ≡ fresh }
    {
        Session { words: [0; WORDS] }
    }

    // A statement takes its own place or the lowest free one; its cursor ends.
    pub fn prepare(mut self, id: u32, placeholders: u32) -> Session
        ensures { session_of result.words ≡ prepared (session_of self.words) id placeholders }
    {
        let place = find::stmt_place(&self.words, id);
        change::prepare(&mut self.words, place, id, placeholders);
        self
    }

    // Frees a statement; its cursor ends.
    pub fn free(mut self, id: u32) -> Session
        ensures { session_of result.words ≡ freed (session_of self.words) id }
    {
        let place = find::find_stmt(&self.words, id);
        change::free(&mut self.words, place, id);
        self
    }

    // A cursor takes its own place or the lowest free one.
    pub fn open(mut self, id: u32, stmt: u32, rows: u32, sent: u32) -> Session
        ensures { session_of result.words ≡ opened (session_of self.words) id stmt rows sent }
    {
        let place = find::cursor_place(&self.words, id);
        change::open(&mut self.words, place, id, stmt, rows, sent);
        self
    }

    // The cursor of an id sends `count` more rows, and no more than it has.
    pub fn fetch(mut self, id: u32, count: u32) -> Session
        ensures { session_of result.words ≡ fetched (session_of self.words) id count }
    {
        let place = find::find_cursor(&self.words, id);
        change::fetch(&mut self.words, place, count);
        self
    }

    // Every cursor that passes the test ends.
    pub fn end(mut self, which: Which) -> Session
        ensures { session_of result.words ≡ ended_by (passes which) (session_of self.words) }
    {
        change::end(&mut self.words, which);
        self
    }

    // Everything ends.
    pub fn reset(mut self) -> Session
        ensures { session_of result.words ≡ reset (session_of self.words) }
    {
        words::clear(&mut self.words);
        self
    }

    // Everything ends, and the session is closed.
    pub fn close(mut self) -> Session
        ensures { session_of result.words ≡ closed_now (session_of self.words) }
    {
        words::close(&mut self.words);
        self
    }
}
