// Levels in bounded memory: those around the innermost one, in a window of 2,048.
ghost use Rattle.std.specs.Prelude.{◌≡◌, ◌<◌, ◌&&◌, cond, leb, ltb, length};
ghost use Rattle.survey.specs.Window.{span, slot_of, level_of, level_at, stored};

use levels::fresh;
use text::Level;

// The most levels of a window.
pub const SPAN: usize = 2048;

// A level as the window holds it, in 32 bytes: its kind and its rank are small.
#[derive(Clone, Copy)]
pub struct Slot {
    pub e: usize,
    pub g: usize,
    pub m: usize,
    pub kind: u8,
    pub rank: u8,
    pub joined: bool,
    pub inpath: bool,
    pub andor: bool,
}

impl Slot {
    // A level, to be held.
    pub fn new(l: Level) -> Slot
        requires { (l.kind < 10) × (l.rank < 3) }
        ensures { result ≡ slot_of l }
    {
        Slot {
            e: l.e,
            g: l.g,
            m: l.m,
            kind: l.kind as u8,
            rank: l.rank as u8,
            joined: l.joined,
            inpath: l.inpath,
            andor: l.andor,
        }
    }

    // The level that is held.
    pub fn level(self) -> Level
        ensures { result ≡ level_of self }
    {
        Level {
            kind: self.kind as usize,
            rank: self.rank as usize,
            joined: self.joined,
            inpath: self.inpath,
            andor: self.andor,
            e: self.e,
            g: self.g,
            m: self.m,
        }
    }
}

// The levels: the one with number i at i % 2048. No library crate has a heap, so the window is of a fixed size.
#[derive(Drop)]
pub struct Window {
    pub levels: [Slot; SPAN],
    ghost size: { length levels ≡ span },
}

impl Window {
    // A window that is for no level yet.
    pub fn new() -> Window {
        Window {
            levels: [Slot::new(fresh(0, 0)); SPAN],
        }
    }

    // Stores a level.
    #[tactic(auto, unfolding(crate::specs::Window::stored))]
    pub fn store(&mut self, i: usize, l: Level)
        requires { (l.kind < 10) × (l.rank < 3) }
        ensures { self.new.levels ≡ stored self.old.levels i l }
    {
        self.levels[i % SPAN] = Slot::new(l);
    }

    // The level that was stored.
    #[tactic(auto, unfolding(crate::specs::Window::level_at))]
    pub fn load(&self, i: usize) -> Level
        ensures { result ≡ level_at self.now.levels i }
    {
        self.levels[i % SPAN].level()
    }

    // Stores a level, if it is from lo to before hi.
    pub fn keep(&mut self, i: usize, lo: usize, hi: usize, l: Level)
        requires { (l.kind < 10) × (l.rank < 3) }
        ensures { self.new.levels ≡ cond (leb lo i && ltb i hi) (stored self.old.levels i l) self.old.levels }
    {
        if lo <= i && i < hi {
            self.store(i, l);
        }
    }

    // The level i, if it is from lo to before hi; else another.
    pub fn recall(&self, i: usize, lo: usize, hi: usize, other: Level) -> Level
        ensures { result ≡ cond (leb lo i && ltb i hi) (level_at self.now.levels i) other }
    {
        if lo <= i && i < hi {
            return self.load(i);
        }
        other
    }
}
