// The lines of a script.
ghost use Rattle.std.specs.Prelude.{◌≡◌, length, MatchOption, ◌==◌};
ghost use Rattle.std.specs.List.{before_first, after_first};
ghost use Rattle.scripts.specs.Lines.{FewerLeft};

// What is left of a script, and how many lines were before it.
#[derive(Drop)]
pub(crate) struct Lines<'a> {
    rest: &'a [u8],
    read: usize,
}

impl<'a> Lines<'a> {
    pub(crate) fn new(script: &'a [u8]) -> Lines<'a> {
        Lines {
            rest: script,
            read: 0,
        }
    }

    // The next line with its number, from 1. No empty line stands behind the last line feed.
    // Kept: a base is left amid the lines, and what runs on it promises that fewer bytes are left then, by a clause of this call.
    pub(crate) fn next_line(&mut self) -> Option<(usize, &'a [u8])>
        ensures line { MatchOption result (length self.old.rest.now ≡ 0) (λ l. l.1.now ≡ before_first (λ b. b == 10) self.old.rest.now) }
        ensures fewer { FewerLeft result self.old.rest.now self.new.rest.now }
        ensures rest { self.new.rest.now ≡ after_first (λ b. b == 10) self.old.rest.now }
    {
        if self.rest.is_empty() {
            return None;
        }
        let end = self
            .rest
            .iter()
            .position(|b| *b == b'\n')
            .unwrap_or(self.rest.len());
        let line = &self.rest[..end];
        self.rest = &self.rest[(end + 1).min(self.rest.len())..];
        self.read = self.read.saturating_add(1);
        Some((self.read, line))
    }
}
