//! Who waits for one settling.
ghost use Rattle.std.specs.Prelude.{◌≡◌, ◌<◌, ◌≤◌, ◌-◌, ◌+◌, ◌^◌, true, false};
ghost use Rattle.acc_shared.specs.declared.groups.TheConstants.{GROUP_TURNS};

/// Behind so many draws and turns the history is settled for those who wait for it, though more ends may come.
pub const GROUP_TURNS: u64 = 256;

/// Those who wait for the ends of their transactions to become durable. One settling makes the ends of all of them so.
#[derive(Drop)]
pub struct Group {
    // how many wait
    waiting: u64,
    // how many draws and turns were made since the first of them waits
    turns_since: u64,
    // whether one of them is to settle now
    is_due: bool,
}

impl Group {
    /// Nobody.
    pub fn new() -> Group
        ensures { (result.waiting ≡ 0) × (result.turns_since ≡ 0) × (result.is_due ≡ false) }
    {
        Group {
            waiting: 0,
            turns_since: 0,
            is_due: false,
        }
    }

    /// One more waits.
    pub fn join(&mut self)
        ensures more { self.old.waiting + 1 < 2 ^ 64 → self.new.waiting ≡ self.old.waiting + 1 }
        ensures due { self.new.is_due ≡ self.old.is_due }
    {
        self.waiting = self.waiting.saturating_add(1);
    }

    /// One waits no longer.
    pub fn leave(&mut self)
        ensures less { self.new.waiting ≡ self.old.waiting - 1 }
        ensures last { self.new.waiting ≡ 0 → self.new.is_due ≡ false }
        ensures others { 0 < self.new.waiting → self.new.is_due ≡ self.old.is_due }
    {
        self.waiting = self.waiting.saturating_sub(1);
        if self.waiting == 0 {
            self.rest();
        }
    }

    /// The history was settled.
    pub fn rest(&mut self)
        ensures { (self.new.is_due ≡ false) × (self.new.turns_since ≡ 0) × (self.new.waiting ≡ self.old.waiting) }
    {
        self.turns_since = 0;
        self.is_due = false;
    }

    /// One of those who wait, if somebody does, is to settle now.
    pub fn hurry(&mut self)
        ensures due { 0 < self.old.waiting → self.new.is_due ≡ true }
        ensures waiting { self.new.waiting ≡ self.old.waiting }
    {
        if self.waiting > 0 {
            self.is_due = true;
        }
    }

    /// A draw or a turn was made, behind which so many are queued for theirs. It tells whether one of those who wait is to settle now.
    pub fn moved(&mut self, queued: u64) -> bool
        ensures none { self.old.waiting ≡ 0 → result ≡ false }
        ensures quiet { 0 < self.old.waiting → queued ≡ 0 → result ≡ true }
        ensures long { 0 < self.old.waiting → GROUP_TURNS ≤ self.old.turns_since → result ≡ true }
        ensures due { result ≡ true → self.new.is_due ≡ true }
    {
        if self.waiting == 0 {
            return false;
        }
        self.turns_since = self.turns_since.saturating_add(1);
        if queued == 0 || self.turns_since >= GROUP_TURNS {
            self.is_due = true;
        }
        self.is_due
    }

    /// Whether one of those who wait is to settle now.
    pub fn is_due(&self) -> bool
        ensures { result ≡ self.now.is_due }
    {
        self.is_due
    }
}
