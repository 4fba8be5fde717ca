// The room of a site in memory.
ghost use Rattle.std.specs.Prelude.{◌≡◌, ◌+◌, if◌then◌else◌};
ghost use Rattle.std.specs.Bool.{OnTrue, OnFalse};
ghost use Rattle.ts_site.specs.Room.{has_place, is_stopped, taken, passed};

/// The calls and the bytes that there is room for, and how many calls come before the planned stop, if there is one.
#[derive(Clone, Copy, Debug)]
pub struct Room {
    pub calls: u64,
    pub bytes: u64,
    pub until_stop: Option<u64>,
}

impl Room {
    /// Takes the room for a call that uses so many bytes. False, with nothing taken, where there is too little or the
    /// stop has come, which is one call nearer in any case.
    pub fn take(&mut self, bytes: u64) -> bool
        ensures place { result ≡ has_place self.old bytes }
        ensures calls { OnTrue result (self.new.calls + 1 ≡ self.old.calls) }
        ensures bytes { OnTrue result (self.new.bytes + bytes ≡ self.old.bytes) }
        ensures nothing { OnFalse result ((self.new.calls ≡ self.old.calls) × (self.new.bytes ≡ self.old.bytes)) }
        ensures left { self.new ≡ (if has_place self.old bytes then taken bytes self.old else passed self.old) }
    {
        let is_stopped = self.is_stopped();
        self.count_down();
        if is_stopped || self.calls == 0 || self.bytes < bytes {
            return false;
        }
        self.calls -= 1;
        self.bytes -= bytes;
        true
    }

    /// Whether the planned stop has come.
    pub fn is_stopped(&self) -> bool
        ensures { result ≡ is_stopped self.now.until_stop }
    {
        match self.until_stop {
            Some(calls) => calls == 0,
            None => false,
        }
    }

    fn count_down(&mut self)
        ensures { self.new ≡ passed self.old }
    {
        if let Some(calls) = self.until_stop {
            self.until_stop = Some(calls.saturating_sub(1));
        }
    }
}
