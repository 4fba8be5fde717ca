// Faults that are planned for a site in memory.
ghost use Rattle.std.specs.Prelude.{◌≡◌, map};
ghost use Rattle.ts_site.specs.MemorySite.{kind_place, is_due, nearer, planned};

/// The methods of a disk, and `say`.
#[derive(Clone, Copy, Debug)]
pub enum CallKind {
    List,
    Size,
    ReadAt,
    Create,
    Append,
    Sync,
    Rename,
    Remove,
    SyncNames,
    Barrier,
    Say,
}

/// What a call that fails by plan does to the folder or the output.
#[derive(Clone, Copy, Debug)]
pub enum FaultKind {
    /// Nothing.
    Nothing,
    /// All that it would have done.
    Happened,
    /// Of an append and a say what the first half of the bytes does, else nothing.
    Half,
}

/// A fault that is planned: the `left`th further call of this kind fails. With 0 none does.
#[derive(Clone, Copy, Debug)]
pub struct Plan {
    pub kind: CallKind,
    pub left: u64,
    pub how: FaultKind,
}

impl CallKind {
    fn place(self) -> u8
        ensures { result ≡ kind_place self }
    {
        match self {
            CallKind::List => 0,
            CallKind::Size => 1,
            CallKind::ReadAt => 2,
            CallKind::Create => 3,
            CallKind::Append => 4,
            CallKind::Sync => 5,
            CallKind::Rename => 6,
            CallKind::Remove => 7,
            CallKind::SyncNames => 8,
            CallKind::Barrier => 9,
            CallKind::Say => 10,
        }
    }
}

impl Plan {
    /// Counts a call of this kind, and tells whether it is the one that fails.
    fn count(&mut self, kind: CallKind) -> bool
        ensures due { result ≡ is_due kind self.old }
        ensures nearer { self.new ≡ nearer kind self.old }
    {
        if self.kind.place() != kind.place() {
            return false;
        }
        let is_due = self.left == 1;
        self.left = self.left.saturating_sub(1);
        is_due
    }
}

/// Counts a call of this kind in each plan, and gives the fault that is planned for it, by the last of them.
pub fn count_call(plans: &mut [Plan], kind: CallKind) -> Option<FaultKind>
    ensures fault { result ≡ planned kind plans.old }
    ensures nearer { plans.new ≡ map (nearer kind) plans.old }
{
    let mut found = None;
    for plan in plans.iter_mut() {
        if plan.count(kind) {
            found = Some(plan.how);
        }
    }
    found
}
