// Laws of keeping a slice, each as the contract of a function.
ghost use Rattle.ghc_console.specs.KeepLaws.{KeepLeavesTheGoal, KeepLeavesTheSlice};

/// *Keep, back and forth*: roll back the steps outside of the slice of a variable, one after another, each that is still kept then. Just
/// the slice is kept then, and the variable stands for what it stood for. The rest can be redone, in its old order, which gives back the
/// old state.
pub fn keep_leaves_the_slice()
    ensures { KeepLeavesTheSlice }
{}

/// Where the steps outside of the slice of a goal are rolled back, one after another, each that is still kept then, the slice is kept
/// alone, and the goal is there with all at which it looks as it was, and so with its status. The rest can be redone, in its old order,
/// which gives back the old state.
pub fn keep_leaves_the_goal()
    ensures { KeepLeavesTheGoal }
{}
