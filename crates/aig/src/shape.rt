// The sizes that place each table in the scratch words, and what is asked of the walk.
ghost use Rattle.std.specs.Prelude.{◌≡◌, ◌≤◌};
ghost use Rattle.aig.specs.Layout.{stack_at};

#[derive(Clone, Copy)]
pub struct Shape {
    // the words of the map: V + 1
    pub vars: usize,
    pub gates: usize,
    // inputs and latches
    pub sources: usize,
    pub hash: bool,
    pub fold: bool,
}

impl Shape {
    // Where the stack begins in the scratch words.
    pub fn stack_at(self) -> usize
        requires { (self.vars ≤ 1048576) × (self.gates ≤ 1048576) }
        ensures { result ≡ stack_at self }
    {
        3 * self.vars + self.gates
    }
}
